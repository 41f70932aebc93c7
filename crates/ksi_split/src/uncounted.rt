// The calls that count nothing: each opens a count of its own, and leaves it.
ghost use Rattle.std.specs.Prelude.{◌≡◌, ◌++◌, ◌∷◌, [], ◌<◌, ◌≤◌, ◌+◌, ◌^◌, length, OnOk, OnErr, IfOk};
ghost use Rattle.ksi_split.specs.Trees.{tree, path_of, node_at};
ghost use Rattle.ksi_split.specs.Leaves.{leaf_of};

use crate::NoMemory;
use crate::joins::Joins;
use crate::rows::Rows;
use crate::side::Side;
use crate::steps::Steps;
use crate::tree_link::TreeLink;
use std::sync::ledger::{Blank, Ledger};

pub(crate) fn leaf_from<N: Copy, J: Joins<N>, L: Ledger>(
    rows: &Rows<N, J>,
    at: u64,
    blank: Blank,
) -> N
    requires name { blank.name ≡ L.name }
    requires parts { blank.parts ≡ L.parts }
    requires one { blank.parts ≡ 1 }
    requires within { at < rows.now.start + length rows.now.items }
    ensures { result ≡ leaf_of rows.now at }
{
    let mut steps = Steps::<L>::open(blank);
    rows.leaf_counted(at, &mut steps)
}

pub(crate) fn root_from<N: Copy, J: Joins<N>, L: Ledger>(
    rows: &Rows<N, J>,
    last: u64,
    blank: Blank,
) -> N
    requires name { blank.name ≡ L.name }
    requires parts { blank.parts ≡ L.parts }
    requires one { blank.parts ≡ 1 }
    requires covered { last < rows.now.start + length rows.now.items }
    ensures { result ≡ tree J.joined (leaf_of rows.now) 0 (last + 1) }
{
    let mut steps = Steps::<L>::open(blank);
    rows.root_counted(last, &mut steps)
}

pub(crate) fn node_from<N: Copy, J: Joins<N>, L: Ledger>(
    rows: &Rows<N, J>,
    last: u64,
    sides: &[Side],
    blank: Blank,
) -> Option<N>
    requires name { blank.name ≡ L.name }
    requires parts { blank.parts ≡ L.parts }
    requires one { blank.parts ≡ 1 }
    requires covered { last < rows.now.start + length rows.now.items }
    ensures { result ≡ node_at J.joined (leaf_of rows.now) last sides.now }
{
    let mut steps = Steps::<L>::open(blank);
    rows.node_counted(last, sides, &mut steps)
}

pub(crate) fn path_from<N: Copy, J: Joins<N>, L: Ledger>(
    rows: &Rows<N, J>,
    t: u64,
    last: u64,
    blank: Blank,
) -> Result<Vec<TreeLink<N>>, NoMemory>
    requires name { blank.name ≡ L.name }
    requires parts { blank.parts ≡ L.parts }
    requires one { blank.parts ≡ 1 }
    requires within { t ≤ last }
    requires covered { last < rows.now.start + length rows.now.items }
    ensures { IfOk result (λ path. path.items ≡ path_of J.joined (leaf_of rows.now) 0 t (last + 1)) }
{
    let mut steps = Steps::<L>::open(blank);
    rows.path_counted(t, last, &mut steps)
}

pub(crate) fn append_from<N: Copy, J: Joins<N>, L: Ledger>(
    rows: &mut Rows<N, J>,
    leaf: N,
    blank: Blank,
) -> Result<(), NoMemory>
    requires name { blank.name ≡ L.name }
    requires parts { blank.parts ≡ L.parts }
    requires one { blank.parts ≡ 1 }
    requires room { rows.old.start + length rows.old.items < 2 ^ 63 }
    ensures added { OnOk result (rows.new ≡ record rows.old { items = rows.old.items ++ leaf ∷ [] }) }
    ensures unchanged { OnErr result (rows.new ≡ rows.old) }
{
    let mut steps = Steps::<L>::open(blank);
    rows.append_counted(leaf, &mut steps)
}

pub(crate) fn append_all_from<N: Copy, J: Joins<N>, L: Ledger>(
    rows: &mut Rows<N, J>,
    leaves: &[N],
    blank: Blank,
) -> Result<(), NoMemory>
    requires name { blank.name ≡ L.name }
    requires parts { blank.parts ≡ L.parts }
    requires one { blank.parts ≡ 1 }
    requires room { rows.old.start + length rows.old.items + length leaves.now ≤ 2 ^ 63 }
    ensures added { OnOk result (rows.new ≡ record rows.old { items = rows.old.items ++ leaves.now }) }
    ensures unchanged { OnErr result (rows.new ≡ rows.old) }
{
    let mut steps = Steps::<L>::open(blank);
    rows.append_all_counted(leaves, &mut steps)
}
