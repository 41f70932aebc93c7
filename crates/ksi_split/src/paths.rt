ghost use Rattle.std.specs.Prelude.{◌≡◌, ◌<◌, ◌≤◌, ◌+◌, length, IfOk, Some, None};
ghost use Rattle.ksi_split.specs.Leaves.{leaf_of};
ghost use Rattle.ksi_split.specs.Trees.{path_of};
ghost use Rattle.ksi_split.specs.Upward.{halves};

use crate::NoMemory;
use crate::joins::Joins;
use crate::rows::Rows;
use crate::steps::Steps;
use crate::tree_link::TreeLink;
use std::alloc::Global;
use std::marker::{Brand, Model};
use std::sync::ledger::{Blank, Ledger};

/// The paths of the tree over the leaves to an existing one. The part of each level that the last leaf is in is computed
/// once for all of them, so a path costs only reads. A contract sees the leaves and the last of them.
#[derive(Drop)]
pub struct Paths<'a, N: Copy, J: Joins<N>> {
    rows: &'a Rows<N, J>,
    last: u64,
    borders: Vec<N>,
}

impl<'a, N: Copy, J: Joins<N>> Model for Paths<'a, N, J> {
    ghost use Rattle.std.specs.Prelude.{◌<◌, ◌+◌, length};
    ghost use Rattle.ksi_split.specs.Leaves.{leaf_of, TreeTo};
    ghost use Rattle.ksi_split.specs.Stored.{AreBorders};

    ghost Value = { TreeTo N };

    ghost view = { λ p. record { leaves = p.rows.now; last = p.last } };

    ghost invariant = { λ p. (p.last < p.rows.now.start + length p.rows.now.items)
        × AreBorders J.joined (leaf_of p.rows.now) p.last p.borders.items };
}

impl<'a, N: Copy, J: Joins<N>> Paths<'a, N, J> {
    /// What the memory is taken from.
    pub fn alloc(&self) -> Global {
        self.rows.alloc()
    }

    /// The links from leaf `t`, which is at most the last, up to the root, the lowest first.
    ///
    /// # Errors
    /// `NoMemory`: all is as it was.
    pub fn path(&self, t: u64) -> Result<Vec<TreeLink<N>>, NoMemory>
        requires { t ≤ self.now.last }
        ensures { IfOk result (λ path. path.items ≡ path_of J.joined (leaf_of self.now.leaves) 0 t (self.now.last + 1)) }
    {
        path_beside::<N, J, Brand>(self, t, Blank::new(1))
    }
}

/// The paths of the tree over the leaves to `last`, which is an existing leaf.
pub(crate) fn paths_from<'a, N: Copy, J: Joins<N>, L: Ledger>(
    rows: &'a Rows<N, J>,
    last: u64,
    blank: Blank,
) -> Result<Paths<'a, N, J>, NoMemory>
    requires name { blank.name ≡ L.name }
    requires parts { blank.parts ≡ L.parts }
    requires one { blank.parts ≡ 1 }
    requires covered { last < rows.now.start + length rows.now.items }
    ensures { IfOk result (λ paths. paths ≡ record { leaves = rows.now; last = last }) }
{
    let mut steps = Steps::<L>::open(blank);
    let borders = rows.borders(last, &mut steps)?;
    Ok(Paths {
        rows,
        last,
        borders,
    })
}

fn path_beside<N: Copy, J: Joins<N>, L: Ledger>(
    paths: &Paths<'_, N, J>,
    t: u64,
    blank: Blank,
) -> Result<Vec<TreeLink<N>>, NoMemory>
    requires name { blank.name ≡ L.name }
    requires parts { blank.parts ≡ L.parts }
    requires one { blank.parts ≡ 1 }
    requires within { t ≤ paths.now.last }
    ensures { IfOk result (λ path. path.items ≡ path_of J.joined (leaf_of paths.now.leaves) 0 t (paths.now.last + 1)) }
{
    let mut steps = Steps::<L>::open(blank);
    let rows = paths.rows;
    let last = paths.last;
    let levels = paths.borders.len();
    let mut path = Vec::with_capacity(rows.alloc(), levels)?;
    let mut at = t;
    for level in 0..levels {
        let border = border_behind(last, level, at, paths.borders[level]);
        if let Some(link) = rows.link_up(last, level, at, border, &mut steps) {
            path.push(link)?;
        }
        at /= 2;
    }
    Ok(path)
}

/// The last part of a level, where it stands behind part `at`.
fn border_behind<N: Copy>(last: u64, level: usize, at: u64, border: N) -> Option<N>
    requires { level ≤ 63 }
    ensures behind { at < halves level last → result ≡ Some border }
    ensures none { halves level last ≤ at → result ≡ None }
{
    if at < last >> level {
        Some(border)
    } else {
        None
    }
}
