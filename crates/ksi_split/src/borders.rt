ghost use Rattle.std.specs.Prelude.{◌≡◌, ◌≢◌, ◌%◌, ◌<◌, ◌≤◌, ◌+◌, length, IfOk, Some, None};
ghost use Rattle.ksi_split.specs.Upward.{halves, node, link_up};
ghost use Rattle.ksi_split.specs.Leaves.{leaf_of};
ghost use Rattle.ksi_split.specs.Stored.{AreBorders, maybe_link};

use crate::NoMemory;
use crate::joins::Joins;
use crate::levels::levels;
use crate::rows::Rows;
use crate::side::Side;
use crate::steps::Steps;
use crate::tree_link::TreeLink;
use std::sync::ledger::Ledger;

// The parts of each level of the tree to a last leaf: its last part, complete or not, and the link up from a part.
impl<N: Copy, J: Joins<N>> Rows<N, J> {
    /// The last part of the next level.
    fn raise<L: Ledger>(&self, last: u64, level: usize, border: N, steps: &mut Steps<L>) -> N
        requires few { level < 63 }
        requires covered { last < self.now.start + length self.now.items }
        requires border { border ≡ node J.joined (leaf_of self.now) last level (halves level last) }
        ensures border { result ≡ node J.joined (leaf_of self.now) last (level + 1) (halves (level + 1) last) }
        ensures later { steps.old ≤ steps.new }
        ensures cost { steps.new ≤ steps.old + 1 }
    {
        let _ = &self.zeros;
        let end = last >> level;
        let above = last >> (level + 1);
        if above < (last + 1) >> (level + 1) {
            // the last leaf completes this part, so it is kept
            self.part(level + 1, above, steps)
        } else if end % 2 == 1 {
            let left = self.part(level, end - 1, steps);
            J::join(&left, &border)
        } else {
            border
        }
    }

    /// The last part of the next level where it stands behind part `at` of that level, and else none.
    pub(crate) fn raise_behind<L: Ledger>(
        &self,
        last: u64,
        level: usize,
        at: u64,
        border: Option<N>,
        steps: &mut Steps<L>,
    ) -> Option<N>
        requires few { level < 63 }
        requires covered { last < self.now.start + length self.now.items }
        requires border { at < halves (level + 1) last →
            border ≡ Some (node J.joined (leaf_of self.now) last level (halves level last)) }
        ensures border { at < halves (level + 1) last →
            result ≡ Some (node J.joined (leaf_of self.now) last (level + 1) (halves (level + 1) last)) }
        ensures none { halves (level + 1) last ≤ at → result ≡ None }
        ensures later { steps.old ≤ steps.new }
        ensures cost { steps.new ≤ steps.old + 1 }
        ensures free { halves (level + 1) last ≤ at → steps.new ≡ steps.old }
    {
        if at >= last >> (level + 1) {
            return None;
        }
        match border {
            Some(part) => Some(self.raise(last, level, part, steps)),
            None => None,
        }
    }

    /// The part that the last leaf is in, of each level below the root's.
    pub(crate) fn borders<L: Ledger>(
        &self,
        last: u64,
        steps: &mut Steps<L>,
    ) -> Result<Vec<N>, NoMemory>
        requires { last < self.now.start + length self.now.items }
        ensures { IfOk result (λ borders. AreBorders J.joined (leaf_of self.now) last borders.items) }
    {
        let _ = &self.zeros;
        let height = levels(last);
        let mut borders = Vec::with_capacity(self.alloc(), height)?;
        let mut border = self.part(0, last, steps);
        for level in 0..height {
            borders.push(border)?;
            border = self.raise(last, level, border, steps);
        }
        Ok(borders)
    }

    /// The part of a level that the last leaf is in.
    pub(crate) fn border<L: Ledger>(&self, last: u64, levels: usize, steps: &mut Steps<L>) -> N
        requires few { levels ≤ 63 }
        requires covered { last < self.now.start + length self.now.items }
        ensures { result ≡ node J.joined (leaf_of self.now) last levels (halves levels last) }
    {
        let mut border = self.part(0, last, steps);
        for level in 0..levels {
            border = self.raise(last, level, border, steps);
        }
        border
    }

    /// A part of a level, complete or not.
    pub(crate) fn part_to<L: Ledger>(
        &self,
        last: u64,
        level: usize,
        at: u64,
        steps: &mut Steps<L>,
    ) -> N
        requires few { level ≤ 63 }
        requires covered { last < self.now.start + length self.now.items }
        requires within { at ≤ halves level last }
        ensures { result ≡ node J.joined (leaf_of self.now) last level at }
    {
        if at < last >> level {
            self.part(level, at, steps)
        } else {
            self.border(last, level, steps)
        }
    }

    /// The link up from a part of a level, none from a last part that stands alone.
    pub(crate) fn link_up<L: Ledger>(
        &self,
        last: u64,
        level: usize,
        at: u64,
        border: Option<N>,
        steps: &mut Steps<L>,
    ) -> Option<TreeLink<N>>
        requires few { level < 63 }
        requires covered { last < self.now.start + length self.now.items }
        requires within { at ≤ halves level last }
        requires border { at < halves level last →
            border ≡ Some (node J.joined (leaf_of self.now) last level (halves level last)) }
        requires none { halves level last ≤ at → border ≡ None }
        ensures link { maybe_link result ≡ link_up J.joined (leaf_of self.now) last level at }
        ensures cost { steps.new ≤ steps.old + 1 }
        ensures free { at % 2 ≡ 0 → at + 1 ≡ halves level last → steps.new ≡ steps.old }
        ensures later { steps.old ≤ steps.new }
        ensures left { at % 2 ≡ 1 → steps.new ≡ steps.old + 1 }
        ensures read { at + 1 ≢ halves level last → steps.old + length (maybe_link result) ≤ steps.new }
    {
        let end = last >> level;
        if at % 2 == 1 {
            Some(TreeLink {
                side: Side::Right,
                sibling: self.part(level, at - 1, steps),
            })
        } else if at + 1 < end {
            Some(TreeLink {
                side: Side::Left,
                sibling: self.part(level, at + 1, steps),
            })
        } else {
            match border {
                Some(sibling) => Some(TreeLink {
                    side: Side::Left,
                    sibling,
                }),
                None => None,
            }
        }
    }
}
