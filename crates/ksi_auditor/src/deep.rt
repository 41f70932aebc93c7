ghost use Rattle.std.specs.Prelude.{◌≡◌, ◌<◌, ◌≤◌, ◌^◌, ◌++◌, ◌∷◌, [], ℕ, List, None, length};
ghost use Rattle.ksi_split.specs.declared.side.Side.{Side};
ghost use Rattle.ksi_calendar.specs.Calendar as calendars;
ghost use Rattle.ksi_aggtree.specs.declared.item.Item.{Item};
ghost use Rattle.ksi_aggtree.specs.Nodes.{text_of};
ghost use Rattle.ksi_aggtree.specs.Rounds.{most_items};

use ksi_aggtree::laws::one_text;
use ksi_split::laws::{parts, short_ways};

/// No node of a calendar stands deeper than 63 sides, and no join of a round deeper than 16.
pub(crate) fn deep_places()
    ensures calendar { (image : List ℕ → List ℕ) (seconds : calendars.Seconds) (p : ℕ) (sides : List Side) → p < 2 ^ 63 → 63 < length sides →
        calendars.node_of image seconds p sides ≡ None }
    ensures items { (image : List ℕ → List ℕ) (items : List Item) (sides : List Side) → length items ≤ most_items → 16 < length sides →
        text_of image items sides ≡ None }
{
    parts();
    one_text();
    short_ways();
}
