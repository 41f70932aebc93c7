ghost use Rattle.std.specs.Prelude.{◌≡◌, ◌<◌, true, All, IfSome};
ghost use Rattle.ksi_tlv.specs.Views.{view_placed};
ghost use Rattle.ksi_tlv.specs.Table.{Table, is_among, is_table};
ghost use Rattle.ksi_tlv.specs.Counters.{rule_of, lack_of, missing_of};

use crate::Placed;
use crate::grammar::fault::ElementFault;
use crate::grammar::rule::{Rule, Seen};

/// The table of one container.
pub trait Grammar {
    ghost table: { Table };

    /// What the table says of a kind, or nothing of an unknown one.
    fn rule(kind: u16) -> Option<Rule>
        ensures value { result ≡ rule_of table kind }
        ensures in_range { IfSome result (λ rule. rule.slot < 8) };

    /// Whether the kind is refused by name.
    fn is_refused(kind: u16) -> bool
        ensures { result ≡ is_among kind table.refused };

    /// What is wrong with what a known element holds.
    fn content(at: &Placed<'_>) -> Result<(), ElementFault>
        ensures { result ≡ table.content (view_placed at.now) };

    /// The element that is missing at the end of a container at a place.
    fn end(seen: &Seen, place: usize) -> Result<(), ElementFault>
        ensures { result ≡ lack_of table seen.now place };

    ghost well_formed: { is_table table ≡ true };
}

/// The first of these slots that is empty, each with the kind that is then missing in the container at a place.
pub fn missing(needs: &[(usize, u16)], seen: &Seen, place: usize) -> Result<(), ElementFault>
    requires { All (λ need. need.0 < 8) needs.now }
    ensures { result ≡ missing_of needs.now seen.now place }
{
    for (slot, kind) in needs {
        if seen[*slot] == 0 {
            return Err(ElementFault::Missing(*kind, place));
        }
    }
    Ok(())
}
