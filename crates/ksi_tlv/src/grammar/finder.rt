ghost use Rattle.std.specs.Prelude.{◌≡◌, Ok, IfSome, option_map};
ghost use Rattle.ksi_tlv.specs.Views.{view_placed};
ghost use Rattle.ksi_tlv.specs.Containing.{inner_verdict};
ghost use Rattle.ksi_tlv.specs.Valid.{MayStand};
ghost use Rattle.ksi_tlv.specs.Inside.{inner_elements, first_of};

use crate::grammar::table::Grammar;
use crate::{Elements, Placed};

/// The first element of a kind in a container that was accepted.
pub fn first_inside<'a, G: Grammar>(at: &Placed<'a>, kind: u16) -> Option<Placed<'a>>
    requires { inner_verdict G.table (view_placed at.now) ≡ Ok tt }
    ensures value { option_map view_placed result ≡ first_of kind (inner_elements (view_placed at.now)) }
    ensures may_stand { IfSome result (λ part. MayStand G.table (view_placed part)) }
    ensures kind { IfSome result (λ part. part.element.kind ≡ kind) }
{
    let mut elements = Elements::at(at.inside, at.element.body);
    while let Some(item) = elements.next() {
        if let Ok(part) = item {
            if part.element.kind == kind {
                return Some(part);
            }
        }
    }
    None
}
