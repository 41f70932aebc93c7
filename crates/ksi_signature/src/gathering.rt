//! The aggregation chains of an accepted signature.

ghost use Rattle.std.specs.Prelude.{◌≡◌, ◌∷◌, [], Ok};
ghost use Rattle.std.specs.List.{AllByRecursion};
ghost use Rattle.ksi_tlv.specs.Views.{view_placed, rest};
ghost use Rattle.ksi_tlv.specs.Containing.{inner_verdict};
ghost use Rattle.ksi_tlv.specs.Valid.{MayStand};
ghost use Rattle.ksi_tlv.specs.Inside.{inner_elements, whole};
ghost use Rattle.ksi_signature.specs.Tables.{signature_table};
ghost use Rattle.ksi_signature.specs.Contents.{chains_behind};
ghost use Rattle.ksi_signature.specs.Gathered.{BeginsChains};

use crate::chain_list::ChainList;
use crate::chain_view::ChainView;
use crate::kinds::CHAIN;
use ksi_tlv::grammar::laws::inside_is_whole;
use ksi_tlv::{Elements, Placed};

pub(crate) fn chains_in<'a>(at: &Placed<'a>) -> ChainList<'a>
    requires { inner_verdict signature_table (view_placed at.now) ≡ Ok tt }
    ensures { result ≡ chains_behind [] (inner_elements (view_placed at.now)) }
{
    inside_is_whole();
    let mut elements = Elements::at(at.inside, at.element.body);
    let Some(first) = first_chain(&mut elements) else {
        unreachable!()
    };
    let mut chains = ChainList::of(first);
    while let Some(item) = elements.next() {
        if let Ok(part) = item {
            if part.element.kind == CHAIN {
                chains.put(ChainView::new(&part));
            }
        }
    }
    chains
}

/// The first chain of the elements that are left, and what follows it.
fn first_chain<'a>(elements: &mut Elements<'a>) -> Option<ChainView<'a>>
    requires { AllByRecursion (MayStand signature_table) (whole (rest elements.old)) }
    ensures chain { BeginsChains (whole (rest elements.old)) result (whole (rest elements.new)) }
    ensures stand { AllByRecursion (MayStand signature_table) (whole (rest elements.new)) }
{
    while let Some(item) = elements.next() {
        if let Ok(part) = item {
            if part.element.kind == CHAIN {
                return Some(ChainView::new(&part));
            }
        }
    }
    None
}
