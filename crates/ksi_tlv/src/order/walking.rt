ghost use Rattle.std.specs.Prelude.{◌≡◌, ◌+◌, ◌^◌, ◌<◌, Err, length};
ghost use Rattle.ksi_tlv.specs.Walking.{PlacedTlv, elements};
ghost use Rattle.ksi_tlv.specs.Views.{view_placed, view_item};
ghost use Rattle.ksi_imprint.specs.declared.refused.Refused.TheVariants as refused;
ghost use Rattle.ksi_tlv.specs.Sequence.{IsWanting, Tells, WantsAt};
ghost use Rattle.ksi_tlv.specs.Order.{Order, may_stand, walked, one_more, Steps};

use crate::order::fault::OrderFault;
use crate::{Elements, Placed, TlvFault};
use ksi_imprint::Refused;

/// The value of the elements so far, and which may follow them. `F` has the faults that the elements can have.
pub trait Ordered<F> {
    ghost order: { Order Self F };

    /// What is known of an element for which memory ran out, behind what the state says.
    ghost wants: { Self → PlacedTlv → Type 0 };

    /// Whether an element of the kind may stand next.
    fn may_stand(&self, kind: u16) -> bool
        ensures { result ≡ may_stand (order.next self.now) kind };

    /// Whether nothing may follow.
    fn is_closed(&self) -> bool
        ensures { result ≡ order.closed self.now };

    /// Whether the sequence may end here.
    fn is_whole(&self) -> bool
        ensures { result ≡ order.whole self.now };

    /// What a fault of order is called.
    fn named(fault: OrderFault) -> F
        ensures { result ≡ order.named fault };

    /// One element more, of a kind that is allowed there.
    fn take(&mut self, at: &Placed<'_>) -> Result<(), Refused<F>>
        ensures read { Steps (order.read self.old (view_placed at.now)) self.new result }
        ensures wanting { result ≡ Err refused.NoMemory → wants self.old (view_placed at.now) };
}

/// Reads the elements of bytes, whose first byte is at a place, one after the other.
pub fn walk<F, S: Ordered<F>>(state: &mut S, place: usize, bytes: &[u8]) -> Result<(), Refused<F>>
    requires { place + length bytes.now < 2 ^ 64 }
    // Whole elements in their order lead to the new state, or the first fault stands there.
    ensures told { Tells S.order (place + length bytes.now) (elements place bytes.now) state.old state.new result }
    ensures exact { Steps (walked S.order (place + length bytes.now) (elements place bytes.now) state.old) state.new result }
    // Memory ran out for an element before which there is no fault.
    ensures wanting { result ≡ Err refused.NoMemory → IsWanting S.order S.wants (elements place bytes.now) state.old }
{
    go(state, place, bytes)
}

#[tactic(auto, unfolding(crate::specs::Order::walked))]
fn go<F, S: Ordered<F>>(state: &mut S, place: usize, bytes: &[u8]) -> Result<(), Refused<F>>
    requires { place + length bytes.now < 2 ^ 64 }
    ensures exact { Steps (walked S.order (place + length bytes.now) (elements place bytes.now) state.old) state.new result }
    ensures wanting { result ≡ Err refused.NoMemory → IsWanting S.order S.wants (elements place bytes.now) state.old }
{
    let end = place + bytes.len();
    let mut elements = Elements::at(place, bytes);
    'walking: while let Some(item) = elements.next() {
        if let Err(refused) = step(state, item) {
            return Err(refused);
        }
    }
    if state.is_whole() {
        Ok(())
    } else {
        Err(Refused::Fault(S::named(OrderFault::Ends(end))))
    }
}

/// One element more, or its fault.
#[tactic(auto, unfolding(crate::specs::Order::one_more))]
fn step<F, S: Ordered<F>>(
    state: &mut S,
    item: Result<Placed<'_>, (usize, TlvFault)>,
) -> Result<(), Refused<F>>
    ensures exact { Steps (one_more S.order (view_item item.entry) state.old) state.new result }
    ensures wanting { result ≡ Err refused.NoMemory → WantsAt S.order S.wants (view_item item.entry) state.old }
{
    match item {
        Ok(at) => {
            if state.is_closed() {
                return Err(Refused::Fault(S::named(OrderFault::Ends(at.place))));
            }
            if !state.may_stand(at.element.kind) {
                return Err(Refused::Fault(S::named(OrderFault::Order(at.place))));
            }
            state.take(&at)
        }
        Err((cut, _)) => {
            if state.is_closed() {
                return Err(Refused::Fault(S::named(OrderFault::Ends(cut))));
            }
            Err(Refused::Fault(S::named(OrderFault::Tlv(cut))))
        }
    }
}
