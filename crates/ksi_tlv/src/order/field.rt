ghost use Rattle.std.specs.Prelude.{◌≡◌, ◌+◌, ◌<◌, ◌^◌};
ghost use Rattle.ksi_tlv.specs.Views.{view_placed};
ghost use Rattle.ksi_tlv.specs.Fields.{inside, done};
ghost use Rattle.ksi_tlv.specs.Left.{left, IsField};

use crate::order::fault::OrderFault;
use crate::{Elements, Placed};

/// The elements inside an element, each of which must be in its place.
#[derive(Drop)]
pub struct Fields<'a> {
    elements: Elements<'a>,
    end: usize,
}

impl<'a> Fields<'a> {
    /// Those of an element, of which none is read yet.
    pub fn new(at: &Placed<'a>) -> Self
        ensures { left result ≡ inside (view_placed at.now) }
    {
        Fields {
            elements: Elements::at(at.inside, at.element.body),
            end: at.inside + at.element.body.len(),
        }
    }

    /// The next element, which must be of this kind.
    #[tactic(auto, unfolding(crate::specs::Fields::field))]
    pub fn next(&mut self, kind: u16) -> Result<Placed<'a>, OrderFault>
        ensures { IsField kind (left self.old) (left self.new) result }
    {
        match self.elements.next() {
            None => Err(OrderFault::Ends(self.end)),
            Some(Err((cut, _))) => Err(OrderFault::Tlv(cut)),
            Some(Ok(at)) => {
                if at.element.kind == kind {
                    Ok(at)
                } else {
                    Err(OrderFault::Order(at.place))
                }
            }
        }
    }

    /// Nothing may follow the last one.
    #[tactic(auto, unfolding(crate::specs::Fields::done))]
    pub fn done(mut self) -> Result<(), OrderFault>
        ensures { result ≡ done (left self.entry) }
    {
        match self.elements.next() {
            None => Ok(()),
            Some(Err((cut, _))) => Err(OrderFault::Tlv(cut)),
            Some(Ok(at)) => Err(OrderFault::Order(at.place)),
        }
    }
}
