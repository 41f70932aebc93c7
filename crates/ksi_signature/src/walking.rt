//! One walk over the elements of an accepted chain.

ghost use Rattle.std.specs.Prelude.{◌≡◌, ◌+◌, ◌<◌, ◌^◌, Ok, length};
ghost use Rattle.ksi_tlv.specs.Views.{view_placed};
ghost use Rattle.ksi_tlv.specs.Containing.{inner_verdict};
ghost use Rattle.ksi_tlv.specs.Valid.{MayStand};
ghost use Rattle.ksi_signature.specs.Tables.{chain_table};
ghost use Rattle.ksi_signature.specs.Contents.{chain_in};
ghost use Rattle.ksi_signature.specs.Heads.{head_of, head_with};
ghost use Rattle.ksi_signature.specs.HeadViews.{view_head};

use crate::contents::{number_of, time_of};
use crate::head::Head;
use crate::kinds::{AGGREGATION_TIME, INDEX_PART, INPUT_DATA, INPUT_HASH};
use ksi_tlv::grammar::laws::inside_is_whole;
use ksi_tlv::{Elements, Placed};

/// All of an accepted chain but its index and its links.
pub(crate) fn head_in<'a>(at: &Placed<'a>) -> Head<'a>
    requires { inner_verdict chain_table (view_placed at.now) ≡ Ok tt }
    ensures { view_head result ≡ head_of (chain_in (view_placed at.now)) }
{
    inside_is_whole();
    let mut head = Head {
        time: 0,
        parts: 0,
        last: 0,
        input_body: None,
        input: &[],
    };
    let mut elements = Elements::at(at.inside, at.element.body);
    while let Some(item) = elements.next() {
        if let Ok(part) = item {
            head.put(&part);
        }
    }
    head
}

impl<'a> Head<'a> {
    /// Takes what one element says.
    fn put(&mut self, part: &Placed<'a>)
        requires may_stand { MayStand chain_table (view_placed part.now) }
        requires few { self.old.parts + 1 < 2 ^ 64 }
        ensures { view_head self.new ≡ head_with (view_head self.old) (view_placed part.now) }
    {
        match part.element.kind {
            AGGREGATION_TIME => self.time = time_of(part),
            INDEX_PART => {
                self.parts += 1;
                self.last = number_of(part);
            }
            INPUT_DATA => self.input_body = Some(part.element.body),
            INPUT_HASH => self.input = part.element.body,
            _ => (),
        }
    }
}
