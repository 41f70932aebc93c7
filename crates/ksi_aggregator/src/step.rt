ghost use Rattle.std.specs.Prelude.{◌≡◌, [], None};

use crate::fact::Fact;
use ksi_aggtree::Item;
use ksi_signature::{Above, Answer, Sends};
use std::alloc::Global;

/// What an aggregator sends, for the second of the call.
#[derive(Drop)]
pub enum Send {
    /// The item that the tree of its round is submitted as, to its parent.
    Submission(Item),
    /// The path above an item, to the aggregator of this number, which submitted it.
    Response(u32, Above),
}

/// What came of a call: its answer, what is to be stored for good, and what is to be sent once it is stored.
#[derive(Drop)]
pub struct Step {
    pub answer: Answer,
    pub fact: Option<Fact>,
    pub sends: Sends<Send>,
}

impl Step {
    /// An answer, with nothing to store or to send.
    pub fn without_sends(alloc: Global, answer: Answer) -> Self
        ensures answer { result.answer ≡ answer }
        ensures fact { result.fact ≡ None }
        ensures sends { result.sends ≡ [] }
    {
        Step {
            answer,
            fact: None,
            sends: Sends::from_vec(Vec::new(alloc)),
        }
    }
}
