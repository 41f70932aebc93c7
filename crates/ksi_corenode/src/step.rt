ghost use Rattle.std.specs.Prelude.{◌≡◌, [], None};

use crate::fact::Fact;
use ksi_signature::{Above, Answer, Sends};
use ksi_synod::SynodMessage;
use std::alloc::Global;

/// What a core sends, for the second of the call.
#[derive(Drop)]
pub enum Send {
    /// A message of the vote to this core.
    Synod(u8, SynodMessage),
    /// To this aggregator, the path above its item.
    Response(u32, Above),
}

/// What came of a call: its answer, what is to be stored for good, and what is to be sent once it is stored.
#[derive(Drop)]
pub struct Step {
    pub answer: Answer,
    pub fact: Option<Fact>,
    pub sends: Sends<Send>,
}

impl Step {
    /// An answer, with nothing to store or to send.
    pub fn without_sends(alloc: Global, answer: Answer) -> Self
        ensures answer { result.answer ≡ answer }
        ensures fact { result.fact ≡ None }
        ensures sends { result.sends ≡ [] }
    {
        Step {
            answer,
            fact: None,
            sends: Sends::from_vec(Vec::new(alloc)),
        }
    }
}
