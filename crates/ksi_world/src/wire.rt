ghost use Rattle.std.specs.Prelude.{◌≡◌, [], length, option_map, slice_get};
ghost use Rattle.ksi_world.specs.Messages.{lent_message};

use crate::message::LentMessage;
use crate::posted::Posted;
use std::alloc::Global;
use std::marker::Model;

/// All messages ever sent. The number of a message is its place. A contract sees their list.
///
/// What goes to several at once is stored once, and a response that a core sends again is not stored again.
#[derive(Drop)]
pub struct Wire {
    pub(crate) posted: Posted,
}

impl Model for Wire {
    ghost use Rattle.std.specs.Prelude.{List};
    ghost use Rattle.ksi_world.specs.declared.message.Message.{Message};

    ghost Value = { List Message };

    ghost view = { λ wire. wire.posted.messages };
}

impl Wire {
    pub(crate) fn new(alloc: Global) -> Self
        ensures { result ≡ [] }
    {
        Wire {
            posted: Posted::new(alloc),
        }
    }

    /// How many messages were sent.
    pub fn len(&self) -> usize
        ensures { result ≡ length self.now }
    {
        self.posted.len()
    }

    /// The message of a number; none where no message has it.
    pub fn get(&self, number: usize) -> Option<LentMessage<'_>>
        ensures { option_map lent_message result ≡ slice_get self.now number }
    {
        self.posted.get(number)
    }
}
