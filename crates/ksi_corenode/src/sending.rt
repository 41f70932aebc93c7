//! To whom a message of the vote goes.
ghost use Rattle.std.specs.Prelude.{◌≡◌, ◌<◌, ◌≤◌, ◌+◌, ◌++◌, ◌∷◌, [], vec_len, vec_capacity};
ghost use Rattle.ksi_synod.specs.Voters.{cores_below};
ghost use Rattle.ksi_synod.specs.CorePlans.{AreVoters};
ghost use Rattle.ksi_corenode.specs.Turns.{to_each, told};

use crate::step::Send;
use ksi_synod::laws::voters_are_cores;
use ksi_synod::{CorePlan, SynodMessage, Voters};

/// Appends one copy of the message for each of the `cores` cores, in order.
pub(crate) fn push_all(cores: u8, message: &SynodMessage, sends: &mut Vec<Send>)
    requires room { vec_len sends.old + cores ≤ vec_capacity sends.old }
    ensures { sends.new.items ≡ sends.old.items ++ to_each (cores_below cores) message.now }
{
    for core in 0..cores {
        put(sends, core, message);
    }
}

/// Appends one copy of the message for each voter, in order. All voters are among the first `cores` cores.
fn push_voters(cores: u8, voters: &Voters, message: &SynodMessage, sends: &mut Vec<Send>)
    requires cores { AreVoters cores voters.now }
    requires room { vec_len sends.old + cores ≤ vec_capacity sends.old }
    ensures { sends.new.items ≡ sends.old.items ++ to_each voters.now message.now }
{
    voters_are_cores();
    for core in 0..cores {
        if voters.contains(core) {
            put(sends, core, message);
        }
    }
}

/// A message to whom it goes, where there is room.
pub(crate) fn push_told(
    plan: &CorePlan,
    second: u64,
    from: u8,
    reply: &Option<SynodMessage>,
    sends: &mut Vec<Send>,
)
    requires room { vec_len sends.old + plan.now.cores ≤ vec_capacity sends.old }
    ensures { sends.new.items ≡ sends.old.items ++ told plan.now second from reply.now }
{
    let Some(message) = reply else {
        return;
    };
    let cores = plan.cores();
    match message {
        SynodMessage::LastVote(_) | SynodMessage::Voted(_) => put(sends, from, message),
        SynodMessage::NextBallot(_) | SynodMessage::BeginBallot(_, _) => {
            push_voters(cores, &plan.voters_of(second), message, sends);
        }
        SynodMessage::Success(_) => push_all(cores, message, sends),
    }
}

/// Puts a message to a core behind the others, where there is room.
fn put(sends: &mut Vec<Send>, core: u8, message: &SynodMessage)
    requires { vec_len sends.old < vec_capacity sends.old }
    ensures items { sends.new.items ≡ sends.old.items ++ Send.Synod core message.now ∷ [] }
    ensures room { vec_capacity sends.old ≤ vec_capacity sends.new }
    ensures len { vec_len sends.new ≡ vec_len sends.old + 1 }
{
    sends.push_reserved(Send::Synod(core, *message));
}
