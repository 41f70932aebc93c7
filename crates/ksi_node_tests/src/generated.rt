//! Events of a core by numbers of a stream.
ghost use Rattle.std.specs.Prelude.{◌≡◌, ◌<◌, ◌≤◌, ◌^◌};
ghost use Rattle.ksi_aggtree.specs.Rounds.{leaf_level};
ghost use Rattle.ksi_synod.specs.Ballots.{IsBallot};
ghost use Rattle.ksi_synod.specs.Rows.{OfBallot};
ghost use Rattle.ksi_corenode.specs.CoreState.{CoreState};
ghost use Rattle.ksi_corenode.specs.Events.{MayTake};

use ksi_aggtree::{Item, Name};
use ksi_corenode::CoreEvent;
use ksi_imprint::{Compress, Imprint, Sha};
use ksi_synod::{LastVote, SynodMessage, Vote};

/// The next number of a stream.
pub(crate) fn next(n: u64) -> u64 {
    n.wrapping_mul(6_364_136_223_846_793_005)
        .wrapping_add(1_442_695_040_888_963_407)
}

/// A number as a ballot.
fn as_ballot(n: u64) -> u64
    ensures { IsBallot result }
{
    if 16 <= n && n < 68_719_476_736 { n } else { 16 }
}

/// A ballot: one of the two that were tried and promised, the next one of some core, or one of rounds 1 to 3.
fn ballot(near: [u64; 2], n: u64) -> u64
    ensures { IsBallot result }
{
    let [tried, promised] = near;
    match n % 8 {
        0 | 1 | 2 => as_ballot(tried),
        3 | 4 => as_ballot(promised),
        5 => as_ballot(16 * (tried.max(promised) / 16).min(1_000_000) + 16 + n / 8 % 3),
        _ => 16 * (1 + n / 8 % 3) + n / 24 % 3,
    }
}

fn cast(near: [u64; 2], n: u64) -> Option<Vote> {
    if n % 4 == 0 {
        Some(Vote {
            ballot: ballot(near, n / 4),
            imprint: Sha::of(&[(n / 16 % 2) as u8]),
        })
    } else {
        None
    }
}

/// A message of the vote, where these ballots were tried and promised.
fn message(near: [u64; 2], n: u64) -> SynodMessage
    ensures { OfBallot result }
{
    let named = ballot(near, n / 32);
    let decree = Sha::of(&[(n / 512 % 2) as u8]);
    match n % 32 {
        0 | 1 | 2 | 3 | 4 => SynodMessage::NextBallot(named),
        5 | 6 | 7 | 8 | 9 | 10 | 11 | 12 | 13 => SynodMessage::LastVote(LastVote {
            ballot: named,
            vote: cast(near, n / 1024),
        }),
        14 | 15 | 16 | 17 | 18 => SynodMessage::BeginBallot(named, decree),
        31 => SynodMessage::Success(decree),
        _ => SynodMessage::Voted(named),
    }
}

/// An item of level 0, every other one with a name.
fn item(n: u64) -> Item
    ensures { leaf_level result ≤ 239 }
{
    let name: &[u8] = if n % 2 == 0 { b"bob" } else { b"" };
    Item::new(Sha::of(&[(n / 2 % 4) as u8]), 0).with_name(Name::read(name))
}

/// An event of any kind for a second, and one that asks only from the start on; now and then this decree is told.
pub(crate) fn event(t: u64, decree: Imprint, n: u64) -> CoreEvent
    requires { t < 2 ^ 63 }
    ensures { (core : CoreState) → core.start ≡ 1700000000 → MayTake core result }
{
    let asked = t.max(1_700_000_000);
    match n % 16 {
        0 => CoreEvent::Respond(asked),
        1 => CoreEvent::Publish(asked),
        2 | 3 => CoreEvent::Submission((n / 16 % 3) as u32, t, item(n / 64)),
        4 => CoreEvent::Seal(t),
        5 => CoreEvent::Ballot(t),
        6 => CoreEvent::Tell(t),
        7 => CoreEvent::Receive(0, t, SynodMessage::Success(decree)),
        _ => CoreEvent::Receive((n / 16 % 3) as u8, t, message([16, 32], n / 64)),
    }
}
