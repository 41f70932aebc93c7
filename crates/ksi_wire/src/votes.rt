// Messages of the vote.
ghost use Rattle.std.specs.Prelude.{IfOk};
ghost use Rattle.ksi_synod.specs.Ballots.{IsBallot};
ghost use Rattle.ksi_synod.specs.Rows.{OfBallot};
ghost use Rattle.ksi_corenode.specs.Owners.{IsOwned, NamesOwned};
ghost use Rattle.ksi_schedule.specs.Reading.{words_left};
ghost use Rattle.ksi_wire.specs.Asked.{cast_in, vote_in, Reads};

use crate::cursor::{Words, is};
use crate::fault::WireFault;
use crate::parts::ballot;
use ksi_schedule::Plan;
use ksi_synod::{LastVote, SynodMessage, Vote};

/// A message of the vote.
pub(crate) fn vote(plan: &Plan, words: &mut Words<'_>) -> Result<SynodMessage, WireFault>
    ensures read { Reads (vote_in plan.now (words_left words.old.left)) result (words_left words.new.left) }
    ensures ballot { IfOk result OfBallot }
    ensures owned { IfOk result (NamesOwned plan.now.cores) }
{
    let kind = words.next_word()?;
    if is(kind, b"next") {
        Ok(SynodMessage::NextBallot(ballot(plan, words)?))
    } else if is(kind, b"last") {
        let promised = ballot(plan, words)?;
        last_vote(plan, promised, words)
    } else if is(kind, b"begin") {
        let begun = ballot(plan, words)?;
        Ok(SynodMessage::BeginBallot(begun, words.imprint()?))
    } else if is(kind, b"voted") {
        Ok(SynodMessage::Voted(ballot(plan, words)?))
    } else if is(kind, b"success") {
        Ok(SynodMessage::Success(words.imprint()?))
    } else {
        Err(WireFault::Word)
    }
}

/// What a voter last voted for, if anything, behind the ballot of its promise.
fn last_vote(plan: &Plan, promised: u64, words: &mut Words<'_>) -> Result<SynodMessage, WireFault>
    requires ballot { IsBallot promised }
    requires owned { IsOwned plan.now.cores promised }
    ensures read { Reads (cast_in plan.now promised (words_left words.old.left)) result (words_left words.new.left) }
    ensures ballot { IfOk result OfBallot }
    ensures owned { IfOk result (NamesOwned plan.now.cores) }
{
    let vote = if words.is_at_end() {
        None
    } else {
        let cast = ballot(plan, words)?;
        Some(Vote {
            ballot: cast,
            imprint: words.imprint()?,
        })
    };
    Ok(SynodMessage::LastVote(LastVote {
        ballot: promised,
        vote,
    }))
}
