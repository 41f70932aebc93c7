//! What comes of a message of the vote.
ghost use Rattle.std.specs.Prelude.{◌≡◌, ◌<◌, is_some, None};
ghost use Rattle.ksi_synod.specs.Rows.{promise_told, decree_begun, vote_told, decree_told, receive, OfBallot};
ghost use Rattle.ksi_corenode.specs.Rows.{counts, is_news, news_answer, receive_fact, where_news, decided_fact};

use crate::fact::What;
use ksi_imprint::Imprint;
use ksi_signature::Answer;
use ksi_synod::{Instance, LastVote, SynodMessage, Took, Vote};

/// Takes a message by its step, and says whether it changed anything.
#[tactic(auto, unfolding(ksi_synod::specs::Rows::receive))]
pub(crate) fn receive(
    vote: &mut Instance,
    from: u8,
    message: &SynodMessage,
) -> (Answer, Option<What>, Option<SynodMessage>)
    requires member { from < 9 }
    requires ballot { OfBallot message.now }
    ensures after { vote.new ≡ (receive vote.old from message.now).0 }
    ensures answer { result.0 ≡ news_answer (is_news vote.old from message.now) }
    ensures fact { result.1 ≡ receive_fact vote.old from message.now }
    ensures sends { result.2 ≡ (receive vote.old from message.now).1 }
{
    match *message {
        SynodMessage::NextBallot(ballot) => promised(ballot, vote.on_next(ballot)),
        SynodMessage::LastVote(last) => {
            begun(last.ballot, vote.on_last(from, last.ballot, last.vote))
        }
        SynodMessage::BeginBallot(ballot, decree) => {
            voted(ballot, decree, vote.on_begin(ballot, decree))
        }
        SynodMessage::Voted(ballot) => {
            let held = vote.held();
            decided(held, vote.on_voted(from, ballot))
        }
        SynodMessage::Success(decree) => told(decree, vote.on_success(decree)),
    }
}

/// What comes of Success: the root is held where nothing was.
fn told(decree: Imprint, holds: bool) -> (Answer, Option<What>, Option<SynodMessage>)
    ensures answer { result.0 ≡ news_answer holds }
    ensures fact { result.1 ≡ where_news holds (What.Holds decree) }
    ensures sends { result.2 ≡ None }
{
    if holds {
        (Answer::Done, Some(What::Holds(decree)), None)
    } else {
        (Answer::Nothing, None, None)
    }
}

/// What comes of NextBallot: LastVote goes back where the ballot was promised.
fn promised(ballot: u64, last: Option<LastVote>) -> (Answer, Option<What>, Option<SynodMessage>)
    ensures answer { result.0 ≡ news_answer (is_some last) }
    ensures fact { result.1 ≡ where_news (is_some last) (What.Promised ballot) }
    ensures sends { result.2 ≡ promise_told last }
{
    match last {
        Some(last) => (
            Answer::Done,
            Some(What::Promised(ballot)),
            Some(SynodMessage::LastVote(last)),
        ),
        None => (Answer::Nothing, None, None),
    }
}

/// What comes of LastVote: BeginBallot goes out where a majority counts.
fn begun(ballot: u64, took: Took) -> (Answer, Option<What>, Option<SynodMessage>)
    ensures answer { result.0 ≡ news_answer (counts took) }
    ensures fact { result.1 ≡ None }
    ensures sends { result.2 ≡ decree_begun ballot took }
{
    match took {
        Took::Nothing => (Answer::Nothing, None, None),
        Took::Added => (Answer::Done, None, None),
        Took::Decree(decree) => (
            Answer::Done,
            None,
            Some(SynodMessage::BeginBallot(ballot, decree)),
        ),
    }
}

/// What comes of BeginBallot: Voted goes back where this core votes.
fn voted(ballot: u64, decree: Imprint, votes: bool) -> (Answer, Option<What>, Option<SynodMessage>)
    ensures answer { result.0 ≡ news_answer votes }
    ensures fact { result.1 ≡ where_news votes (What.Cast (record { ballot = ballot; imprint = decree })) }
    ensures sends { result.2 ≡ vote_told ballot votes }
{
    if votes {
        (
            Answer::Done,
            Some(What::Cast(Vote {
                ballot,
                imprint: decree,
            })),
            Some(SynodMessage::Voted(ballot)),
        )
    } else {
        (Answer::Nothing, None, None)
    }
}

/// What comes of Voted: Success goes out where a majority counts for the first time, and the root is held where nothing
/// was.
fn decided(held: Option<Imprint>, took: Took) -> (Answer, Option<What>, Option<SynodMessage>)
    ensures answer { result.0 ≡ news_answer (counts took) }
    ensures fact { result.1 ≡ decided_fact held took }
    ensures sends { result.2 ≡ decree_told took }
{
    match took {
        Took::Nothing => (Answer::Nothing, None, None),
        Took::Added => (Answer::Done, None, None),
        Took::Decree(decree) => (
            Answer::Done,
            newly_held(held, decree),
            Some(SynodMessage::Success(decree)),
        ),
    }
}

/// The decree is held where nothing was.
fn newly_held(held: Option<Imprint>, decree: Imprint) -> Option<What>
    ensures { result ≡ decided_fact held (Took.Decree decree) }
{
    match held {
        Some(_) => None,
        None => Some(What::Holds(decree)),
    }
}
