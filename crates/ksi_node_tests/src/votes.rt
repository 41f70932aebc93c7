//! One core's part in the vote, and its last ballot.
use crate::printed::{put_some, put_vote};
use crate::same::same;
use crate::steps::put_step;
use crate::text::Text;
use ksi_corenode::{Core, CorePlan};
use ksi_imprint::{Compress, Imprint, Sha};
use ksi_synod::{Begun, Instance, LastVote, SynodMessage, Took, Voters};
use std::alloc::Global;

const T: u64 = 1_700_000_000;

fn put_begun(text: &mut Text, begun: Begun) {
    match begun {
        Begun::Unsealed => text.word("unsealed"),
        Begun::Last => text.word("last"),
        Begun::Next(ballot) => text.number("next ", ballot),
    }
    text.end();
}

fn put_took(text: &mut Text, took: Took) {
    match took {
        Took::Nothing => text.word("nothing"),
        Took::Added => text.word("added"),
        Took::Decree(decree) => text.imprint(&decree),
    }
}

fn put_last(text: &mut Text, last: &Option<LastVote>) {
    if let Some(last) = last {
        text.number("promises ", last.ballot);
        put_vote(text, &last.vote);
    }
}

/// The ballots that were tried and promised, the vote that was cast, and what is held.
fn put_ballots(text: &mut Text, vote: &Instance) {
    text.number("tried ", vote.tried().unwrap_or(0));
    text.number("promised ", vote.promised().unwrap_or(0));
    put_vote(text, &vote.voted());
    put_some(text, vote.held());
    text.end();
}

/// The LastVote and the Voted of each core in a ballot, of which core 1 alone votes.
fn count(text: &mut Text, vote: &mut Instance) {
    for from in [0, 2, 1] {
        put_took(text, vote.on_last(from, 16, None));
    }
    for from in [0, 1] {
        put_took(text, vote.on_voted(from, 16));
    }
    put_ballots(text, vote);
}

/// A vote in a ballot, and a ballot of the last round behind it.
fn promise(text: &mut Text, vote: &mut Instance, decree: Imprint) {
    put_last(text, &vote.on_next(16));
    text.number("votes ", u64::from(vote.on_begin(16, decree)));
    put_last(text, &vote.on_next(68_719_476_721));
    put_ballots(text, vote);
    put_begun(text, vote.try_ballot());
}

fn put_members(text: &mut Text, voters: Voters) {
    text.number("2 is one ", u64::from(voters.contains(2)));
    text.number("3 is one ", u64::from(voters.contains(3)));
    text.end();
}

/// The members of three, and a vote in which core 1 alone has a voice.
const ALONE: &str = "2 is one 1 3 is one 0
unsealed
next 16
nothing nothing A nothing A tried 16 promised 0 - A
promises 16 - votes 1 promises 68719476721 in 16 B tried 16 promised 68719476721 in 16 B A
last";

fn put_alone(text: &mut Text, vote: &mut Instance) {
    put_members(text, Voters::all(3));
    put_begun(text, vote.try_ballot());
    if vote.sealed().is_none() {
        vote.candidate(Sha::of(b""));
    }
    put_begun(text, vote.try_ballot());
    count(text, vote);
    promise(text, vote, Sha::of(b"abc"));
}

#[test]
fn voters_alone_count(rt: HostRuntime) {
    let mut text = Text::new(rt.alloc());
    put_alone(&mut text, &mut Instance::new(0, Voters::none().with(1)));
    same(&rt, "core 1 alone", text.as_str().trim_end(), ALONE);
}

/// A promise of a ballot of the last round.
const LAST: &str = "done stores T
done / c1 last 68719476721 - stores T promised 68719476721
last";

/// A core seals, promises the last ballot of another one, and tries a ballot.
fn put_last_round(text: &mut Text, alloc: Global) {
    let mut core = Core::<Sha>::new(alloc, 0, &CorePlan::new(3, T));
    let next = SynodMessage::NextBallot(68_719_476_721);
    put_step(text, &core.seal(T));
    put_step(text, &core.receive(1, T, &next));
    put_step(text, &core.ballot(T));
}

#[test]
fn no_ballot_is_behind_the_last_round(rt: HostRuntime) {
    let mut text = Text::new(rt.alloc());
    put_last_round(&mut text, rt.alloc());
    same(&rt, "core 0", text.as_str().trim_end(), LAST);
}
