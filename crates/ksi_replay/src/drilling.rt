// The drill of a number, and what it counts.
ghost use Rattle.std.specs.Prelude.{◌≡◌, ◌<◌, ◌^◌, Some, IfOk, map};
ghost use Rattle.ksi_imprint.specs.Imprints.{imprint_of};
ghost use Rattle.ksi_replay.specs.Journals.{journal_of};
ghost use Rattle.ksi_replay.specs.Covered.{greatest_covered, published};
ghost use Rattle.ksi_replay.specs.Drill.{count, drilled, is_missed, tally_of, tally_with};
ghost use Rattle.ksi_replay.specs.Trials.{trial, trials};

use crate::covered::{greatest_covered, published};
use crate::joining::{all_are_accepted, follows_the_rules};
use crate::tally::Tally;
use crate::trial::Trial;
use crate::trials::trial;
use crate::{generate, journal_of, replay};
use ksi_imprint::{NoMemory, Sha};
use ksi_journal::{Journal, Second};
use ksi_world::{Asked, World};
use std::alloc::Global;

/// Makes the schedule of a number, runs it, and puts every issued signature to the test: it is extended to the greatest
/// covered second, and is then checked and audited against the root of that second, for the imprint of its request.
///
/// # Errors
/// `NoMemory`.
#[tactic(auto, unfolding(crate::specs::Drill::drilled))]
pub fn drill(alloc: Global, number: u64) -> Result<Tally, NoMemory>
    ensures tally { IfOk result (λ tally. tally ≡ drilled number) }
    ensures accepted { IfOk result (λ tally. tally.accepted ≡ tally.issued) }
{
    let schedule = generate(alloc, number)?;
    let world = replay::<Sha>(alloc, schedule)?;
    let journal = journal_of(alloc, &world)?;
    tally(alloc, &world, &journal)
}

/// What is counted over the journal of a world.
fn tally(alloc: Global, world: &World<Sha>, journal: &Journal<Sha>) -> Result<Tally, NoMemory>
    requires { journal.now ≡ journal_of imprint_of world.now }
    ensures tally { IfOk result (λ tally. tally ≡ tally_of imprint_of world.now journal.now) }
    ensures accepted { IfOk result (λ tally. tally.accepted ≡ tally.issued) }
{
    follows_the_rules(world);
    all_are_accepted();
    let trials = trials(alloc, world.requests(), journal)?;
    Ok(counted(journal, trials.as_slice()))
}

fn counted(journal: &Journal<Sha>, trials: &[Trial]) -> Tally
    ensures { result ≡ tally_with journal.now trials.now }
{
    Tally {
        seconds: journal.seconds().len() as u64,
        missed: missed(journal.seconds()),
        issued: journal.issued().len() as u64,
        accepted: accepted(trials),
        inside: inside(trials),
        beneath: beneath(trials),
    }
}

/// The trials of all issued signatures, none where no second is covered.
fn trials(alloc: Global, requests: &[Asked], journal: &Journal<Sha>) -> Result<Vec<Trial>, NoMemory>
    ensures { IfOk result (λ found. found.items ≡ trials imprint_of requests.now journal.now (greatest_covered journal.now)) }
{
    match greatest_covered(journal) {
        Some(p) => trials_at(alloc, requests, journal, p),
        None => Ok(Vec::new(alloc)),
    }
}

/// The trials of all issued signatures against the root of the greatest covered second.
fn trials_at(
    alloc: Global,
    requests: &[Asked],
    journal: &Journal<Sha>,
    p: u64,
) -> Result<Vec<Trial>, NoMemory>
    requires early { p < 2 ^ 63 }
    requires greatest { greatest_covered journal.now ≡ Some p }
    ensures { IfOk result (λ found. found.items ≡ map (trial imprint_of requests.now journal.now p) journal.now.issued) }
{
    let publications = published(alloc, journal, p)?;
    let all = journal.issued();
    let mut found = Vec::with_capacity(alloc, all.len())?;
    'trials: for issued in all {
        found.push(trial(alloc, requests, journal, p, &publications, issued)?)?;
    }
    Ok(found)
}

fn missed(seconds: &[Second]) -> u64
    ensures { result ≡ count is_missed seconds.now }
{
    seconds.iter().filter(|kept| kept.root.is_zero()).count() as u64
}

fn accepted(trials: &[Trial]) -> u64
    ensures { result ≡ count (λ trial. trial.accepted) trials.now }
{
    trials.iter().filter(|trial| trial.accepted).count() as u64
}

fn inside(trials: &[Trial]) -> u64
    ensures { result ≡ count (λ trial. trial.inside) trials.now }
{
    trials.iter().filter(|trial| trial.inside).count() as u64
}

fn beneath(trials: &[Trial]) -> u64
    ensures { result ≡ count (λ trial. trial.beneath) trials.now }
{
    trials.iter().filter(|trial| trial.beneath).count() as u64
}
