// The lines that say who votes, word by word.
ghost use Rattle.std.specs.Prelude.{◌≡◌, ◌<◌, IfOk};
ghost use Rattle.ksi_schedule.specs.Words.{core_actor, looks_like, behind_letter};
ghost use Rattle.ksi_schedule.specs.Members.{name_cores, with_core, rising_from, second_and_cores, rising_at, AreSaid};
ghost use Rattle.ksi_schedule.specs.Reading.{words_left};
ghost use Rattle.std.specs.Prelude.{Some, []};

use crate::cut::{Words, cut};
use crate::fault::LineFault;
use crate::plan::Plan;
use crate::word::{core, second};
use ksi_synod::Voters;

// A second, and who votes from it on, where these rise; or the first fault of the line's words.
pub(crate) fn members(plan: &Plan, words: Words<'_>) -> Result<(u64, Option<Voters>), LineFault>
    ensures value { result ≡ rising_at plan.now (words_left words.entry) }
    ensures there { IfOk result (AreSaid plan.now) }
{
    let Some(words) = words else {
        return Err(LineFault::Word)
    };
    let (word, cores) = cut(b' ', words);
    if !name_cores(cores) {
        return Err(LineFault::Word);
    }
    second_and_cores(plan, word, cores)
}

fn second_and_cores(
    plan: &Plan,
    word: &[u8],
    cores: Words<'_>,
) -> Result<(u64, Option<Voters>), LineFault>
    ensures { result ≡ second_and_cores plan.now word.now (words_left cores.entry) }
{
    Ok((second(plan, word)?, rising(plan, cores)?))
}

// Whether they are one or more, each of the form of a core's.
fn name_cores(words: Words<'_>) -> bool
    ensures { result ≡ name_cores (words_left words.entry) }
{
    if words.is_none() {
        return false;
    }
    let mut rest = words;
    'words: while let Some(words) = rest {
        let (word, others) = cut(b' ', words);
        if !names_core(word) {
            return false;
        }
        rest = others;
    }
    true
}

fn names_core(word: &[u8]) -> bool
    ensures { result ≡ looks_like core_actor word.now }
{
    match word {
        [letter, ..] => *letter == b'c',
        [] => false,
    }
}

// The cores of the words, where they rise, or the first fault.
fn rising(plan: &Plan, words: Words<'_>) -> Result<Option<Voters>, LineFault>
    ensures { result ≡ rising_from plan.now (Some []) (words_left words.entry) }
{
    let mut voters = Some(Voters::none());
    let mut rest = words;
    'words: while let Some(words) = rest {
        let (word, others) = cut(b' ', words);
        let core = core(plan, behind_letter(word))?;
        voters = with_core(voters, core);
        rest = others;
    }
    Ok(voters)
}

fn behind_letter(word: &[u8]) -> &[u8]
    ensures { result.now ≡ behind_letter word.now }
{
    match word {
        [_, rest @ ..] => rest,
        [] => word,
    }
}

// The voters so far, while they rise, and a core more.
fn with_core(voters: Option<Voters>, core: u8) -> Option<Voters>
    requires { core < 9 }
    ensures { result ≡ with_core voters core }
{
    let voters = voters?;
    if voters.are_below(core) {
        Some(voters.with(core))
    } else {
        None
    }
}
