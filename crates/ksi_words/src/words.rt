// The words of a command line.
ghost use Rattle.std.specs.Prelude.{◌≡◌, ℕ, IfOk, map, string_bytes};
ghost use Rattle.std.specs.List.{list_any};
ghost use Rattle.ksi_words.specs.Grammar.{refusal_of};
ghost use Rattle.ksi_words.specs.Words.{Reads, begins_with_dash, texts, command_named, command_of, table, IsEarly};

use crate::grammar::grammar;
use crate::table::{TABLE, asked};
use crate::{Command, WordsRefusal};
use clap::error::ErrorKind;
use ksi_imprint::Refused;
use std::alloc::Global;

/// The command that the words ask for, if the first is the command's name, as many follow as its row of the table shows,
/// and none begins with a dash. Its file words are borrowed from `words`.
///
/// Unless memory runs out, the fault `Words` occurs exactly if they have no such form, and `BadWord(n)` exactly if they
/// have and word `n` after the name is the first that should be a number, hash or seed and is none. Each second that is
/// asked for is below 2^63.
pub fn command<'a>(alloc: Global, words: &'a [String]) -> Result<Command<'a>, Refused<WordsRefusal>>
    ensures reads { Reads (command_of (texts words.now)) result }
    ensures early { IfOk result IsEarly }
{
    // `clap` would take a dash for an option.
    if has_dash(words) {
        return Err(Refused::Fault(WordsRefusal::Words));
    }
    let Ok(grammar) = grammar(alloc, TABLE.as_slice()) else {
        return Err(Refused::NoMemory);
    };
    let matches = match grammar.try_get_matches_from(words) {
        Ok(matches) => matches,
        Err(error) => return Err(refusal(error.kind())),
    };
    let Some((name, matches)) = matches.subcommand() else {
        return Err(Refused::Fault(WordsRefusal::Words));
    };
    let Some(words) = matches.get_raw("words") else {
        return Err(Refused::Fault(WordsRefusal::Words));
    };
    by_name(name, words)
}

// By the command's name.
fn by_name<'a>(name: &str, words: &[&'a str]) -> Result<Command<'a>, Refused<WordsRefusal>>
    ensures reads { Reads (command_named table name.now (map (λ word. word.now) words.now)) result }
    ensures early { IfOk result IsEarly }
{
    match asked(name, words) {
        Ok(command) => Ok(command),
        Err(refusal) => Err(Refused::Fault(refusal)),
    }
}

// Why `clap` refuses words of which none begins with a dash.
fn refusal(kind: ErrorKind) -> Refused<WordsRefusal>
    ensures { result ≡ refusal_of kind }
{
    match kind {
        ErrorKind::OutOfMemory => Refused::NoMemory,
        _ => Refused::Fault(WordsRefusal::Words),
    }
}

fn has_dash(words: &[String]) -> bool
    ensures { result ≡ list_any (λ word. begins_with_dash (string_bytes word)) words.now }
{
    words.iter().any(|word| begins_with_dash(word.as_str()))
}

fn begins_with_dash(word: &str) -> bool
    ensures { result ≡ begins_with_dash word.now }
{
    match word.as_bytes() {
        [first, ..] => *first == b'-',
        [] => false,
    }
}
