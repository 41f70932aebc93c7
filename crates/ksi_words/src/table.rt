// The commands: a row of the table each, and what the words after its name ask for.
ghost use Rattle.std.specs.Prelude.{◌≡◌, ◌<◌, ◌^◌, ℕ, [], ◌∷◌, IfOk, map};
ghost use Rattle.ksi_schedule.specs.Decimal.{number_of};
ghost use Rattle.ksi_words.specs.Sorts.{hash_of, seed_of, time_of};
ghost use Rattle.ksi_words.specs.Words.{Asks, asked_by, command_named, table, sign_row, extend_row, verify_row, audit_row, make_row, drill_row, front_row, block_row, line_row, locate_row, mirror_row, node_row, word_at};

use crate::values::{hash, number, seed, time};
use crate::{Command, WordsRefusal};
use ksi_imprint::Imprint;

/// A command's name, and how many words follow it.
#[derive(Drop)]
pub(crate) struct CommandForm {
    pub(crate) name: &'static str,
    pub(crate) words: usize,
}

pub(crate) static TABLE: [CommandForm; 20] = [
    CommandForm {
        name: "replay",
        words: 2,
    },
    CommandForm {
        name: "sign",
        words: 3,
    },
    CommandForm {
        name: "publish",
        words: 2,
    },
    CommandForm {
        name: "extend",
        words: 4,
    },
    CommandForm {
        name: "verify",
        words: 3,
    },
    CommandForm {
        name: "audit",
        words: 4,
    },
    CommandForm {
        name: "make",
        words: 2,
    },
    CommandForm {
        name: "drill",
        words: 1,
    },
    CommandForm {
        name: "migrate",
        words: 2,
    },
    CommandForm {
        name: "front",
        words: 4,
    },
    CommandForm {
        name: "compare",
        words: 3,
    },
    CommandForm {
        name: "block",
        words: 2,
    },
    CommandForm {
        name: "line",
        words: 4,
    },
    CommandForm {
        name: "checkline",
        words: 4,
    },
    CommandForm {
        name: "locate",
        words: 4,
    },
    CommandForm {
        name: "merge",
        words: 3,
    },
    CommandForm {
        name: "whole",
        words: 2,
    },
    CommandForm {
        name: "inspect",
        words: 1,
    },
    CommandForm {
        name: "mirror",
        words: 3,
    },
    CommandForm {
        name: "node",
        words: 3,
    },
];

/// The command of a name and the words after it.
pub(crate) fn asked<'a>(name: &str, words: &[&'a str]) -> Result<Command<'a>, WordsRefusal>
    ensures { Asks (command_named table name.now (map (λ word. word.now) words.now)) result }
{
    match words {
        [one] => with_one(name, one),
        [one, two] => with_two(name, one, two),
        [one, two, three] => with_three(name, one, two, three),
        [one, two, three, four] => with_four(name, one, two, three, four),
        _ => Err(WordsRefusal::Words),
    }
}

// The command of a name and one word.
fn with_one<'a>(name: &str, one: &'a str) -> Result<Command<'a>, WordsRefusal>
    ensures { Asks (command_named table name.now (one.now ∷ [])) result }
{
    match name {
        "drill" => drill(one),
        "inspect" => Ok(Command::Inspect(one)),
        _ => Err(WordsRefusal::Words),
    }
}

// The command of a name and two words.
fn with_two<'a>(name: &str, one: &'a str, two: &'a str) -> Result<Command<'a>, WordsRefusal>
    ensures { Asks (command_named table name.now (one.now ∷ two.now ∷ [])) result }
{
    match name {
        "replay" => Ok(Command::Replay(one, two)),
        "publish" => Ok(Command::Publish(one, two)),
        "make" => make(one, two),
        "migrate" => Ok(Command::Migrate(one, two)),
        "block" => block(one, two),
        "whole" => Ok(Command::Whole(one, two)),
        _ => Err(WordsRefusal::Words),
    }
}

// The command of a name and three words.
fn with_three<'a>(
    name: &str,
    one: &'a str,
    two: &'a str,
    three: &'a str,
) -> Result<Command<'a>, WordsRefusal>
    ensures { Asks (command_named table name.now (one.now ∷ two.now ∷ three.now ∷ [])) result }
{
    match name {
        "sign" => sign(one, two, three),
        "verify" => verify(one, two, three),
        "compare" => Ok(Command::Compare(one, two, three)),
        "merge" => Ok(Command::Merge(one, two, three)),
        "mirror" => mirror(one, two, three),
        "node" => node(one, two, three),
        _ => Err(WordsRefusal::Words),
    }
}

// The command of a name and four words.
fn with_four<'a>(
    name: &str,
    one: &'a str,
    two: &'a str,
    three: &'a str,
    four: &'a str,
) -> Result<Command<'a>, WordsRefusal>
    ensures { Asks (command_named table name.now (one.now ∷ two.now ∷ three.now ∷ four.now ∷ [])) result }
{
    match name {
        "extend" => extend(one, two, three, four),
        "audit" => audit(one, two, three, four),
        "front" => front(one, two, three, four),
        "line" => line(one, two, three, four),
        "checkline" => Ok(Command::CheckLine(one, two, three, four)),
        "locate" => locate(one, two, three, four),
        _ => Err(WordsRefusal::Words),
    }
}

fn drill<'a>(number: &str) -> Result<Command<'a>, WordsRefusal>
    ensures { Asks (asked_by drill_row (number.now ∷ [])) result }
{
    Ok(Command::Drill(number_at(1, number)?))
}

fn make<'a>(number: &str, out: &'a str) -> Result<Command<'a>, WordsRefusal>
    ensures { Asks (asked_by make_row (number.now ∷ out.now ∷ [])) result }
{
    Ok(Command::Make(number_at(1, number)?, out))
}

fn block<'a>(log: &'a str, seed: &str) -> Result<Command<'a>, WordsRefusal>
    ensures { Asks (asked_by block_row (log.now ∷ seed.now ∷ [])) result }
{
    Ok(Command::Block(log, seed_at(2, seed)?))
}

fn sign<'a>(journal: &'a str, number: &str, out: &'a str) -> Result<Command<'a>, WordsRefusal>
    ensures { Asks (asked_by sign_row (journal.now ∷ number.now ∷ out.now ∷ [])) result }
{
    Ok(Command::Sign(journal, number_at(2, number)?, out))
}

fn verify<'a>(
    signature: &'a str,
    hash: &str,
    publications: &'a str,
) -> Result<Command<'a>, WordsRefusal>
    ensures { Asks (asked_by verify_row (signature.now ∷ hash.now ∷ publications.now ∷ [])) result }
{
    Ok(Command::Verify(signature, hash_at(2, hash)?, publications))
}

fn mirror<'a>(schedule: &'a str, core: &str, out: &'a str) -> Result<Command<'a>, WordsRefusal>
    ensures { Asks (asked_by mirror_row (schedule.now ∷ core.now ∷ out.now ∷ [])) result }
{
    Ok(Command::Mirror(schedule, number_at(2, core)?, out))
}

fn node<'a>(schedule: &'a str, core: &str, out: &'a str) -> Result<Command<'a>, WordsRefusal>
    ensures { Asks (asked_by node_row (schedule.now ∷ core.now ∷ out.now ∷ [])) result }
{
    Ok(Command::Node(schedule, number_at(2, core)?, out))
}

fn extend<'a>(
    journal: &'a str,
    signature: &'a str,
    publication: &str,
    out: &'a str,
) -> Result<Command<'a>, WordsRefusal>
    ensures { Asks (asked_by extend_row (journal.now ∷ signature.now ∷ publication.now ∷ out.now ∷ [])) result }
{
    Ok(Command::Extend(journal, signature, time_at(3, publication)?, out))
}

fn audit<'a>(
    journal: &'a str,
    signature: &'a str,
    hash: &str,
    publications: &'a str,
) -> Result<Command<'a>, WordsRefusal>
    ensures { Asks (asked_by audit_row (journal.now ∷ signature.now ∷ hash.now ∷ publications.now ∷ [])) result }
{
    Ok(Command::Audit(journal, signature, hash_at(3, hash)?, publications))
}

fn front<'a>(
    journal: &'a str,
    p1: &str,
    p2: &str,
    out: &'a str,
) -> Result<Command<'a>, WordsRefusal>
    ensures { Asks (asked_by front_row (journal.now ∷ p1.now ∷ p2.now ∷ out.now ∷ [])) result }
{
    Ok(Command::Front(journal, time_at(2, p1)?, time_at(3, p2)?, out))
}

fn line<'a>(
    log: &'a str,
    seed: &str,
    number: &str,
    out: &'a str,
) -> Result<Command<'a>, WordsRefusal>
    ensures { Asks (asked_by line_row (log.now ∷ seed.now ∷ number.now ∷ out.now ∷ [])) result }
{
    Ok(Command::Line(log, seed_at(2, seed)?, number_at(3, number)?, out))
}

fn locate<'a>(
    log: &'a str,
    seed: &str,
    line: &'a str,
    proof: &'a str,
) -> Result<Command<'a>, WordsRefusal>
    ensures { Asks (asked_by locate_row (log.now ∷ seed.now ∷ line.now ∷ proof.now ∷ [])) result }
{
    Ok(Command::Locate(log, seed_at(2, seed)?, line, proof))
}

// The seed that word n is.
fn seed_at(n: usize, word: &str) -> Result<[u8; 32], WordsRefusal>
    ensures { result ≡ word_at n (seed_of word.now) }
{
    seed(word).ok_or(WordsRefusal::BadWord(n))
}

// The hash that word n is.
fn hash_at(n: usize, word: &str) -> Result<Imprint, WordsRefusal>
    ensures { result ≡ word_at n (hash_of word.now) }
{
    hash(word).ok_or(WordsRefusal::BadWord(n))
}

// The number that word n is.
fn number_at(n: usize, word: &str) -> Result<u64, WordsRefusal>
    ensures { result ≡ word_at n (number_of word.now) }
{
    number(word).ok_or(WordsRefusal::BadWord(n))
}

// The number below 2^63 that word n is.
fn time_at(n: usize, word: &str) -> Result<u64, WordsRefusal>
    ensures time { result ≡ word_at n (time_of word.now) }
    ensures early { IfOk result (λ time. time < 2 ^ 63) }
{
    time(word).ok_or(WordsRefusal::BadWord(n))
}
