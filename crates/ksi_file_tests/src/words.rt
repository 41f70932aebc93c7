// Lines of words, and the commands that they ask for.
use crate::same::same;
use ksi_imprint::{Imprint, Refused};
use ksi_words::{Command, WordsRefusal, command, hash, number, seed, time};
use std::alloc::Global;
use std::process::Abort;
use std::test::Fail;

const DIGITS: &str = "e3b0c44298fc1c149afbf4c8996fb92427ae41e4649b934ca495991b7852b855";

const CAPITALS: &str = "E3B0C44298FC1C149AFBF4C8996FB92427AE41E4649B934CA495991B7852B855";

/// What a sign stands for: 64 hex digits, the same as capitals, and 65.
static SIGNS: [(&str, &str); 3] = [
    ("#", DIGITS),
    ("^", CAPITALS),
    (
        "#0",
        "e3b0c44298fc1c149afbf4c8996fb92427ae41e4649b934ca495991b7852b8550",
    ),
];

/// What a word stands for: a sign's digits, or else itself.
fn spelled(word: &str) -> &str {
    for (sign, digits) in &SIGNS {
        if *sign == word {
            return *digits;
        }
    }
    word
}

/// The words between single spaces, of which some may be empty.
fn words(alloc: Global, line: &str) -> Result<Vec<String>, Fail> {
    let mut words = Vec::new(alloc);
    for word in line.split(' ') {
        words.push(String::from_str(alloc, spelled(word))?)?;
    }
    Ok(words)
}

/// `#` for the hash of those digits.
fn sign(imprint: &Imprint) -> &'static str {
    if hash(DIGITS) == Some(*imprint) {
        "#"
    } else {
        "other"
    }
}

/// `#` for the seed of those digits.
fn seed_sign(seed: &[u8; 32]) -> &'static str {
    sign(&Imprint::of_digest(seed))
}

/// The name of what is asked.
fn name_of(command: &Command<'_>) -> &'static str {
    match command {
        Command::Replay(..) => "replay",
        Command::Sign(..) => "sign",
        Command::Publish(..) => "publish",
        Command::Extend(..) => "extend",
        Command::Verify(..) => "verify",
        Command::Audit(..) => "audit",
        Command::Make(..) => "make",
        Command::Drill(..) => "drill",
        Command::Migrate(..) => "migrate",
        Command::Front(..) => "front",
        Command::Compare(..) => "compare",
        Command::Block(..) => "block",
        Command::Line(..) => "line",
        Command::CheckLine(..) => "checkline",
        Command::Locate(..) => "locate",
        Command::Merge(..) => "merge",
        Command::Whole(..) => "whole",
        Command::Inspect(..) => "inspect",
        Command::Mirror(..) => "mirror",
        Command::Node(..) => "node",
    }
}

/// Four words, those that are lacking being empty.
type Words<'a> = (&'a str, &'a str, &'a str, &'a str);

/// The words that are no numbers.
fn words_of<'a>(command: &Command<'a>) -> Words<'a> {
    match command {
        Command::Replay(a, b)
        | Command::Publish(a, b)
        | Command::Migrate(a, b)
        | Command::Whole(a, b) => (a, b, "", ""),
        Command::Compare(a, b, c) | Command::Merge(a, b, c) => (a, b, c, ""),
        Command::CheckLine(a, b, c, d) => (a, b, c, d),
        Command::Inspect(a) => (a, "", "", ""),
        other => beside_numbers(other),
    }
}

/// The same of what has a number and no hash.
fn beside_numbers<'a>(command: &Command<'a>) -> Words<'a> {
    match command {
        Command::Sign(a, _, b) | Command::Mirror(a, _, b) | Command::Node(a, _, b) => {
            (a, b, "", "")
        }
        Command::Extend(a, b, _, c) => (a, b, c, ""),
        Command::Make(_, a) => (a, "", "", ""),
        Command::Front(a, _, _, b) => (a, b, "", ""),
        other => beside_hashes(other),
    }
}

/// The same of what has a hash or a seed.
fn beside_hashes<'a>(command: &Command<'a>) -> Words<'a> {
    match command {
        Command::Verify(a, hash, b) => (a, sign(hash), b, ""),
        Command::Audit(a, b, hash, c) => (a, b, sign(hash), c),
        Command::Block(a, seed) => (a, seed_sign(seed), "", ""),
        Command::Line(a, seed, _, b) => (a, seed_sign(seed), b, ""),
        Command::Locate(a, seed, b, c) => (a, seed_sign(seed), b, c),
        _ => ("", "", "", ""),
    }
}

/// The number that is asked for, or else 0.
fn number_of(command: &Command<'_>) -> u64 {
    match command {
        Command::Sign(_, number, _) => *number,
        Command::Extend(_, _, second, _) => *second,
        Command::Make(number, _) => *number,
        Command::Drill(number) => *number,
        Command::Front(_, p1, p2, _) => p1.wrapping_sub(*p2),
        Command::Line(_, _, k, _) => *k,
        Command::Mirror(_, core, _) => *core,
        Command::Node(_, core, _) => *core,
        _ => 0,
    }
}

/// The name, four words and the number of what is asked.
fn shown(alloc: Global, command: &Command<'_>) -> Result<String, Fail> {
    let name = name_of(command);
    let (first, second, third, fourth) = words_of(command);
    let number = number_of(command);
    Ok(format!(in alloc; "{name} {first} {second} {third} {fourth} {number}")?)
}

/// A refusal as `Debug` prints it.
fn refusal(alloc: Global, refused: Refused<WordsRefusal>) -> Result<String, Fail> {
    match refused {
        Refused::Fault(refusal) => Ok(format!(in alloc; "{refusal:?}")?),
        Refused::NoMemory => Err(Fail::from("no memory")),
    }
}

/// What words ask for, or why they ask for nothing.
fn told(alloc: Global, words: &[String]) -> Result<String, Fail> {
    match command(alloc, words) {
        Ok(command) => shown(alloc, &command),
        Err(refused) => refusal(alloc, refused),
    }
}

/// The line on the left side of a row asks for what its right side says.
fn is_told(rt: &impl Abort, alloc: Global, row: &str) -> Result<(), Fail> {
    let (line, want) = row.split_once(" = ").unwrap_or((row, ""));
    let words = words(alloc, line)?;
    same(rt, row, told(alloc, &words)?.as_str(), want);
    Ok(())
}

fn are_told(rt: &impl Abort, alloc: Global, rows: &str) -> Result<(), Fail> {
    for row in rows.lines() {
        is_told(rt, alloc, row)?;
    }
    Ok(())
}

/// Lines, and behind each what it asks for: the name, four words, those that are lacking being empty, and the number, or else
/// 0.
const ASKED: &str = "sign j 18446744073709551615 s = sign j s   18446744073709551615
sign j 007 s = sign j s   7
mirror f 2 m = mirror f m   2
node f 2 n = node f n   2
extend j s 9223372036854775807 t = extend j s t  9223372036854775807
make 007 f = make f    7
drill 18446744073709551615 = drill     18446744073709551615
front j 007 5 f = front j f   2
verify s ^ p = verify s # p  0
line g # 007 f = line g # f  7
block g ^ = block g #   0
verify  #  = verify  #   0
replay f j = replay f j   0
publish j p = publish j p   0
verify s # p = verify s # p  0
verify verify # help = verify verify # help  0
verify s-- # p=- = verify s-- # p=-  0
verify 0 # 1 = verify 0 # 1  0
audit j s # p = audit j s # p 0
migrate j k = migrate j k   0
compare j k f = compare j k f  0
block g # = block g #   0
checkline s p l f = checkline s p l f 0
locate g # l f = locate g # l f 0
merge m n o = merge m n o  0
whole m j = whole m j   0
inspect n = inspect n    0";

#[test]
fn each_command_is_told(rt: HostRuntime) -> Result<(), Fail> {
    are_told(&rt, rt.alloc(), ASKED)
}

/// Lines with a word that is no number, hash or seed.
const BAD: &str = "make f 7 = BadWord(1)
drill 18446744073709551616 = BadWord(1)
sign j 18446744073709551616 s = BadWord(2)
mirror f x m = BadWord(2)
verify s 12 p = BadWord(2)
verify s #0 p = BadWord(2)
verify s  p = BadWord(2)
front j x 2 f = BadWord(2)
verify s e3b0c44298fc1c149afbf4c8996fb92427ae41e4649b934ca495991b7852b85 p = BadWord(2)
verify s e3b0c44298fc1c149afbf4c8996fb92427ae41e4649b934ca495991b7852b85g p = BadWord(2)
block g 12 = BadWord(2)
line g #0 x f = BadWord(2)
locate g  l f = BadWord(2)
extend j s 9223372036854775808 t = BadWord(3)
extend j s # t = BadWord(3)
audit j s 12 p = BadWord(3)
front j 1 9223372036854775808 f = BadWord(3)
line g # x f = BadWord(3)";

/// Too few or too many words, the first line having none; names of no command; and words that begin with a dash.
const REFUSED: &str = " = Words
replay f = Words
replay f j 1 = Words
sign j 1 = Words
publish j = Words
extend j s 1 = Words
make 7 = Words
drill = Words
drill 7 f = Words
migrate = Words
migrate j = Words
migrate j k l = Words
verify = Words
verify s = Words
verify s 12 = Words
verify s # = Words
verify s # p q = Words
verify s # p q r s t = Words
verify s 12 p q = Words
audit j s # = Words
audit j s # p q = Words
front = Words
front j 1 2 = Words
front j 1 2 f g = Words
compare j k = Words
compare j k f g = Words
merge m n = Words
merge m n o p = Words
whole m = Words
whole m j k = Words
inspect = Words
inspect n n = Words
mirror f 1 = Words
mirror f 1 m n = Words
block g = Words
block g # f = Words
line g # 1 = Words
line g # 1 f g = Words
checkline s p l = Words
checkline s p l f g = Words
locate g # l = Words
locate g # l f g = Words
Verify s # p = Words
verif s # p = Words
verifys s # p = Words
ksi verify s # p = Words
help = Words
help verify = Words
 verify s # p = Words
sign j -1 s = Words
- = Words
-- = Words
--help = Words
--version = Words
-h = Words
-- verify s # p = Words
-verify s # p = Words
verify - # p = Words
verify -s # p = Words
verify s -# p = Words
verify s 12 - = Words
verify s # -- = Words
verify s # -p = Words
verify s # --help = Words
migrate j -k = Words
verify -- s # p = Words
verify s # p -- = Words";

#[test]
fn each_other_line_is_refused(rt: HostRuntime) -> Result<(), Fail> {
    are_told(&rt, rt.alloc(), BAD)?;
    are_told(&rt, rt.alloc(), REFUSED)
}

#[test]
fn no_words_are_refused(rt: HostRuntime) -> Result<(), Fail> {
    let none: Vec<String> = Vec::new(rt.alloc());
    same(&rt, "none", told(rt.alloc(), &none)?.as_str(), "Words");
    Ok(())
}

#[test]
fn numbers_have_1_to_20_digits_and_times_are_below_2_to_the_63(rt: HostRuntime) {
    const MOST: u64 = u64::MAX >> 1;
    static ROWS: [(&str, Option<u64>, Option<u64>); 7] = [
        ("0", Some(0), Some(0)),
        ("00000000000000000007", Some(7), Some(7)),
        ("42", Some(42), Some(42)),
        ("9223372036854775807", Some(MOST), Some(MOST)),
        ("09223372036854775807", Some(MOST), Some(MOST)),
        ("9223372036854775808", Some(MOST + 1), None),
        ("18446744073709551615", Some(u64::MAX), None),
    ];
    const WORDS: &str =
        "18446744073709551616;99999999999999999999;000000000000000000007;018446744073709551615;;+1;-1; 1;1 ;1a;0x1;1_000;\u{661}";
    for (word, count, second) in &ROWS {
        same(&rt, *word, (number(word), time(word)), (*count, *second));
    }
    for word in WORDS.split(';') {
        same(&rt, word, (number(word), time(word)), (None, None));
    }
}

#[test]
fn a_seed_is_the_bytes_of_64_hex_digits(rt: HostRuntime) {
    let digest = seed(CAPITALS).map(|seed| Imprint::of_digest(&seed));
    same(&rt, "digits", digest, hash(DIGITS));
    same(&rt, "12", seed("12"), None);
}

#[test]
fn a_hash_has_64_hex_digits(rt: HostRuntime) {
    same(&rt, "digits", hash(DIGITS), Imprint::from_hex(DIGITS).ok());
    same(&rt, "capitals", hash(CAPITALS), hash(DIGITS));
    same(&rt, "12", hash("12"), None);
    same(&rt, "", hash(""), None);
}
