// Rows of text: what their words stand for, and what comes of them.
use crate::same::{same, same_text};
use ksi_imprint::{Bytes, Refused};
use std::alloc::Global;
use std::fmt::Debug;
use std::process::Abort;
use std::test::Fail;

/// What a word stands for in hex: the magics of a journal's two versions; imprints of `Tiny`, those of numbers, that of two
/// and three joined, that of an item of one at level 238 with the name `a`, and at level 0 with 64 letters `a`; what stands
/// behind the first byte of such a digest; the digest of no bytes and its imprint, and the imprint of `abc`; the aggregation
/// chain, the publication record and the calendar chain of a signature of that of no bytes in second 0.
const NAMES: &str = "J1 4b53494a524e4c31
J2 4b53494a524e4c32
zero 010000000000000000000000000000000000000000000000000000000000000000
one 010100000000000000000000000000000000000000000000000000000000000000
two 010200000000000000000000000000000000000000000000000000000000000000
three 010300000000000000000000000000000000000000000000000000000000000000
four 010400000000000000000000000000000000000000000000000000000000000000
pair 010800000000000000000000000000000000000000000000000000000000000000
leaf 01d700000000000000000000000000000000000000000000000000000000000000
wide 010500000000000000000000000000000000000000000000000000000000000000
O 00000000000000000000000000000000000000000000000000000000000000
D e3b0c44298fc1c149afbf4c8996fb92427ae41e4649b934ca495991b7852b855
A 01e3b0c44298fc1c149afbf4c8996fb92427ae41e4649b934ca495991b7852b855
B 01ba7816bf8f01cfea414140de5dae2223b00361a396177a9cb410ff61f20015ad
G 8801002b0200030101052101e3b0c44298fc1c149afbf4c8996fb92427ae41e4649b934ca495991b7852b855060101
R 8803002710250200042101e3b0c44298fc1c149afbf4c8996fb92427ae41e4649b934ca495991b7852b855
K 8802002701000200052101e3b0c44298fc1c149afbf4c8996fb92427ae41e4649b934ca495991b7852b855";

fn meant(word: &str) -> &str {
    for line in NAMES.lines() {
        if let Some((name, digits)) = line.split_once(" ") {
            if name == word {
                return digits;
            }
        }
    }
    word
}

/// Puts what a word stands for behind bytes.
fn push_word(alloc: Global, bytes: &mut Vec<u8>, word: &str) -> Result<(), Fail> {
    bytes.extend_from_slice(&hex::decode(alloc, meant(word))?)?;
    Ok(())
}

/// Puts what words stand for behind bytes.
pub(crate) fn push_words(alloc: Global, bytes: &mut Vec<u8>, words: &str) -> Result<(), Fail> {
    for word in words.split_whitespace() {
        push_word(alloc, bytes, word)?;
    }
    Ok(())
}

/// The bytes of words, each in hex or a name.
pub(crate) fn bytes(alloc: Global, words: &str) -> Result<Vec<u8>, Fail> {
    let mut bytes = Vec::new(alloc);
    push_words(alloc, &mut bytes, words)?;
    Ok(bytes)
}

/// What stands on both sides of a row's equals sign.
pub(crate) fn sides(row: &str) -> (&str, &str) {
    match row.split_once(" = ") {
        Some(sides) => sides,
        None => (row, ""),
    }
}

/// A value as `Debug` prints it.
pub(crate) fn shown<T: Debug>(alloc: Global, value: &T) -> Result<String, Fail> {
    Ok(format!(in alloc; "{value:?}")?)
}

/// A value is printed as the right side of a row.
pub(crate) fn is_so<T: Copy + Debug>(
    rt: &impl Abort,
    alloc: Global,
    row: &str,
    told: T,
) -> Result<(), Fail> {
    let text = shown(alloc, &told)?;
    same_text(rt, row, text.as_str(), sides(row).1);
    Ok(())
}

/// A call's own reason, where it has one.
pub(crate) fn reason<T: Copy>(told: Option<Refused<T>>) -> Option<T> {
    match told {
        Some(Refused::Fault(fault)) => Some(fault),
        _ => None,
    }
}

/// The same of a call's own reason, where it has one.
pub(crate) fn is_refused<T: Copy + Debug>(
    rt: &impl Abort,
    alloc: Global,
    row: &str,
    told: Option<Refused<T>>,
) -> Result<(), Fail> {
    match told {
        Some(Refused::Fault(fault)) => is_so(rt, alloc, row, fault),
        _ => is_so(rt, alloc, row, told),
    }
}

/// Puts a value and a line feed behind what was said.
pub(crate) fn push<T: Copy + Debug>(alloc: Global, said: &mut String, told: T) -> Result<(), Fail> {
    let text = format!(in alloc; "{told:?}\n")?;
    said.push_str(text.as_str())?;
    Ok(())
}

/// Bytes are those of the words on the right side of a row.
pub(crate) fn is_text(rt: &impl Abort, alloc: Global, row: &str, told: &[u8]) -> Result<(), Fail> {
    let want = bytes(alloc, sides(row).1)?;
    same(rt, row, told, want.as_slice());
    Ok(())
}

/// A call's new bytes are those of the words on the right side of a row, or its refusal is printed there.
pub(crate) fn is_told<T: Copy + Debug>(
    rt: &impl Abort,
    alloc: Global,
    row: &str,
    told: Result<Bytes, Refused<T>>,
) -> Result<(), Fail> {
    match told {
        Ok(text) => is_text(rt, alloc, row, text.as_slice()),
        Err(refused) => is_refused(rt, alloc, row, Some(refused)),
    }
}
