// The publication of a printed text.
ghost use Rattle.std.specs.Prelude.{◌≡◌, ◌++◌, ◌∷◌, [], ◌<◌, Ok, Err, drop, length, IfOk, OnOk};
ghost use Rattle.ksi_imprint.specs.Refused.{IfRefused, OrNoMemory};
ghost use Rattle.ksi_printed.specs.Printed.{printed};
ghost use Rattle.ksi_printed.specs.Reading.{bare, bare_of, compared, numbers_from, reading, root_of, second_of, upper};

use crate::fault::PrintFault;
use crate::group::number_in;
use crate::numbers::{root_of, second_of};
use crate::printer::text_of;
use ksi_imprint::{Imprint, NoMemory, Refused};
use std::alloc::Global;

/// How many characters a text has, without spaces and line breaks.
const CHARACTERS: usize = 135;

/// How many characters the first line has.
const FIRST_LINE: usize = 30;

/// The second and the root that a text was printed of. Case, spaces, tabs and line breaks do not matter.
///
/// # Errors
/// The first fault: the number of characters, the first group whose check fails, the check sum, then the date. `NoMemory`:
/// nothing is returned.
pub fn read(alloc: Global, text: &[u8]) -> Result<(u64, Imprint), Refused<PrintFault>>
    ensures { OrNoMemory (reading (bare text.now)) result }
{
    let text = bare(alloc, text)?;
    read_bare(alloc, text.as_slice())
}

/// The text without spaces and line breaks, in upper case.
fn bare(alloc: Global, text: &[u8]) -> Result<Vec<u8>, NoMemory>
    ensures { IfOk result (λ text_bare. text_bare.items ≡ bare text.now) }
{
    let mut kept = Vec::new(alloc);
    for byte in text {
        push_bare(&mut kept, *byte)?;
    }
    Ok(kept)
}

fn push_bare(kept: &mut Vec<u8>, byte: u8) -> Result<(), NoMemory>
    ensures { OnOk result (kept.new.items ≡ kept.old.items ++ bare_of byte) }
{
    if byte == 32 || byte == 9 || byte == 10 || byte == 13 {
        return Ok(());
    }
    kept.extend_from_slice(&[upper(byte)])
}

fn upper(byte: u8) -> u8
    ensures { result ≡ upper byte }
{
    if 97 <= byte && byte <= 122 {
        byte - 32
    } else {
        byte
    }
}

#[tactic(auto, using(crate::proofs::Again::read_from, crate::proofs::Again::not_read_from), unfolding(crate::specs::Reading::reading))]
fn read_bare(alloc: Global, text: &[u8]) -> Result<(u64, Imprint), Refused<PrintFault>>
    ensures { OrNoMemory (reading text.now) result }
{
    if text.len() != CHARACTERS {
        return Err(Refused::Fault(PrintFault::Characters(text.len())));
    }
    let (_, groups) = text.split_at(FIRST_LINE);
    match read_numbers(alloc, groups) {
        Ok(numbers) => read_of(alloc, text, numbers.as_slice()),
        Err(refused) => Err(refused),
    }
}

/// The publication of the numbers, if it is printed like the text.
fn read_of(
    alloc: Global,
    text: &[u8],
    numbers: &[u16],
) -> Result<(u64, Imprint), Refused<PrintFault>>
    requires { length numbers.now ≡ 21 }
    ensures { OrNoMemory (compared text.now (bare (printed (second_of numbers.now) (root_of numbers.now))) (second_of numbers.now, root_of numbers.now)) result }
{
    let root = root_of(alloc, numbers)?;
    compared(alloc, text, second_of(numbers), root)
}

/// The numbers of 21 groups.
fn read_numbers(alloc: Global, groups: &[u8]) -> Result<Vec<u16>, Refused<PrintFault>>
    requires { length groups.now ≡ 105 }
    ensures read { IfOk result (λ numbers. numbers_from [] 0 21 groups.now ≡ Ok numbers.items) }
    ensures count { IfOk result (λ numbers. length numbers.items ≡ 21) }
    ensures fault { IfRefused result (λ fault. numbers_from [] 0 21 groups.now ≡ Err fault) (Unit {0}) }
{
    let mut numbers = Vec::new(alloc);
    'reading: for done in 0..21usize {
        let (_, rest) = groups.split_at(5 * done);
        match number_in(rest) {
            Some(number) => keep(&mut numbers, number)?,
            None => return Err(Refused::Fault(PrintFault::Group(done + 1))),
        }
    }
    Ok(numbers)
}

fn keep(numbers: &mut Vec<u16>, number: u16) -> Result<(), NoMemory>
    ensures { OnOk result (numbers.new.items ≡ numbers.old.items ++ number ∷ []) }
{
    numbers.push(number)?;
    Ok(())
}

/// The publication, if it is printed like the text.
fn compared(
    alloc: Global,
    text: &[u8],
    second: u64,
    root: Imprint,
) -> Result<(u64, Imprint), Refused<PrintFault>>
    ensures { OrNoMemory (compared text.now (bare (printed second root)) (second, root)) result }
{
    let printed = text_of(alloc, second, &root)?;
    let again = bare(alloc, printed.as_slice())?;
    if text == again.as_slice() {
        return Ok((second, root));
    }
    if sum_in(text) == sum_in(again.as_slice()) {
        Err(Refused::Fault(PrintFault::Date))
    } else {
        Err(Refused::Fault(PrintFault::Sum))
    }
}

/// The last two groups of a text.
fn sum_in(text: &[u8]) -> &[u8]
    ensures { result.now ≡ drop 125 text.now }
{
    if text.len() < 125 {
        &[]
    } else {
        text.split_at(125).1
    }
}
