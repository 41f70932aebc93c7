// The text of a publication.
ghost use Rattle.std.specs.Prelude.{◌≡◌, ◌<◌, ◌++◌, ◌^◌, ℕ, Ok, IfOk, OnOk, slice_index};
ghost use Rattle.ksi_printed.specs.Printed.{groups_text, mark_before, printed};
ghost use Rattle.ksi_printed.specs.Reading.{bare, reading};

use crate::group::push_group;
use crate::laws::printed_is_read;
use crate::numbers::{numbers_of, push_sum};
use ksi_dates::push_basic_date;
use ksi_imprint::{Bytes, Imprint, NoMemory};
use std::alloc::Global;

/// The text of a second and a root, five lines.
///
/// # Errors
/// `NoMemory`: nothing is returned.
pub fn print(alloc: Global, second: u64, root: &Imprint) -> Result<Bytes, NoMemory>
    requires { second < 10 ^ 12 }
    ensures text { IfOk result (λ text. text ≡ printed second root.now) }
    ensures read_again { IfOk result (λ text. reading (bare text) ≡ Ok (second, root.now)) }
{
    printed_is_read();
    are_bytes(root.bytes());
    let text = text_of(alloc, second, root)?;
    Ok(Bytes::from_vec(text))
}

/// The items of a slice of bytes are below 256. This function does nothing.
fn are_bytes(bytes: &[u8])
    ensures { (k : ℕ) → slice_index bytes.now k < 256 }
{}

/// The text of the last twelve digits of a second, and of a root.
#[tactic(auto, unfolding(crate::specs::Printed::printed))]
pub(crate) fn text_of(alloc: Global, second: u64, root: &Imprint) -> Result<Vec<u8>, NoMemory>
    ensures { IfOk result (λ text. text.items ≡ printed second root.now) }
{
    let _ = root.bytes();
    let mut numbers = numbers_of(alloc, second, root)?;
    push_sum(&mut numbers)?;
    let mut text = Vec::new(alloc);
    text.extend_from_slice(b"KSI PUBLICATION ")?;
    push_basic_date(&mut text, second)?;
    push_groups(&mut text, numbers.as_slice())?;
    text.push(b'\n')?;
    Ok(text)
}

fn push_groups(text: &mut Vec<u8>, numbers: &[u16]) -> Result<(), NoMemory>
    ensures { OnOk result (text.new.items ≡ text.old.items ++ groups_text 0 numbers.now) }
{
    for place in 0..numbers.len() {
        text.push(mark_before(place))?;
        push_group(text, numbers[place])?;
    }
    Ok(())
}

fn mark_before(place: usize) -> u8
    ensures { result ≡ mark_before place }
{
    if place == 0 || place == 3 || place == 11 || place == 19 {
        b'\n'
    } else {
        b' '
    }
}
