// Groups of a text.
ghost use Rattle.std.specs.Prelude.{◌≡◌, ◌≤◌, ◌++◌, length, OnOk};
ghost use Rattle.ksi_printed.specs.Groups.{character, group_text, number_in, number_of, value};

use ksi_imprint::NoMemory;

/// Appends the group of a number.
#[tactic(auto, unfolding(crate::specs::Groups::group_text))]
pub(crate) fn push_group(text: &mut Vec<u8>, number: u16) -> Result<(), NoMemory>
    ensures { OnOk result (text.new.items ≡ text.old.items ++ group_text number) }
{
    let (a, b) = (number / 4096, number / 256 % 16);
    let (c, d) = (number / 16 % 16, number % 16);
    let check = (17 - (5 * a + 4 * b + 3 * c + 2 * d) % 17) % 17;
    text.extend_from_slice(&[
        character(a),
        character(b),
        character(c),
        character(d),
        character(check),
    ])
}

fn character(value: u16) -> u8
    requires { value ≤ 16 }
    ensures { result ≡ character value }
{
    if value < 10 {
        48 + value as u8
    } else if value < 16 {
        55 + value as u8
    } else {
        88
    }
}

/// The number of the group that a text begins with, none if the check fails.
#[tactic(auto, unfolding(crate::specs::Groups::number_in))]
pub(crate) fn number_in(text: &[u8]) -> Option<u16>
    requires { 5 ≤ length text.now }
    ensures { result ≡ number_in text.now }
{
    number_of(
        value(text[0]),
        value(text[1]),
        value(text[2]),
        value(text[3]),
        value(text[4]),
    )
}

fn number_of(a: u16, b: u16, c: u16, d: u16, e: u16) -> Option<u16>
    requires { (a ≤ 17) × (b ≤ 17) × (c ≤ 17) × (d ≤ 17) × (e ≤ 17) }
    ensures { result ≡ number_of a b c d e }
{
    if a < 16
        && b < 16
        && c < 16
        && d < 16
        && e < 17
        && (5 * a + 4 * b + 3 * c + 2 * d + e) % 17 == 0
    {
        Some(4096 * a + 256 * b + 16 * c + d)
    } else {
        None
    }
}

/// The value of a character, 17 if it has none.
fn value(character: u8) -> u16
    ensures value { result ≡ value character }
    ensures bounded { result ≤ 17 }
{
    if 48 <= character && character <= 57 {
        u16::from(character - 48)
    } else if 65 <= character && character <= 70 {
        u16::from(character - 55)
    } else if character == 88 {
        16
    } else {
        17
    }
}
