// Dates in the basic format of ISO 8601.
ghost use Rattle.std.specs.Prelude.{◌≡◌, ◌≤◌, ◌++◌, OnOk};
ghost use Rattle.httpdate.specs.Date.{date_text as http_text};
ghost use Rattle.ksi_dates.specs.Dates.{basic_of, basic_text, month_by};

use httpdate::HttpDate;
use ksi_imprint::NoMemory;

/// Appends the 16 characters of the date of a second in UTC, or `AFTERTHEYEAR9999`.
#[tactic(auto, using(crate::proofs::BasicLemmas::told, crate::proofs::BasicLemmas::after_all))]
pub fn push_basic_date(text: &mut Vec<u8>, second: u64) -> Result<(), NoMemory>
    ensures { OnOk result (text.new.items ≡ text.old.items ++ basic_text second) }
{
    match HttpDate::from_unix_secs(second) {
        Ok(date) => text.extend_from_slice(&basic(&date)),
        Err(_) => text.extend_from_slice(b"AFTERTHEYEAR9999"),
    }
}

/// The date in the basic format, by its parts as HTTP writes them.
fn basic(date: &HttpDate) -> [u8; 16]
    ensures { result ≡ basic_of date.now.parts }
{
    let http = date.to_bytes();
    let month = month_by(http[9], http[10]);
    [
        http[12],
        http[13],
        http[14],
        http[15],
        b'0' + month / 10,
        b'0' + month % 10,
        http[5],
        http[6],
        b'T',
        http[17],
        http[18],
        http[20],
        http[21],
        http[23],
        http[24],
        b'Z',
    ]
}

/// The month by the second and the third letter of its name.
fn month_by(second: u8, third: u8) -> u8
    ensures month { result ≡ month_by second third }
    ensures bounded { result ≤ 12 }
{
    match (second, third) {
        (b'a', b'n') => 1,
        (b'a', b'r') => 3,
        (b'a', _) => 5,
        (b'e', b'b') => 2,
        (b'e', b'p') => 9,
        (b'e', _) => 12,
        (b'u', b'n') => 6,
        (b'u', b'l') => 7,
        (b'u', _) => 8,
        (b'p', _) => 4,
        (b'c', _) => 10,
        _ => 11,
    }
}
