use crate::rows::are_so;
use crate::text::bytes;
use ksi_texts::Word::{Date, Quoted};
use ksi_texts::{Word, name_in, push_word};
use std::alloc::Global;
use std::test::Fail;

/// The date of a second.
pub(crate) fn dated(alloc: Global, second: &str) -> Result<String, Fail> {
    worded(alloc, Date(second.parse()?))
}

/// Bytes in quotes.
pub(crate) fn quoted(alloc: Global, text: &str) -> Result<String, Fail> {
    let bytes = bytes(alloc, text)?;
    worded(alloc, Quoted(&bytes))
}

/// The name in metadata, in quotes, or a dash.
pub(crate) fn named(alloc: Global, text: &str) -> Result<String, Fail> {
    let bytes = bytes(alloc, text)?;
    match name_in(&bytes) {
        Some(name) => worded(alloc, Quoted(name)),
        None => worded(alloc, Word::Text("-")),
    }
}

fn worded(alloc: Global, word: Word<'_>) -> Result<String, Fail> {
    let mut text = Vec::new(alloc);
    push_word(&mut text, word)?;
    Ok(String::from_utf8(text)?)
}

// As `date -u` of GNU has them: the first second, a leap day and the days beside it, a century that is no leap year, the last
// second of the year 9999, and the one behind it.
const DATES: &str = "date 0 = Thu, 01 Jan 1970 00:00:00 GMT
date 951782399 = Mon, 28 Feb 2000 23:59:59 GMT
date 951782400 = Tue, 29 Feb 2000 00:00:00 GMT
date 951868800 = Wed, 01 Mar 2000 00:00:00 GMT
date 1700000000 = Tue, 14 Nov 2023 22:13:20 GMT
date 4107542399 = Sun, 28 Feb 2100 23:59:59 GMT
date 4107542400 = Mon, 01 Mar 2100 00:00:00 GMT
date 253402300799 = Fri, 31 Dec 9999 23:59:59 GMT
date 253402300800 = after the year 9999
date 18446744073709551615 = after the year 9999";

#[test]
fn seconds_have_dates(rt: HostRuntime) -> Result<(), Fail> {
    are_so(&rt, rt.alloc(), DATES)
}

// Plain bytes; an escape code, a byte past ASCII and a zero; marks of quotes, of SVG and of escapes; 65 bytes. Then the metadata
// of a name, in both paddings; and with a wrong length, a wrong end, no letter, and none.
const QUOTES: &str = "quoted 6e616d65 = \"name\"
quoted 1b5b33316dff00 = \"\\x1b[31m\\xff\\x00\"
quoted 2226273c3e5c7e20 = \"\\x22\\x26\\x27\\x3c\\x3e\\x5c~ \"
quoted 6161616161616161616161616161616161616161616161616161616161616161616161616161616161616161616161616161616161616161616161616161616162 = \"aaaaaaaaaaaaaaaaaaaaaaaaaaaaaaaaaaaaaaaaaaaaaaaaaaaaaaaaaaaaaaaa\"..
named 7e020101 0104 626f62 00 = \"bob\"
named 7e0101 0105 616e6e61 00 = \"anna\"
named 7e0101 0106 616e6e61 00 = -
named 7e0101 0105 616e6e61 01 = -
named 7e0101 0101 00 = -
named 030004 = -";

#[test]
fn bytes_are_quoted(rt: HostRuntime) -> Result<(), Fail> {
    are_so(&rt, rt.alloc(), QUOTES)
}
