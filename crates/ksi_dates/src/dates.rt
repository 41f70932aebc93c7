// Dates as HTTP writes them.
ghost use Rattle.std.specs.Prelude.{◌≡◌, ◌++◌, OnOk};
ghost use Rattle.ksi_dates.specs.Dates.{date_text};

use httpdate::HttpDate;
use ksi_imprint::NoMemory;

/// Appends the date of a second, as IMF-fixdate. The first one after it is `after the year 9999`.
#[tactic(auto, using(crate::proofs::DateLemmas::told, crate::proofs::DateLemmas::after_all))]
pub fn push_date(text: &mut Vec<u8>, second: u64) -> Result<(), NoMemory>
    ensures { OnOk result (text.new.items ≡ text.old.items ++ date_text second) }
{
    match HttpDate::from_unix_secs(second) {
        Ok(date) => text.extend_from_slice(&date.to_bytes()),
        Err(_) => text.extend_from_slice(b"after the year 9999"),
    }
}
