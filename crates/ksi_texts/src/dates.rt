// Seconds with their dates.
ghost use Rattle.std.specs.Prelude.{◌≡◌, ◌++◌, OnOk};
ghost use Rattle.ksi_texts.specs.Words.{second_text};

use crate::printing::push_number;
use ksi_dates::push_date;
use ksi_imprint::NoMemory;

/// A second of Unix time, and its date in brackets.
pub(crate) fn push_second(text: &mut Vec<u8>, second: u64) -> Result<(), NoMemory>
    ensures { OnOk result (text.new.items ≡ text.old.items ++ second_text second) }
{
    push_number(text, second)?;
    text.extend_from_slice(b" (")?;
    push_date(text, second)?;
    text.extend_from_slice(b")")
}
