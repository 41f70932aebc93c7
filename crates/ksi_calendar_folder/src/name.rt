ghost use Rattle.std.specs.Prelude.{◌≡◌, IfOk, string_bytes};
ghost use Rattle.ksi_calendar_folder.specs.Folder.{file_name};

use itoa::Buffer;
use ksi_imprint::NoMemory;
use std::alloc::Global;

/// The name of a file of the folder.
pub(crate) fn file_name(alloc: Global, folder: &str, number: u64) -> Result<String, NoMemory>
    ensures { IfOk result (λ name. string_bytes name ≡ file_name folder.now number) }
{
    let mut digits = Buffer::new();
    let mut name = String::from_str(alloc, folder)?;
    name.push_str("/")?;
    name.push_str(digits.format(number))?;
    Ok(name)
}
