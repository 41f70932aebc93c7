// The names of a list, one a line.
use ksi_imprint::NoMemory;
use std::alloc::Global;

/// The name of a line: UTF-8 without a zero byte, of which the last part is the name of a file.
pub(crate) fn name_of(line: &[u8]) -> Option<&str> {
    let name = match line.split_last() {
        Some((b'\n', name)) => name,
        _ => line,
    };
    match str::from_utf8(name) {
        Ok(name) if is_name(name) => Some(name),
        _ => None,
    }
}

fn is_name(name: &str) -> bool {
    let last = last_part(name);
    !name.contains('\0') && last != "" && last != "." && last != ".."
}

/// What follows the last slash.
fn last_part(name: &str) -> &str {
    match name.rsplit_once('/') {
        Some((_, last)) => last,
        None => name,
    }
}

/// The last part of a name, in another folder.
pub(crate) fn moved(alloc: Global, folder: &str, name: &str) -> Result<String, NoMemory> {
    let mut path = String::from_str(alloc, folder)?;
    path.push_str("/")?;
    path.push_str(last_part(name))?;
    Ok(path)
}
