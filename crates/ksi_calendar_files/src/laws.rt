//! What holds of calendar files, for the layers above to cite. None of these functions does anything.
ghost use Rattle.std.specs.Prelude.{◌≡◌, Ok};
ghost use Rattle.ksi_calendar_files.specs.File.{Contents, IsFile, file_text};
ghost use Rattle.ksi_calendar_files.specs.Reading.{file_at};

/// The text of a file is read as the file.
pub fn text_is_read()
    ensures { (file : Contents) → IsFile file → file_at (file_text file) ≡ Ok file }
{}
