ghost use Rattle.std.specs.Prelude.{◌≡◌};
ghost use Rattle.ksi_journal.specs.File.{magic};

/// The versions of a journal's file, by the eight bytes that it begins with.
#[derive(Clone, Copy)]
pub enum Version {
    /// `KSIJRNL1`: no voters stand behind the start, and no item has a name.
    One,
    /// `KSIJRNL2`.
    Two,
}

impl Version {
    /// The bytes that a file of the version begins with.
    pub(crate) fn magic(self) -> &'static [u8]
        ensures { result.now ≡ magic self }
    {
        match self {
            Version::One => b"KSIJRNL1",
            Version::Two => b"KSIJRNL2",
        }
    }
}
