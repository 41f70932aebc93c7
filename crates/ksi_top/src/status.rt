ghost use Rattle.std.specs.Prelude.{◌≡◌};

/// How a run ended.
#[derive(Clone, Copy, Debug, PartialEq, Eq)]
pub enum Status {
    /// The command's result stands: its file is saved, its line is put.
    Done,
    /// A check of the signature failed, or the command is refused otherwise; the line that says so is put.
    Refused,
    /// The words are no command's, or one of them is no number or hash where one must stand.
    Words,
    /// A loaded file is not in its grammar.
    Malformed,
    /// A call on the files or the output failed.
    Fault,
    /// There was no memory; nothing is saved or put.
    NoMemory,
    /// An audit found two different strings with one hash; the line that shows them is put.
    Clash,
    /// A file passes its limit.
    TooLong,
}

impl Status {
    ghost use Rattle.ksi_top.specs.Codes.{code_of};

    /// The program's exit status.
    pub fn code(self) -> u8
        ensures { result ≡ code_of self }
    {
        match self {
            Status::Done => 0,
            Status::Refused => 1,
            Status::Words => 2,
            Status::Malformed => 3,
            Status::Fault => 4,
            Status::NoMemory => 5,
            Status::Clash => 6,
            Status::TooLong => 7,
        }
    }
}
