use ksi_imprint::Imprint;

/// A command: its file words as they are, and its other words read.
#[derive(Drop)]
pub enum Command<'a> {
    /// The schedule's file, the journal's file to write.
    Replay(&'a str, &'a str),
    /// The journal's file, the number of the request, the signature's file to write.
    Sign(&'a str, u64, &'a str),
    /// The journal's file, the publications' file to write.
    Publish(&'a str, &'a str),
    /// The journal's file, the signature's file, the second to extend to, below 2^63, the signature's file to write.
    Extend(&'a str, &'a str, u64, &'a str),
    /// The signature's file, the hash, the publications' file.
    Verify(&'a str, Imprint, &'a str),
    /// The journal's file, the signature's file, the hash, the publications' file.
    Audit(&'a str, &'a str, Imprint, &'a str),
    /// The number of the schedule, the schedule's file to write.
    Make(u64, &'a str),
    /// The number of the schedule.
    Drill(u64),
    /// The journal's file, the file of the same journal to write.
    Migrate(&'a str, &'a str),
    /// The journal's file, the last seconds of the older and of the newer calendar, both below 2^63, the front's file to
    /// write.
    Front(&'a str, u64, u64, &'a str),
    /// The older journal's file, the newer one's file, the front's file.
    Compare(&'a str, &'a str, &'a str),
    /// The log's file, the seed of its masks.
    Block(&'a str, [u8; 32]),
    /// The log's file, the seed of its masks, the number of the line, the proof's file to write.
    Line(&'a str, [u8; 32], u64, &'a str),
    /// The signature's file, the publications' file, the line's file, the proof's file.
    CheckLine(&'a str, &'a str, &'a str, &'a str),
    /// The log's file, the seed of its masks, the line's file, the proof's file.
    Locate(&'a str, [u8; 32], &'a str, &'a str),
    /// The files of two mirrors, the file of their union to write.
    Merge(&'a str, &'a str, &'a str),
    /// The mirror's file, the journal's file to write.
    Whole(&'a str, &'a str),
    /// The node file.
    Inspect(&'a str),
    /// The schedule's file, the number of the core, the mirror's file to write.
    Mirror(&'a str, u64, &'a str),
    /// The schedule's file, the number of the core, the node file to write.
    Node(&'a str, u64, &'a str),
}

/// Why words are no command.
#[derive(Clone, Copy, Debug)]
pub enum WordsRefusal {
    /// They have no command's form.
    Words,
    /// The word of this number, counted from 1 behind the command's name, is no number, hash or seed.
    BadWord(usize),
}
