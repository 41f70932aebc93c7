//! The place of an entry.
ghost use Rattle.std.specs.Prelude.{◌≡◌, ◌+◌};
ghost use Rattle.std.specs.Io.Iter.{u64_saturate};
ghost use Rattle.ksi_records.specs.Blocks.{lines_in};

/// The place of an entry: its number, counted from 0, and its first line, counted from 1. Neither is beyond 2^64 - 1.
#[derive(Clone, Copy)]
pub struct Place {
    pub entry: u64,
    pub line: u64,
}

impl Place {
    /// The place of what follows an entry with this block.
    pub fn behind(self, block: &[u8]) -> Place
        ensures entry { result.entry ≡ u64_saturate (self.entry + 1) }
        ensures line { result.line ≡ u64_saturate (u64_saturate (self.line + 1) + lines_in block.now) }
    {
        let lines = block.iter().filter(|byte| **byte == b'\n').count();
        Place {
            entry: self.entry.saturating_add(1),
            line: self.line.saturating_add(1).saturating_add(lines as u64),
        }
    }
}
