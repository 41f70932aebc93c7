ghost use Rattle.std.specs.Prelude.{◌≡◌, ℕ, ◌≤◌, ◌+◌, Bool, IsTrue, List, length, ◌++◌, OnOk, OnErr};
ghost use Rattle.ksi_ports.specs.Outside.{count_up, Raises, ExtendsByFront};

/// A put failed, and the count of faults rose.
#[derive(Clone, Copy, Debug, PartialEq, Eq)]
pub struct SinkFailed;

/// What takes a run's output.
///
/// The counts of puts and of faults and the tally of bytes never fall. They stop at 2^64 - 1, where one counts as risen by
/// any number.
pub trait Sink {
    /// Whether this kind of sink tells what was written.
    ghost tells: { Bool };

    /// All bytes that were written.
    ghost written: { Self → List ℕ };

    /// How often something was put.
    ghost puts: { Self → ℕ };

    /// How many bytes were given to puts, whether they were written or not.
    ghost given: { Self → ℕ };

    /// How often a put failed.
    ghost faults: { Self → ℕ };

    /// How many bytes may still be put. It is 2^64, more than a piece can have, and stays there, where no number is set.
    ghost free: { Self → ℕ };

    /// Writes the piece behind what was written. It takes no memory.
    ///
    /// # Errors
    ///
    /// `SinkFailed` where the piece could not be written: the count of faults rises, and a beginning of the piece may have been
    /// written.
    fn put(&mut self, piece: &[u8]) -> Result<(), SinkFailed>
        requires { length piece.now ≤ free self.old }
        ensures free { free self.old ≤ free self.new + length piece.now }
        ensures later { puts self.old ≤ puts self.new }
        ensures called { puts self.new ≡ count_up 1 (puts self.old) }
        ensures given { given self.new ≡ count_up (length piece.now) (given self.old) }
        ensures counted { OnOk result (faults self.new ≡ faults self.old) }
        ensures failed { OnErr result (Raises (faults self.old) (faults self.new)) }
        ensures appended { IsTrue tells → OnOk result (written self.new ≡ written self.old ++ piece.now) }
        ensures front { IsTrue tells → OnErr result (ExtendsByFront (written self.old) piece.now (written self.new)) };
}
