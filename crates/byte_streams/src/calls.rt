//! Readers and writers below a source and a sink. A state of one is known by the calls that led to
//! it, so a contract can say which calls were made.
ghost use Rattle.std.specs.Prelude.{ℕ, List, Option, length, take, IfOk, OnErr};
ghost use Rattle.std.specs.Io.{ReadsAtMost, WritesAtMost};
ghost use Rattle.std.specs.Io.KnownBytes.{ReadConsumes, WriteAppends};

use crate::streams::Broken;

/// What reads bytes.
pub trait ByteReader {
    /// The bytes that it gives until its end, if they are known.
    ghost remaining: { Self → Option (List ℕ) };

    /// One call was to read up to so many bytes, and gave these.
    ghost reads: { Self → Self → ℕ → List ℕ → Type 0 };

    /// One call failed.
    ghost fails: { Self → Self → Type 0 };

    /// Reads the next bytes into the front of `room` and returns their number, which is 0 only at the
    /// end or if `room` is empty.
    ///
    /// # Errors
    ///
    /// `Broken` if that fails. It then gives none of its bytes.
    fn read(&mut self, room: &mut [u8]) -> Result<usize, Broken>
        ensures bound { ReadsAtMost result room.new }
        ensures bytes { ReadConsumes (remaining self.old) (remaining self.new) result room.new }
        ensures reads { IfOk result (λ n. reads self.old self.new (length room.old) (take n room.new)) }
        ensures failed { OnErr result (fails self.old self.new) };
}

/// What writes bytes.
pub trait ByteWriter {
    /// The bytes that it has taken, if they are known.
    ghost contents: { Self → Option (List ℕ) };

    /// One call was to write these bytes, and took so many from their front.
    ghost writes: { Self → Self → List ℕ → ℕ → Type 0 };

    /// One call failed.
    ghost fails: { Self → Self → Type 0 };

    /// Writes some bytes from the front of these and returns their number.
    ///
    /// # Errors
    ///
    /// `Broken` if that fails. It then takes none.
    fn write(&mut self, bytes: &[u8]) -> Result<usize, Broken>
        ensures bound { WritesAtMost result bytes.now }
        ensures bytes { WriteAppends (contents self.old) (contents self.new) result bytes.now }
        ensures writes { IfOk result (λ n. writes self.old self.new bytes.now n) }
        ensures failed { OnErr result (fails self.old self.new) };
}
