//! What is asked of a connection to etcd. A state of it is known by the calls that led to it, in their
//! order. Times are in nanoseconds.
ghost use Rattle.std.specs.Prelude.{◌≤◌, ℕ, Bool, List, length, take, IfOk, OnErr, OnOk};
ghost use Rattle.std.specs.Duration.{as_nanos};

use byte_streams::Broken;
use std::time::Duration;

/// A connection to etcd that can be opened again.
pub trait Connection {
    /// It was connected anew. The connecting, and each read and write from then on, waits at most this
    /// long.
    ghost opens: { Self → Self → ℕ → Type 0 };

    /// It was closed, if it was open.
    ghost closes: { Self → Self → Type 0 };

    /// It was looked at without waiting: it is open, and no byte is there to be read; or it is not so.
    ghost rests: { Self → Self → Bool → Type 0 };

    /// These bytes were to be written, and so many from their front were.
    ghost writes: { Self → Self → List ℕ → ℕ → Type 0 };

    /// Up to so many bytes were to be read, and these were; none at the end.
    ghost reads: { Self → Self → ℕ → List ℕ → Type 0 };

    /// A call failed.
    ghost fails: { Self → Self → Type 0 };

    /// Connects anew. What was open before is closed. The connecting, and each read and write from then
    /// on, waits at most this long.
    ///
    /// # Errors
    ///
    /// `Broken` if that fails, or takes longer.
    fn open(&mut self, time: Duration) -> Result<(), Broken>
        ensures opens { OnOk result (opens self.old self.new (as_nanos time)) }
        ensures failed { OnErr result (fails self.old self.new) };

    /// Closes the connection, if it is open.
    fn close(&mut self)
        ensures { closes self.old self.new };

    /// Returns whether the connection is open and no byte is there to be read. Does not wait.
    fn rests(&mut self) -> bool
        ensures { rests self.old self.new result };

    /// Writes some bytes from the front of these and returns their number.
    ///
    /// # Errors
    ///
    /// `Broken` if that fails, or takes longer than the limit. It then writes none.
    fn write(&mut self, bytes: &[u8]) -> Result<usize, Broken>
        ensures count { IfOk result (λ n. n ≤ length bytes.now) }
        ensures writes { IfOk result (λ n. writes self.old self.new bytes.now n) }
        ensures failed { OnErr result (fails self.old self.new) };

    /// Reads the next bytes into the front of `room` and returns their number, which is 0 only at the
    /// end or if `room` is empty.
    ///
    /// # Errors
    ///
    /// `Broken` if that fails, or takes longer than the limit. It then gives none of its bytes.
    fn read(&mut self, room: &mut [u8]) -> Result<usize, Broken>
        ensures count { IfOk result (λ n. n ≤ length room.old) }
        ensures reads { IfOk result (λ n. reads self.old self.new (length room.old) (take n room.new)) }
        ensures failed { OnErr result (fails self.old self.new) };
}
