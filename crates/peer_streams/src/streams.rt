//! What a server asks of the stream of a connection. A state of a stream is known by the calls that led
//! to it, in their order. Times are in nanoseconds.
ghost use Rattle.std.specs.Prelude.{◌≤◌, ℕ, Bool, length, IfOk, MatchResult, OnErr, OnOk};
ghost use Rattle.std.specs.Duration.{as_nanos};
ghost use Rattle.std.specs.Time.{instant_nanos};

use byte_streams::Broken;
use std::time::{Duration, Instant};

/// The stream of a connection that has come. Nothing was read of it or written to it.
pub trait Arrival {
    /// What reads its message.
    type Reader;

    /// What writes its response.
    type Writer;

    /// Each read now waits at most this long.
    ghost limits_reads: { Self → Self → ℕ → Type 0 };

    /// Each write now waits at most this long.
    ghost limits_writes: { Self → Self → ℕ → Type 0 };

    /// A call failed.
    ghost fails: { Self → Self → Type 0 };

    /// The stream got this reader and this writer.
    ghost splits: { Self → Self.Reader → Self.Writer → Type 0 };

    /// It could not get them.
    ghost fails_to_split: { Self → Type 0 };

    /// Lets each read wait at most this long.
    ///
    /// # Errors
    ///
    /// `Broken` if that fails.
    fn limit_reads(&mut self, time: Duration) -> Result<(), Broken>
        ensures limits { OnOk result (limits_reads self.old self.new (as_nanos time)) }
        ensures failed { OnErr result (fails self.old self.new) };

    /// Lets each write wait at most this long.
    ///
    /// # Errors
    ///
    /// `Broken` if that fails.
    fn limit_writes(&mut self, time: Duration) -> Result<(), Broken>
        ensures limits { OnOk result (limits_writes self.old self.new (as_nanos time)) }
        ensures failed { OnErr result (fails self.old self.new) };

    /// Makes its reader and its writer.
    ///
    /// # Errors
    ///
    /// `Broken` if that fails.
    fn split(self) -> Result<(Self::Reader, Self::Writer), Broken>
        ensures splits { IfOk result (λ ends. splits self ends.0 ends.1) }
        ensures failed { OnErr result (fails_to_split self) };
}

/// The stream of a connection whose response was written, and a clock.
pub trait Peer {
    /// Each read now waits at most this long.
    ghost limits_reads: { Self → Self → ℕ → Type 0 };

    /// A call that finds no bytes now waits for them, or fails.
    ghost waits: { Self → Self → Bool → Type 0 };

    /// Up to the first number of bytes were looked for. The second number of them are there, still to
    /// be read.
    ghost sees: { Self → Self → ℕ → ℕ → Type 0 };

    /// The response was ended.
    ghost ends: { Self → Self → Type 0 };

    /// The clock shows this time.
    ghost tells: { Self → Self → ℕ → Type 0 };

    /// Up to the first number of bytes were to be read. The second number of them were; 0 at the end.
    ghost reads: { Self → Self → ℕ → ℕ → Type 0 };

    /// A call failed.
    ghost fails: { Self → Self → Type 0 };

    /// Lets each read wait at most this long.
    ///
    /// # Errors
    ///
    /// `Broken` if that fails.
    fn limit_reads(&mut self, time: Duration) -> Result<(), Broken>
        ensures limits { OnOk result (limits_reads self.old self.new (as_nanos time)) }
        ensures failed { OnErr result (fails self.old self.new) };

    /// Says whether a call that finds no bytes waits for them, or fails.
    ///
    /// # Errors
    ///
    /// `Broken` if that fails.
    fn set_waiting(&mut self, waiting: bool) -> Result<(), Broken>
        ensures waits { OnOk result (waits self.old self.new waiting) }
        ensures failed { OnErr result (fails self.old self.new) };

    /// Copies the next bytes to the front of `room` and returns their number. A read gives them again.
    ///
    /// # Errors
    ///
    /// `Broken` if that fails.
    fn peek(&mut self, room: &mut [u8]) -> Result<usize, Broken>
        ensures count { IfOk result (λ n. n ≤ length room.old) }
        ensures sees { IfOk result (λ n. sees self.old self.new (length room.old) n) }
        ensures failed { OnErr result (fails self.old self.new) };

    /// Ends the response: the peer reads its end.
    ///
    /// # Errors
    ///
    /// `Broken` if that fails.
    fn end_writing(&mut self) -> Result<(), Broken>
        ensures ends { OnOk result (ends self.old self.new) }
        ensures failed { OnErr result (fails self.old self.new) };

    /// Reads the clock.
    ///
    /// # Errors
    ///
    /// `Broken` if that fails.
    fn now(&mut self) -> Result<Instant, Broken>
        ensures tells { IfOk result (λ now. tells self.old self.new (instant_nanos now)) }
        ensures failed { OnErr result (fails self.old self.new) };

    /// Reads the next bytes into the front of `room` and returns their number, which is 0 only at the
    /// end or if `room` is empty.
    ///
    /// # Errors
    ///
    /// `Broken` if that fails, or takes longer than the limit.
    fn read(&mut self, room: &mut [u8]) -> Result<usize, Broken>
        ensures count { IfOk result (λ n. n ≤ length room.old) }
        ensures reads { IfOk result (λ n. reads self.old self.new (length room.old) n) }
        ensures failed { OnErr result (fails self.old self.new) };
}
