//! Sources and sinks of bytes, which count their failures.
ghost use Rattle.std.specs.Prelude.{List, ℕ, Option, length, take, IfOk, OnErr};
ghost use Rattle.byte_streams.specs.Streams.{Puts, Takes, Writes};

/// A read or a write failed.
#[derive(Clone, Copy, Debug, PartialEq, Eq)]
pub struct Broken;

/// A source of bytes.
pub trait Source {
    /// The bytes that it gives until its end, if they are known.
    ghost remaining: { Self → Option (List ℕ) };

    /// The number of calls that failed so far. It stays at 2^64 - 1.
    ghost failures: { Self → ℕ };

    /// One call of what it reads from was to give up to so many bytes, and gave these.
    ghost gives: { Self → Self → ℕ → List ℕ → Type 0 };

    /// One call of what it reads from failed.
    ghost fails: { Self → Self → Type 0 };

    /// Puts the next bytes at the front of `room` and returns their number, which is 0 only at the
    /// end or if `room` is empty. At `Broken`, which is not an end, it gives none of its bytes.
    fn take(&mut self, room: &mut [u8]) -> Result<usize, Broken>
        ensures moves { Takes (remaining self.old) (remaining self.new) (failures self.old) (failures self.new) result room.new }
        ensures gives { IfOk result (λ n. gives self.old self.new (length room.old) (take n room.new)) }
        ensures failed { OnErr result (fails self.old self.new) };
}

/// A sink of bytes.
pub trait Sink {
    /// The bytes that it has taken, if they are known.
    ghost contents: { Self → Option (List ℕ) };

    /// The number of calls that failed so far. A call that takes none of some bytes fails too. It
    /// stays at 2^64 - 1.
    ghost failures: { Self → ℕ };

    /// One call of what it writes to was offered these bytes, and took so many from their front.
    ghost takes: { Self → Self → List ℕ → ℕ → Type 0 };

    /// One call of what it writes to failed.
    ghost fails: { Self → Self → Type 0 };

    /// Takes some bytes from the front of these and returns their number. At `Broken` it takes
    /// none.
    fn put(&mut self, bytes: &[u8]) -> Result<usize, Broken>
        ensures moves { Puts (contents self.old) (contents self.new) (failures self.old) (failures self.new) result bytes.now }
        ensures takes { IfOk result (λ n. takes self.old self.new bytes.now n) }
        ensures failed { OnErr result (fails self.old self.new) };
}

/// Writes all of the bytes to the sink. Returns `Broken` only if the sink failed, once and after it
/// took a prefix of them.
pub fn put_all<W: Sink>(sink: &mut W, bytes: &[u8]) -> Result<(), Broken>
    ensures { Writes (W.contents sink.old) (W.contents sink.new) (W.failures sink.old) (W.failures sink.new) result bytes.now }
{
    let mut count = 0;
    while count < bytes.len() {
        let taken = sink.put(&bytes[count..])?;
        if taken == 0 {
            return Err(Broken);
        }
        count += taken;
    }
    Ok(())
}
