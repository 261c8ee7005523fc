//! Gathers small writes, so that the sink is called once for many of them.
ghost use Rattle.std.specs.Prelude.{◌≡◌, [], ◌++◌, OnOk, true, false};
ghost use Rattle.usbids_text.specs.Gathering.{Gathers};

use arrayvec::ArrayVec;
use byte_streams::{Broken, Sink, put_all};

/// The bytes that wait for the sink.
#[derive(Drop)]
pub struct Waiting {
    /// The bytes, in order.
    pub bytes: ArrayVec<u8, 4096>,
}

/// Writes all waiting bytes to the sink.
pub fn pour<W: Sink>(sink: &mut W, waiting: &mut Waiting) -> Result<(), Broken>
    ensures gathers { Gathers (W.contents sink.old) waiting.old.bytes.items (W.contents sink.new) waiting.new.bytes.items (W.failures sink.old) (W.failures sink.new) result [] }
    ensures empty { OnOk result (waiting.new.bytes.items ≡ []) }
{
    put_all(sink, waiting.bytes.as_slice())?;
    waiting.bytes.clear();
    Ok(())
}

// Adds the bytes to the waiting ones if there is room, and returns whether there is.
fn keeps(waiting: &mut Waiting, bytes: &[u8]) -> bool
    ensures kept { result ≡ true → waiting.new.bytes.items ≡ waiting.old.bytes.items ++ bytes.now }
    ensures same { result ≡ false → waiting.new.bytes.items ≡ waiting.old.bytes.items }
{
    waiting.bytes.try_extend_from_slice(bytes).is_ok()
}

// Writes the waiting bytes to the sink. The new bytes wait if there is room then, or are written
// too.
fn make_room<W: Sink>(sink: &mut W, waiting: &mut Waiting, bytes: &[u8]) -> Result<(), Broken>
    ensures { Gathers (W.contents sink.old) waiting.old.bytes.items (W.contents sink.new) waiting.new.bytes.items (W.failures sink.old) (W.failures sink.new) result bytes.now }
{
    pour(sink, waiting)?;
    if keeps(waiting, bytes) {
        return Ok(());
    }
    put_all(sink, bytes)
}

/// Writes the bytes after the waiting ones.
pub fn gather<W: Sink>(sink: &mut W, waiting: &mut Waiting, bytes: &[u8]) -> Result<(), Broken>
    ensures { Gathers (W.contents sink.old) waiting.old.bytes.items (W.contents sink.new) waiting.new.bytes.items (W.failures sink.old) (W.failures sink.new) result bytes.now }
{
    if keeps(waiting, bytes) {
        return Ok(());
    }
    make_room(sink, waiting, bytes)
}

/// Writes the three parts in order.
pub fn gather_three<W: Sink>(
    sink: &mut W,
    waiting: &mut Waiting,
    first: &[u8],
    second: &[u8],
    third: &[u8],
) -> Result<(), Broken>
    ensures { Gathers (W.contents sink.old) waiting.old.bytes.items (W.contents sink.new) waiting.new.bytes.items (W.failures sink.old) (W.failures sink.new) result (first.now ++ (second.now ++ third.now)) }
{
    gather(sink, waiting, first)?;
    gather(sink, waiting, second)?;
    gather(sink, waiting, third)
}
