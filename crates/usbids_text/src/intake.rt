//! Feeds a text to a consumer in pieces, from a source.
ghost use Rattle.std.specs.Prelude.{◌≡◌, ◌⊎◌, ◌<◌, ◌≤◌, ◌++◌, ℕ, List, length, IfOk, OnOk, OnErr};
ghost use Rattle.std.specs.Io.KnownBytes.{Consumes, IsAtEnd};
ghost use Rattle.byte_streams.specs.Streams.{FailsOnce, MayGive, most_bytes};

use byte_streams::{Broken, Source};

/// The most bytes that a text may have.
const MOST: usize = 4_294_967_295;

/// A consumer of a text in pieces.
pub trait Intake {
    /// What to look for in the text.
    type Wanted;

    /// It looks for this and was fed exactly these bytes, or it has run out of memory and stays so.
    ghost was_fed: { Self → Self.Wanted → List ℕ → Type 0 };

    /// Takes the next piece of the text.
    fn take_in(&mut self, piece: &[u8])
        ensures { (wanted : Self.Wanted) (t : List ℕ) → was_fed self.old wanted t → was_fed self.new wanted (t ++ piece.now) };
}

/// Feeds the next bytes of the source, and returns their number, which is 0 only at the end.
fn feed_next<R: Source, I: Intake>(
    source: &mut R,
    intake: &mut I,
    room: &mut [u8],
) -> Result<usize, Broken>
    requires { 0 < length room.old }
    ensures ok { IfOk result (λ n. (more : List ℕ) × ((wanted : I.Wanted) (t : List ℕ) → I.was_fed intake.old wanted t → I.was_fed intake.new wanted (t ++ more)) × (length more ≡ n)
        × Consumes (R.remaining source.old) (R.remaining source.new) more × (n ≡ 0 → IsAtEnd (R.remaining source.new)) × (R.failures source.new ≡ R.failures source.old)) }
    ensures room { length room.new ≡ length room.old }
    ensures within { IfOk result (λ n. n ≤ length room.old) }
    ensures failed { OnErr result (FailsOnce (R.failures source.old) (R.failures source.new)) }
{
    let count = source.take(room)?;
    intake.take_in(&room[..count]);
    Ok(count)
}

/// Feeds all bytes of the source, also those after a faulty line. Returns `Broken` only if a read
/// failed, the last one, or if none failed and the source has more than 4,294,967,295 bytes.
pub fn feed_all<R: Source, I: Intake>(
    source: &mut R,
    intake: &mut I,
    room: &mut [u8],
) -> Result<(), Broken>
    requires { 0 < length room.old }
    ensures ok { OnOk result ((bytes : List ℕ) × MayGive (R.remaining source.old) bytes × (length bytes ≤ most_bytes)
        × ((wanted : I.Wanted) (t : List ℕ) → I.was_fed intake.old wanted t → I.was_fed intake.new wanted (t ++ bytes))) }
    ensures kept { OnOk result (R.failures source.new ≡ R.failures source.old) }
    ensures err { OnErr result ((bytes : List ℕ) × MayGive (R.remaining source.old) bytes × (FailsOnce (R.failures source.old) (R.failures source.new)
        ⊎ ((most_bytes < length bytes) × (R.failures source.new ≡ R.failures source.old)))) }
{
    let mut total = 0usize;
    while total <= MOST {
        let count = feed_next(source, intake, room)?;
        if count == 0 {
            return Ok(());
        }
        total += count;
    }
    Err(Broken)
}
