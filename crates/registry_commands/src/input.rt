//! Reads a whole input.

ghost use Rattle.std.specs.Prelude.{Err, Some, ◌≡◌, ◌≤◌, ◌++◌, ℕ, List, length, IfOk, IfErr, OnOk};
ghost use Rattle.std.specs.Io.KnownBytes.{Consumes, IsAtEnd, Keeps};
ghost use Rattle.byte_streams.specs.Streams.{FailsOnce, MayGive, most_bytes};
ghost use Rattle.registry_commands.specs.Failures.{IsOfInput};
ghost use Rattle.registry_commands.specs.Messages.{input_failure, read_all_fault_text};

use byte_streams::{Broken, Source};
use std::alloc::{AllocError, Global};
use std::error::Error;
use std::fmt;
use usbnum_core::NoMemory;

/// The greatest number of bytes that an input may have.
const MOST: usize = 4_294_967_295;

/// Why an input could not be read.
#[derive(Clone, Copy, Debug, PartialEq, Eq)]
pub enum ReadAllFault {
    /// The source failed, or gives more than 4,294,967,295 bytes.
    File,
    /// Out of memory.
    NoMemory,
}

/// The fault in a few words.
impl fmt::Display for ReadAllFault {
    ghost output = { λ fault. Some (read_all_fault_text fault) };

    fn fmt<W: fmt::Write>(&self, f: &mut fmt::Formatter<W>) -> fmt::Result {
        f.write_str(match self {
            ReadAllFault::File => "the input failed or is too long",
            ReadAllFault::NoMemory => "out of memory",
        })
    }
}

impl Error for ReadAllFault {}

impl From<Broken> for ReadAllFault {
    ghost use Rattle.std.specs.Prelude.{◌≡◌};
    ghost use Rattle.registry_commands.specs.declared.input.ReadAllFault.TheVariants.{File};

    ghost from_gives = { λ _ fault. fault ≡ File };

    fn from(_error: Broken) -> ReadAllFault {
        ReadAllFault::File
    }
}

impl From<NoMemory> for ReadAllFault {
    ghost use Rattle.std.specs.Prelude.{◌≡◌};
    ghost use Rattle.registry_commands.specs.declared.input.ReadAllFault.TheVariants.{NoMemory as OutOfMemory};

    ghost from_gives = { λ _ fault. fault ≡ OutOfMemory };

    fn from(_error: NoMemory) -> ReadAllFault {
        ReadAllFault::NoMemory
    }
}

impl From<AllocError> for ReadAllFault {
    ghost use Rattle.std.specs.Prelude.{◌≡◌};
    ghost use Rattle.registry_commands.specs.declared.input.ReadAllFault.TheVariants.{NoMemory as OutOfMemory};

    ghost from_gives = { λ _ fault. fault ≡ OutOfMemory };

    fn from(_error: AllocError) -> ReadAllFault {
        ReadAllFault::NoMemory
    }
}

/// Appends the next bytes of the source, and returns their number, which is 0 only at the end.
pub(crate) fn take_more<R: Source>(
    source: &mut R,
    bytes: &mut Vec<u8>,
) -> Result<usize, ReadAllFault>
    ensures ok { IfOk result (λ n. (more : List ℕ) × (bytes.new.items ≡ bytes.old.items ++ more) × (length more ≡ n)
        × Consumes (R.remaining source.old) (R.remaining source.new) more × (n ≡ 0 → IsAtEnd (R.remaining source.new))
        × (R.failures source.new ≡ R.failures source.old)) }
    ensures file { result ≡ Err ReadAllFault.File → FailsOnce (R.failures source.old) (R.failures source.new) }
    ensures same { result ≡ Err ReadAllFault.File → (bytes.new.items ≡ bytes.old.items) × Keeps (R.remaining source.old) (R.remaining source.new) }
    ensures memory { result ≡ Err ReadAllFault.NoMemory → R.failures source.new ≡ R.failures source.old }
{
    let mut chunk = [0u8; 8192];
    let count = source.take(&mut chunk)?;
    bytes.extend_from_slice(&chunk[..count])?;
    Ok(count)
}

/// Reads all bytes of the source, at most 4,294,967,295. Returns `File` only if the source
/// failed during this call or gives more bytes, and `NoMemory` only if it did not fail.
pub fn read_all<R: Source>(alloc: Global, source: &mut R) -> Result<Vec<u8>, ReadAllFault>
    ensures ok { IfOk result (λ v. MayGive (R.remaining source.old) v.items × (length v.items ≤ most_bytes)) }
    ensures kept { OnOk result (R.failures source.new ≡ R.failures source.old) }
    ensures err { IfErr result (λ fault. (b : List ℕ) × MayGive (R.remaining source.old) b
        × IsOfInput (R.failures source.old) (R.failures source.new) b (input_failure fault)) }
{
    let mut bytes = Vec::new(alloc);
    while bytes.len() <= MOST {
        let count = take_more(source, &mut bytes)?;
        if count == 0 {
            return Ok(bytes);
        }
    }
    Err(ReadAllFault::File)
}
