//! Looks a device up in a list.

ghost use Rattle.std.specs.Prelude.{◌≡◌, ◌++◌, ◌∷◌, [], ℕ, List, IfOk};
ghost use Rattle.byte_streams.specs.Streams.{MayGive};
ghost use Rattle.registry_commands.specs.Ends.{ends_of, output_of};
ghost use Rattle.registry_commands.specs.Failures.{IsOfInput, TellsFailedReads};
ghost use Rattle.registry_commands.specs.LookUp.{TellsFound, IsLookedUp, IsMatched, IsNameWritten, IsListRefused};

use crate::found::reject;
use crate::messages::{Failure, fail, tell};
use crate::printing::print;
use crate::status::ExitStatus;
use byte_streams::{Broken, Sink, Source};
use registry_wire::WireRefusal;
use std::alloc::Global;
use usbids_text::{Name, ReadFault, Scan, feed_all};
use usbnum_core::{NoMemory, Vid};

fn name_line(alloc: Global, name: &Name) -> Result<Vec<u8>, NoMemory>
    ensures { IfOk result (λ line. line.items ≡ name.now ++ 10 ∷ []) }
{
    let mut line = name.as_bytes().to_vec(alloc)?;
    line.push(b'\n')?;
    Ok(line)
}

/// Writes the name as a line, and returns the exit status.
fn put_name<W: Sink, E: Sink>(
    alloc: Global,
    name: &Name,
    output: &mut W,
    errors: &mut E,
) -> ExitStatus
    ensures { IsNameWritten name.now (ends_of W.Sink E.Sink output.old output.new errors.old errors.new result) }
{
    match name_line(alloc, name) {
        Ok(line) => print(output, errors, line.as_slice()),
        Err(NoMemory) => fail(errors, Failure::Memory),
    }
}

/// Prints why the bytes are not a list, and returns the exit status.
pub fn put_fault<E: Sink>(alloc: Global, fault: ReadFault, errors: &mut E) -> ExitStatus
    ensures { IsListRefused fault (output_of E.Sink errors.old errors.new) result }
{
    match fault {
        ReadFault::Line(fault) => reject(alloc, errors, WireRefusal::BadList(fault)),
        ReadFault::NoMemory => fail(errors, Failure::Memory),
    }
}

/// Writes the name that was found, or prints `not found`, and returns the exit status.
fn put_found<W: Sink, E: Sink>(
    alloc: Global,
    found: Option<Name>,
    output: &mut W,
    errors: &mut E,
) -> ExitStatus
    ensures { IsMatched found (ends_of W.Sink E.Sink output.old output.new errors.old errors.new result) }
{
    match found {
        Some(name) => put_name(alloc, &name, output, errors),
        None => {
            tell(errors, "not found\n");
            ExitStatus::Rejected
        }
    }
}

/// Writes what was found, or prints why the bytes are not a list, and returns the exit status.
fn put_answer<W: Sink, E: Sink>(
    alloc: Global,
    found: Result<Option<Name>, ReadFault>,
    output: &mut W,
    errors: &mut E,
) -> ExitStatus
    ensures { TellsFound found (ends_of W.Sink E.Sink output.old output.new errors.old errors.new result) }
{
    match found {
        Ok(found) => put_found(alloc, found, output, errors),
        Err(fault) => put_fault(alloc, fault, errors),
    }
}

/// Writes the name of the first device with this code, in the order of the list, under a vendor
/// with this number, as a line. Reads the list once, in pieces, and builds no document.
///
/// The status is `Success` if the name is written. It is `Rejected` if the list has no such device,
/// or the input is not a list: the error output says which. It is `Failed` after a failure of the
/// source, the output, or memory, which the error output names. An input of more than 4,294,967,295
/// bytes is such a failure.
pub fn look_up<R: Source, W: Sink, E: Sink>(
    alloc: Global,
    source: &mut R,
    vendor: Vid,
    code: u16,
    output: &mut W,
    errors: &mut E,
) -> ExitStatus
    ensures { (bytes : List ℕ) × MayGive (R.remaining source.old) bytes
        × IsLookedUp (IsOfInput (R.failures source.old) (R.failures source.new) bytes) (record { vendor = vendor; code = code }) bytes
        (ends_of W.Sink E.Sink output.old output.new errors.old errors.new result)
        × TellsFailedReads (result ≡ ExitStatus.Failed) (output_of E.Sink errors.old errors.new) (R.failures source.old) (R.failures source.new) bytes }
{
    let mut scan = Scan::new(alloc, vendor, code);
    let mut room = [0u8; 32768];
    match feed_all(source, &mut scan, &mut room) {
        Ok(()) => put_answer(alloc, scan.finish(), output, errors),
        Err(Broken) => fail(errors, Failure::File),
    }
}
