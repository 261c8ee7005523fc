//! What the program prints: replies, and why it rejects an input or fails.

ghost use Rattle.std.specs.Prelude.{◌≡◌, ◌≢◌, ◌⊎◌, IfErr, IfOk, OnOk, OnErr, Err, map};
ghost use Rattle.std.specs.String.{string_bytes};
ghost use Rattle.std.specs.Io.KnownBytes.{Appends};
ghost use Rattle.byte_streams.specs.Streams.{AppendsPrefix};
ghost use Rattle.registry_commands.specs.Ends.{output_of};
ghost use Rattle.registry_commands.specs.Failures.{IsOfOutput, Prints};
ghost use Rattle.registry_commands.specs.Messages.{bad_line_text, failure_line, failure_of, input_failure, refusal_line, reply_line, shown};

use crate::input::ReadAllFault;
use crate::lines::BadLine;
use crate::status::ExitStatus;
use byte_streams::{Broken, Sink, put_all};
use registry_rules::Reply;
use registry_store::Fault;
use registry_wire::{WireRefusal, refusal_json, reply_json};
use sqlite::{Error, ErrorCode};
use std::alloc::{AllocError, Global};
use usbnum_core::NoMemory;

/// Why a command fails.
#[derive(Clone, Copy, Debug, PartialEq, Eq)]
pub enum Failure {
    /// The store refused or failed.
    Store,
    /// Out of memory.
    Memory,
    /// The store holds no registry.
    Foreign,
    /// The store already holds a registry.
    Taken,
    /// The registry is poisoned: it had a fault before.
    Poisoned,
    /// An input or the output failed.
    File,
}

impl Failure {
    ghost use Rattle.std.specs.Prelude.{◌≡◌};
    ghost use Rattle.registry_commands.specs.Messages.{failure_line};

    /// Returns the message for this failure, as a line.
    pub fn line(self) -> &'static str
        ensures { result.now ≡ failure_line self }
    {
        match self {
            Failure::Store => "fault: store\n",
            Failure::Memory => "fault: memory\n",
            Failure::Foreign => "fault: foreign\n",
            Failure::Taken => "fault: taken\n",
            Failure::Poisoned => "fault: spent\n",
            Failure::File => "fault: file\n",
        }
    }
}

/// Returns the failure for a fault of the registry.
pub fn failure_of(fault: Fault) -> Failure
    ensures { result ≡ failure_of fault }
{
    match fault {
        Fault::Store => Failure::Store,
        Fault::NoMemory => Failure::Memory,
        Fault::Foreign => Failure::Foreign,
        Fault::Taken => Failure::Taken,
        Fault::Poisoned => Failure::Poisoned,
    }
}

impl From<Fault> for Failure {
    ghost use Rattle.std.specs.Prelude.{◌≡◌};
    ghost use Rattle.registry_commands.specs.Messages.{failure_of};

    ghost from_gives = { λ fault failure. failure ≡ failure_of fault };

    fn from(fault: Fault) -> Failure {
        failure_of(fault)
    }
}

impl From<NoMemory> for Failure {
    ghost use Rattle.std.specs.Prelude.{◌≡◌};
    ghost use Rattle.registry_commands.specs.declared.messages.Failure.TheVariants.{Memory};

    ghost from_gives = { λ _ failure. failure ≡ Memory };

    fn from(_error: NoMemory) -> Failure {
        Failure::Memory
    }
}

impl From<AllocError> for Failure {
    ghost use Rattle.std.specs.Prelude.{◌≡◌};
    ghost use Rattle.registry_commands.specs.declared.messages.Failure.TheVariants.{Memory};

    ghost from_gives = { λ _ failure. failure ≡ Memory };

    fn from(_error: AllocError) -> Failure {
        Failure::Memory
    }
}

impl From<Broken> for Failure {
    ghost use Rattle.std.specs.Prelude.{◌≡◌};
    ghost use Rattle.registry_commands.specs.declared.messages.Failure.TheVariants.{File};

    ghost from_gives = { λ _ failure. failure ≡ File };

    fn from(_error: Broken) -> Failure {
        Failure::File
    }
}

/// Returns the failure for an error of the store: `Memory` if it is out of memory, else `Store`.
pub fn store_failure(error: Error) -> Failure
    ensures { ((result ≡ Failure.Memory) × (error ≡ Error.SqliteFailure ErrorCode.OutOfMemory))
        ⊎ ((result ≡ Failure.Store) × (error ≢ Error.SqliteFailure ErrorCode.OutOfMemory)) }
{
    match error {
        Error::SqliteFailure(ErrorCode::OutOfMemory) => Failure::Memory,
        _ => Failure::Store,
    }
}

/// Returns the failure for a fault of an input.
pub fn input_failure(fault: ReadAllFault) -> Failure
    ensures { result ≡ input_failure fault }
{
    match fault {
        ReadAllFault::File => Failure::File,
        ReadAllFault::NoMemory => Failure::Memory,
    }
}

/// Returns a reply as a line.
#[tactic(auto, unfolding(crate::specs::Messages::reply_line))]
pub(crate) fn reply_line(alloc: Global, reply: &Reply) -> Result<String, NoMemory>
    ensures { IfOk result (λ line. string_bytes line ≡ reply_line reply.now) }
{
    let mut line = reply_json(alloc, reply)?;
    line.push_str("\n")?;
    Ok(line)
}

/// Returns a line that says why bytes are not a request, a founding file or a list.
#[tactic(auto, unfolding(crate::specs::Messages::refusal_line))]
pub(crate) fn refusal_line(alloc: Global, refusal: WireRefusal) -> Result<String, NoMemory>
    ensures { IfOk result (λ line. string_bytes line ≡ refusal_line refusal) }
{
    let mut line = refusal_json(alloc, refusal)?;
    line.push_str("\n")?;
    Ok(line)
}

/// Returns a line that says which line is not a request, and why.
#[tactic(auto, unfolding(crate::specs::Messages::bad_line_text))]
pub(crate) fn bad_line_text(alloc: Global, bad: BadLine) -> Result<String, NoMemory>
    ensures { IfOk result (λ text. string_bytes text ≡ bad_line_text bad) }
{
    let number = bad.number;
    let line = refusal_line(alloc, bad.refusal)?;
    Ok(format!(in alloc; "line {number}: {line}")?)
}

/// Returns a byte as it is shown.
fn shown(byte: u8) -> u8
    ensures { result ≡ shown byte }
{
    if byte < 32 || byte == 127 { b'?' } else { byte }
}

/// Returns bytes as they are shown, in one line: with a question mark for each control character.
pub fn shown_bytes(alloc: Global, bytes: &[u8]) -> Result<Vec<u8>, NoMemory>
    ensures { IfOk result (λ list. list.items ≡ map shown bytes.now) }
{
    let mut list = Vec::new(alloc);
    for byte in bytes {
        list.push(shown(*byte))?;
    }
    Ok(list)
}

/// Writes bytes to the error output: all of them, or a prefix if the error output fails.
pub fn tell_bytes<E: Sink>(errors: &mut E, bytes: &[u8])
    ensures told { Prints (output_of E.Sink errors.old errors.new) bytes.now }
{
    match put_all(errors, bytes) {
        Ok(()) => {}
        Err(Broken) => {}
    }
}

/// Writes a text to the error output: all of it, or a prefix if the error output fails.
pub fn tell<E: Sink>(errors: &mut E, text: &str)
    ensures told { Prints (output_of E.Sink errors.old errors.new) text.now }
{
    tell_bytes(errors, text.as_bytes());
}

/// Prints why the command fails, and returns the exit status. The error output gets the whole line,
/// or a prefix of it if it fails.
pub fn fail<E: Sink>(errors: &mut E, failure: Failure) -> ExitStatus
    ensures status { result ≡ ExitStatus.Failed }
    ensures told { Prints (output_of E.Sink errors.old errors.new) (failure_line failure) }
{
    tell(errors, failure.line());
    ExitStatus::Failed
}

/// Writes a reply as a line.
///
/// Returns `File` if the output failed: a prefix of the line, perhaps an empty one, was written.
/// Returns `Memory` if out of memory for the line: nothing was written.
pub fn put_reply<W: Sink>(alloc: Global, output: &mut W, reply: &Reply) -> Result<(), Failure>
    ensures ok { OnOk result (Appends (W.contents output.old) (W.contents output.new) (reply_line reply.now)) }
    ensures err { OnErr result (AppendsPrefix (W.contents output.old) (W.contents output.new) (reply_line reply.now)) }
    ensures kept { OnOk result (W.failures output.new ≡ W.failures output.old) }
    ensures short { result ≡ Err Failure.Memory → output.new ≡ output.old }
    ensures failure { IfErr result (λ failure. ((failure ≡ Failure.Memory) ⊎ (failure ≡ Failure.File)) × IsOfOutput (W.failures output.old) (W.failures output.new) failure) }
{
    let line = reply_line(alloc, reply)?;
    put_all(output, line.as_bytes())?;
    Ok(())
}
