//! Checks a founding file: whether it is one, and has only keys of a founding.

ghost use Rattle.std.specs.Prelude.{◌≡◌, ◌++◌, ◌⊎◌, ℕ, List, IfOk, OnOk, Ok};
ghost use Rattle.byte_streams.specs.Streams.{MayGive};
ghost use Rattle.toml.specs.Data.{Members};
ghost use Rattle.toml.specs.View.{table_view};
ghost use Rattle.registry_wire.specs.Founding.{table_of};
ghost use Rattle.registry_commands.specs.Ends.{output_of};
ghost use Rattle.registry_commands.specs.Failures.{IsOfInput, IsOfMemory, IsTooLong, PrintsFailure, TellsFailedReads};
ghost use Rattle.registry_commands.specs.Keys.{IsFoundingChecked, SaysKeys, SaysKeysOf, has_unknown_key, is_known_key, key_line, key_lines};

use crate::found::founding_in;
use crate::input::read_all;
use crate::messages::{Failure, fail, input_failure, shown_bytes, tell_bytes};
use crate::status::ExitStatus;
use byte_streams::{Sink, Source};
use std::alloc::Global;
use toml::Table;
use usbnum_core::NoMemory;

/// Returns whether a founding has a key of this name. Other keys of a founding file are ignored.
#[tactic(auto, unfolding(crate::specs::Keys::is_known_key))]
pub fn is_known_key(key: &str) -> bool
    ensures { result ≡ is_known_key key.now }
{
    key == "vendor" || key == "name" || key == "curators" || key == "licences" || key == "fixed"
}

/// Appends the line for a key, if no founding has it.
fn push_key(alloc: Global, text: &mut Vec<u8>, key: &str) -> Result<(), NoMemory>
    ensures { OnOk result (text.new.items ≡ text.old.items ++ key_line key.now) }
{
    if is_known_key(key) {
        return Ok(());
    }
    let shown = shown_bytes(alloc, key.as_bytes())?;
    text.extend_from_slice("unknown key: ".as_bytes())?;
    text.extend_from_slice(&shown)?;
    text.extend_from_slice("\n".as_bytes())?;
    Ok(())
}

/// Returns a line for each key of a table that no founding has.
fn key_lines(alloc: Global, table: &Table) -> Result<Vec<u8>, NoMemory>
    ensures { IfOk result (λ text. text.items ≡ key_lines (table_view table.now)) }
{
    let mut text = Vec::new(alloc);
    for (key, _value) in table {
        push_key(alloc, &mut text, key.as_str())?;
    }
    Ok(text)
}

/// Prints these lines, if there are any, and returns the exit status.
fn tell_lines<E: Sink>(lines: &[u8], errors: &mut E) -> ExitStatus
    ensures { (table : Members) → lines.now ≡ key_lines table
        → SaysKeys table (has_unknown_key table) (output_of E.Sink errors.old errors.new) result }
{
    if lines.is_empty() {
        ExitStatus::Success
    } else {
        tell_bytes(errors, lines);
        ExitStatus::Rejected
    }
}

/// Says which keys of a table no founding has, and returns the exit status.
fn tell_keys<E: Sink>(alloc: Global, table: &Table, errors: &mut E) -> ExitStatus
    ensures { SaysKeys (table_view table.now) (has_unknown_key (table_view table.now)) (output_of E.Sink errors.old errors.new) result
        ⊎ ((result ≡ ExitStatus.Failed) × PrintsFailure IsOfMemory (output_of E.Sink errors.old errors.new)) }
{
    match key_lines(alloc, table) {
        Ok(lines) => tell_lines(lines.as_slice(), errors),
        Err(NoMemory) => fail(errors, Failure::Memory),
    }
}

/// The same of bytes that list a founding. They are TOML, so reading them fails for memory alone.
fn check_keys<E: Sink>(alloc: Global, bytes: &[u8], errors: &mut E) -> ExitStatus
    ensures { SaysKeysOf (table_of bytes.now) (output_of E.Sink errors.old errors.new) result
        ⊎ ((result ≡ ExitStatus.Failed) × PrintsFailure IsOfMemory (output_of E.Sink errors.old errors.new)) }
{
    match toml::table_from_slice(alloc, bytes) {
        Ok(table) => tell_keys(alloc, &table, errors),
        Err(_) => fail(errors, Failure::Memory),
    }
}

/// Checks the bytes of a founding file, and returns the exit status.
fn check_bytes<E: Sink>(alloc: Global, bytes: &[u8], errors: &mut E) -> ExitStatus
    ensures { IsFoundingChecked IsOfMemory bytes.now (output_of E.Sink errors.old errors.new) result }
{
    match founding_in(alloc, bytes, errors) {
        Ok(_) => check_keys(alloc, bytes, errors),
        Err(status) => status,
    }
}

/// Checks the founding file that a source gives, and returns the exit status. Founds nothing.
///
/// The status is `Success` if a registry would be founded by it, and each of its keys is one of a
/// founding. It is `Rejected` if the input is not a founding file, of which the error output says
/// why as for a founding; and if it has other keys, which a founding ignores: the error output has
/// a line for each. It is `Failed` if the source failed, memory ran out, or the input has more than
/// 4,294,967,295 bytes.
pub fn check_founding<R: Source, E: Sink>(
    alloc: Global,
    source: &mut R,
    errors: &mut E,
) -> ExitStatus
    ensures { (bytes : List ℕ) × MayGive (R.remaining source.old) bytes
        × IsFoundingChecked (IsOfInput (R.failures source.old) (R.failures source.new) bytes) bytes (output_of E.Sink errors.old errors.new) result
        × (IsTooLong bytes → (result ≡ ExitStatus.Failed) × PrintsFailure (IsOfInput (R.failures source.old) (R.failures source.new) bytes) (output_of E.Sink errors.old errors.new))
        × TellsFailedReads (result ≡ ExitStatus.Failed) (output_of E.Sink errors.old errors.new) (R.failures source.old) (R.failures source.new) bytes }
{
    match read_all(alloc, source) {
        Ok(bytes) => check_bytes(alloc, bytes.as_slice(), errors),
        Err(fault) => fail(errors, input_failure(fault)),
    }
}
