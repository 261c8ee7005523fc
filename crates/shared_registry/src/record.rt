//! The lines of the record of a registry.

ghost use Rattle.std.specs.Prelude.{◌≡◌, ◌≢◌, ◌∷◌, [], true, map, Err, IfErr, IfOk};
ghost use Rattle.sqlite.specs.State.{HasCleanDisk};
ghost use Rattle.registry_rules.specs.History.{History};
ghost use Rattle.registry_laws.specs.Machines.{HasValidFields};
ghost use Rattle.registry_laws.specs.Records.{record_of};
ghost use Rattle.registry_store.specs.Promise.{NotesForeign, Represents, is_poisoned, state_of};
ghost use Rattle.registry_store.specs.Queries.{IsUntouched};
ghost use Rattle.registry_wire.specs.Record.{accepted_line, founding_line};
ghost use Rattle.shared_registry.specs.Lines.{fault_in_call};
ghost use Rattle.shared_registry.specs.Records.{IsNextPart, IsStopOfReading};

use crate::stop::ShareStop;
use registry_rules::{Accepted, Founding};
use registry_store::{Fault, Registry};
use registry_wire::{accepted_line, founding_line};
use shared_log::{Line, Lines};
use sqlite::Alter;
use std::alloc::Global;
use usbnum_core::NoMemory;

/// The most lines that are read at once.
const PIECE: u32 = 1_000;

/// Returns the lines of accepted requests.
fn lines_of(alloc: Global, list: &[Accepted]) -> Result<Lines, NoMemory>
    ensures { IfOk result (λ lines. lines ≡ map accepted_line list.now) }
{
    let mut lines = Lines::new(alloc);
    for accepted in list {
        let line = accepted_line(alloc, accepted)?;
        lines.push(Line::new(line.into_bytes()))?;
    }
    Ok(lines)
}

/// Returns the line of a founding.
fn line_alone(alloc: Global, founding: &Founding) -> Result<Lines, NoMemory>
    ensures { IfOk result (λ lines. lines ≡ founding_line founding.now ∷ []) }
{
    let line = founding_line(alloc, founding)?;
    let mut lines = Lines::new(alloc);
    lines.push(Line::new(line.into_bytes()))?;
    Ok(lines)
}

/// Returns the line of the founding of a registry.
fn first_line<S: Alter>(alloc: Global, registry: &mut Registry<S>) -> Result<Lines, ShareStop>
    ensures ok { (h : History) → Represents registry.old h → HasCleanDisk (state_of registry.new) → IfOk result (λ lines. lines ≡ founding_line h.founding ∷ []) }
    ensures err { (h : History) → Represents registry.old h → HasCleanDisk (state_of registry.new) → IfErr result IsStopOfReading }
    ensures never_ahead { result ≢ Err ShareStop.Ahead }
    ensures when_poisoned { is_poisoned registry.old ≡ true → result ≡ Err (ShareStop.Registry Fault.Poisoned) }
    ensures untouched { IsUntouched registry.old registry.new }
    ensures notes { NotesForeign registry.old registry.new (fault_in_call result) }
{
    let founding = registry.first_founding()?;
    Ok(line_alone(alloc, &founding)?)
}

/// Returns lines of the record of the registry, from line `n` on. If there is one, returns at least
/// one.
pub(crate) fn record_part<S: Alter>(
    alloc: Global,
    registry: &mut Registry<S>,
    n: u32,
) -> Result<Lines, ShareStop>
    ensures ok { (h : History) → Represents registry.old h → HasValidFields h → HasCleanDisk (state_of registry.new) → IfOk result (λ part. IsNextPart (record_of h) n part) }
    ensures err { (h : History) → Represents registry.old h → HasCleanDisk (state_of registry.new) → IfErr result IsStopOfReading }
    ensures never_ahead { result ≢ Err ShareStop.Ahead }
    ensures when_poisoned { is_poisoned registry.old ≡ true → result ≡ Err (ShareStop.Registry Fault.Poisoned) }
    ensures untouched { IsUntouched registry.old registry.new }
    ensures notes { NotesForeign registry.old registry.new (fault_in_call result) }
{
    let Some(before) = n.checked_sub(1) else {
        return first_line(alloc, registry);
    };
    let list = registry.accepted_after(u64::from(before), PIECE)?;
    Ok(lines_of(alloc, &list)?)
}
