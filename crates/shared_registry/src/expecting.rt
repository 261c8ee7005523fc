//! Acts on a request only if its line is the one that is expected.

ghost use Rattle.std.specs.Prelude.{◌≡◌, None, IfErr, OnOk};
ghost use Rattle.sqlite.specs.State.{HasCleanDisk};
ghost use Rattle.registry_rules.specs.History.{History};
ghost use Rattle.registry_store.specs.Promise.{Endures, NotesForeign, Represents, is_poisoned, state_of};
ghost use Rattle.shared_registry.specs.Lines.{Continues, ContinuesBy, IsStoppedAtLine, LeadsToLine, fault_in_call, stop_for};

use crate::line::line_of;
use crate::stop::ShareStop;
use registry_rules::{Accepted, Rejection, ReplyText, Request};
use registry_store::{ActStop, Registry, Witness};
use registry_wire::{RecordLine, record_line};
use shared_log::Line;
use sqlite::Alter;
use std::alloc::Global;
use usbnum_core::NoMemory;

/// Expects the line of an accepted request.
#[derive(Drop)]
pub(crate) struct Expected<'l> {
    alloc: Global,
    line: &'l [u8],
    // Whether the line of the request that was shown is this one.
    is_it: Option<bool>,
}

/// Why a request is not the expected one.
#[derive(Clone, Copy, Debug, PartialEq, Eq)]
pub(crate) enum Unexpected {
    /// It has another line.
    Other,
    /// Memory ran out.
    NoMemory,
}

impl<'l> Witness for Expected<'l> {
    ghost use Rattle.shared_registry.specs.Lines.{IsExpected, IsUnexpected};

    type Why = Unexpected;

    ghost saw = { λ old new r text. IsExpected old new r text };

    ghost missed = { λ old new r text why. IsUnexpected old new r text why };

    fn see(&mut self, request: &Request, reply: &ReplyText) -> Result<(), Unexpected> {
        let Ok(line) = line_of(self.alloc, request, reply) else {
            return Err(Unexpected::NoMemory);
        };
        let is_it = line.as_str().as_bytes() == self.line;
        self.is_it = Some(is_it);
        if is_it {
            Ok(())
        } else {
            Err(Unexpected::Other)
        }
    }
}

// Returns what stops at line `n`, whose request is not the expected one.
fn stop_for(why: Unexpected, n: u32) -> ShareStop
    ensures { result ≡ stop_for why n }
{
    match why {
        Unexpected::Other => ShareStop::OtherRecord(n),
        Unexpected::NoMemory => ShareStop::NoMemory,
    }
}

/// Acts on a request if it is new and has this line, which is line `n` of the log.
fn act_if_expected<S: Alter>(
    alloc: Global,
    registry: &mut Registry<S>,
    n: u32,
    line: &[u8],
    request: &Request,
) -> Result<(), ShareStop>
    ensures goes_on { (h : History) → Represents registry.old h → HasCleanDisk (state_of registry.new) → OnOk result (LeadsToLine registry.new h line.now) }
    ensures stopped { (h : History) → Represents registry.old h → HasCleanDisk (state_of registry.new) → IfErr result (IsStoppedAtLine registry.new h line.now (ContinuesBy h request.now line.now) n) }
    ensures notes { NotesForeign registry.old registry.new (fault_in_call result) }
    ensures endures { Endures (state_of registry.old) (state_of registry.new) }
{
    let mut expected = Expected {
        alloc,
        line,
        is_it: None,
    };
    match registry.act_before(request, &mut expected) {
        Ok(_reply) => {
            if expected.is_it.is_some() {
                Ok(())
            } else {
                Err(ShareStop::OtherRecord(n))
            }
        }
        Err(ActStop::Fault(fault)) => Err(ShareStop::Registry(fault)),
        Err(ActStop::Unwitnessed(why)) => Err(stop_for(why, n)),
    }
}

/// Acts on the request of an accepted one, and drops it.
fn act_on<S: Alter>(
    alloc: Global,
    registry: &mut Registry<S>,
    n: u32,
    line: &[u8],
    accepted: Accepted,
) -> Result<(), ShareStop>
    ensures goes_on { (h : History) → Represents registry.old h → HasCleanDisk (state_of registry.new) → OnOk result (LeadsToLine registry.new h line.now) }
    ensures stopped { (h : History) → Represents registry.old h → HasCleanDisk (state_of registry.new) → IfErr result (IsStoppedAtLine registry.new h line.now (ContinuesBy h accepted.request line.now) n) }
    ensures notes { NotesForeign registry.old registry.new (fault_in_call result) }
    ensures endures { Endures (state_of registry.old) (state_of registry.new) }
{
    act_if_expected(alloc, registry, n, line, &accepted.request)
}

/// Acts on line `n` of a log, if the record of the registry goes on with it.
///
/// # Errors
///
/// `OtherRecord` if it does not: it is no line of an accepted request, or its request is not new, or
/// has another line now. Nothing is committed then. `Registry` after a fault of the registry, which
/// poisons it. `NoMemory` if out of memory, and nothing is committed.
pub(crate) fn act_on_line<S: Alter>(
    alloc: Global,
    registry: &mut Registry<S>,
    n: u32,
    line: &Line,
) -> Result<(), ShareStop>
    ensures goes_on { (h : History) → Represents registry.old h → HasCleanDisk (state_of registry.new) → OnOk result (LeadsToLine registry.new h line.now) }
    ensures stopped { (h : History) → Represents registry.old h → HasCleanDisk (state_of registry.new) → IfErr result (IsStoppedAtLine registry.new h line.now (Continues h line.now) n) }
    ensures notes { NotesForeign registry.old registry.new (fault_in_call result) }
    ensures endures { Endures (state_of registry.old) (state_of registry.new) }
{
    match record_line(alloc, line.as_bytes()) {
        Ok(RecordLine::Accepted(accepted, _)) => act_on(
            alloc,
            registry,
            n,
            line.as_bytes(),
            accepted,
        ),
        Ok(RecordLine::Founding(_)) => Err(ShareStop::OtherRecord(n)),
        Err(Rejection::Refused(_)) => Err(ShareStop::OtherRecord(n)),
        Err(Rejection::NoMemory) => Err(ShareStop::NoMemory),
    }
}
