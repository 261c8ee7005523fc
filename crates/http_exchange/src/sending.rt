//! Makes a connection ready, and writes a request.

ghost use Rattle.std.specs.Prelude.{◌≡◌, ◌≤◌, length, drop, IfErr, OnOk};
ghost use Rattle.http_exchange.specs.declared.fault.ExchangeFault.TheVariants as faults;
ghost use Rattle.http_exchange.specs.Exchanges.{HasWritten, LooksAtKept, IsReady, IsUnready, IsSentWhole, GetsNoAnswer, WriteFails};

use crate::connection::Connection;
use crate::fault::ExchangeFault;
use std::time::Duration;

/// The seconds that connecting, a write or a read may take: without a quorum etcd answers after ten.
const CALL_SECONDS: u64 = 15;

// Returns whether a connection that is kept can be used.
#[tactic(auto, using(crate::proofs::CallLemmas::looks_kept, crate::proofs::CallLemmas::looks_none))]
fn is_usable<C: Connection>(connection: &mut C, kept: bool) -> bool
    ensures { LooksAtKept C.Connection kept connection.old connection.new result }
{
    if kept { connection.rests() } else { false }
}

// Connects anew, unless a connection that is kept can be used.
#[tactic(auto, using(crate::proofs::CallLemmas::ready_kept, crate::proofs::CallLemmas::ready_opened, crate::proofs::CallLemmas::unready))]
fn get_ready<C: Connection>(connection: &mut C, kept: bool) -> Result<(), ExchangeFault>
    ensures ok { OnOk result (IsReady C.Connection kept connection.old connection.new) }
    ensures err { IfErr result (λ fault. (fault ≡ faults.Open) × IsUnready C.Connection kept connection.old connection.new) }
{
    if is_usable(connection, kept) {
        return Ok(());
    }
    let time = Duration::from_secs(CALL_SECONDS);
    connection.open(time).map_err(|_| ExchangeFault::Open)
}

// Returns the bytes from a place on.
pub(crate) fn bytes_from(bytes: &[u8], at: usize) -> &[u8]
    requires { at ≤ length bytes.now }
    ensures { result.now ≡ drop at bytes.now }
{
    &bytes[at..]
}

// Writes all of the bytes.
#[tactic(auto, using(crate::proofs::CallLemmas::written_none, crate::proofs::CallLemmas::written_on, crate::proofs::CallLemmas::writing_fails, crate::proofs::CallLemmas::writes_none))]
fn write_all<C: Connection>(connection: &mut C, bytes: &[u8]) -> Result<(), ExchangeFault>
    ensures ok { OnOk result (HasWritten C.Connection connection.old bytes.now connection.new (length bytes.now)) }
    ensures err { IfErr result (λ fault. (fault ≡ faults.Write) × WriteFails C.Connection connection.old bytes.now connection.new) }
{
    let mut count = 0;
    'pieces: while count < bytes.len() {
        match connection.write(bytes_from(bytes, count)) {
            Ok(0) => return Err(ExchangeFault::Write),
            Ok(taken) => count += taken,
            Err(_) => return Err(ExchangeFault::Write),
        }
    }
    Ok(())
}

/// Sends a request, on the connection if it is kept, or else on a new one.
#[tactic(auto, using(crate::proofs::CallLemmas::not_opened, crate::proofs::CallLemmas::not_written, crate::proofs::CallLemmas::sent))]
pub(crate) fn send<C: Connection>(
    connection: &mut C,
    kept: bool,
    request: &[u8],
) -> Result<(), ExchangeFault>
    ensures ok { OnOk result (IsSentWhole C.Connection kept connection.old request.now connection.new) }
    ensures err { IfErr result (GetsNoAnswer C.Connection kept connection.old request.now connection.new) }
{
    get_ready(connection, kept)?;
    write_all(connection, request)
}
