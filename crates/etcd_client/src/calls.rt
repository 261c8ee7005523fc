//! The calls of a log: a message is sent, and its answer read.

ghost use Rattle.std.specs.Prelude.{IfOk, IfErr};
ghost use Rattle.etcd_messages.specs.declared.endpoint.Endpoint.TheVariants as endpoints;
ghost use Rattle.etcd_messages.specs.Answers.{append_reading, page_reading, log_head_reading};
ghost use Rattle.etcd_client.specs.Logs.{append_body, page_body, head_body, Gets, GetsNone};

use crate::fault::CallFault;
use crate::session::Session;
use etcd_messages::{
    Endpoint, append_request, head_request, page_request, read_append, read_head, read_page,
};
use http_exchange::Connection;
use shared_log::{AppendAnswer, HeadAnswer, PageAnswer};
use std::alloc::Global;
use usbnum_core::Slug;

/// The most lines of one page.
const MOST_LINES: u32 = 1_000;

/// Appends a line under a number to the log with this name.
#[tactic(auto, using(crate::proofs::GetsLemmas::got, crate::proofs::GetsLemmas::got_unsent))]
pub(crate) fn append<C: Connection>(
    alloc: Global,
    session: &mut Session<C>,
    name: &Slug,
    n: u32,
    line: &[u8],
) -> Result<AppendAnswer, CallFault>
    ensures ok { IfOk result (Gets C.Connection session.old session.new endpoints.Append (append_body name.now n line.now) (append_reading name.now n)) }
    ensures err { IfErr result (GetsNone C.Connection session.old session.new endpoints.Append (append_body name.now n line.now) (append_reading name.now n)) }
{
    let request = append_request(alloc, name, n, line)?;
    let answer = session.ask(alloc, Endpoint::Append, request.as_str())?;
    Ok(read_append(alloc, name, n, answer.status, &answer.body)?)
}

/// Reads lines of the log with this name, from a number on.
#[tactic(auto, using(crate::proofs::GetsLemmas::got, crate::proofs::GetsLemmas::got_unsent))]
pub(crate) fn page<C: Connection>(
    alloc: Global,
    session: &mut Session<C>,
    name: &Slug,
    n: u32,
) -> Result<PageAnswer, CallFault>
    ensures ok { IfOk result (Gets C.Connection session.old session.new endpoints.Read (page_body name.now n) (page_reading name.now n)) }
    ensures err { IfErr result (GetsNone C.Connection session.old session.new endpoints.Read (page_body name.now n) (page_reading name.now n)) }
{
    let request = page_request(alloc, name, n, MOST_LINES)?;
    let answer = session.ask(alloc, Endpoint::Read, request.as_str())?;
    Ok(read_page(alloc, name, n, answer.status, &answer.body)?)
}

/// Reads the head of the log with this name.
#[tactic(auto, using(crate::proofs::GetsLemmas::got, crate::proofs::GetsLemmas::got_unsent))]
pub(crate) fn head<C: Connection>(
    alloc: Global,
    session: &mut Session<C>,
    name: &Slug,
) -> Result<HeadAnswer, CallFault>
    ensures ok { IfOk result (Gets C.Connection session.old session.new endpoints.Read (head_body name.now) (log_head_reading name.now)) }
    ensures err { IfErr result (GetsNone C.Connection session.old session.new endpoints.Read (head_body name.now) (log_head_reading name.now)) }
{
    let request = head_request(alloc, name)?;
    let answer = session.ask(alloc, Endpoint::Read, request.as_str())?;
    Ok(read_head(alloc, name, answer.status, &answer.body)?)
}
