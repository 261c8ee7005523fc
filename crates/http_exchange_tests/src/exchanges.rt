//! Exchanges over a connection in memory, and their answers. A row has the requests, each of which ends in a semicolon, and
//! the steps of the connection. It is kept for the next request as the answer says.

use crate::script::Script;
use http_exchange::{Answer, ExchangeFault, exchange};
use row_texts::{RowFault, cut, text_of};
use std::alloc::Global;

fn fault_name(fault: ExchangeFault) -> &'static str {
    match fault {
        ExchangeFault::Open => "open",
        ExchangeFault::Write => "write",
        ExchangeFault::Read => "read",
        ExchangeFault::Ended => "ended",
        ExchangeFault::BadMessage => "bad message",
        ExchangeFault::TooLong => "too long",
        ExchangeFault::NoMemory => "no memory",
    }
}

fn answer_text(alloc: Global, answer: &Answer) -> Result<Vec<u8>, RowFault> {
    let kept = if answer.keeps { "kept" } else { "closed" };
    let mut text = format!(in alloc; "{} {kept} ", answer.status)?.into_bytes();
    text.extend_from_slice(&answer.body)?;
    Ok(text)
}

// Sends a request, and shows its answer. The connection is kept if the answer says so.
fn exchanged(
    alloc: Global,
    connection: &mut Script<'_>,
    kept: &mut bool,
    request: &str,
) -> Result<Vec<u8>, RowFault> {
    let was_kept = *kept;
    *kept = false;
    match exchange(alloc, connection, was_kept, request.as_bytes()) {
        Ok(answer) => {
            *kept = answer.keeps;
            answer_text(alloc, &answer)
        }
        Err(fault) => text_of(alloc, fault_name(fault)),
    }
}

// Sends the requests of a row, and returns their answers. What was done with the connection is put behind the bytes.
fn answers_of(alloc: Global, text: &str, done: &mut Vec<u8>) -> Result<Vec<u8>, RowFault> {
    let (requests, steps) = cut(text)?;
    let mut connection = Script::new(alloc, steps, done)?;
    let mut kept = false;
    let mut text = Vec::new(alloc);
    for request in requests.split(";") {
        text.extend_from_slice(&exchanged(alloc, &mut connection, &mut kept, request)?)?;
        text.push(b';')?;
    }
    Ok(text)
}

/// Shows the answers to the requests of a row.
pub(crate) fn answers(alloc: Global, text: &str) -> Result<Vec<u8>, RowFault> {
    let mut done = Vec::new(alloc);
    answers_of(alloc, text, &mut done)
}

/// Shows what was done with the connection.
pub(crate) fn calls(alloc: Global, text: &str) -> Result<Vec<u8>, RowFault> {
    let mut done = Vec::new(alloc);
    let _answers = answers_of(alloc, text, &mut done)?;
    Ok(done)
}
