//! Messages, also from a source that fails.

use crate::ends::Drip;
use crate::responses::refusal_text;
use byte_streams::{Inlet, Source};
use registry_http::{Message, MessageFault, Query, Routes, read_message};
use registry_reports::ReportKind;
use registry_rules::Request;
use row_records::canonical;
use row_texts::{RowFault, text_of};
use std::alloc::Global;
use usbnum_core::{Pid, Vid};

fn number_text(alloc: Global, vendor: Option<Vid>, pid: Pid) -> Result<Vec<u8>, RowFault> {
    match vendor {
        Some(vid) => Ok(format!(in alloc; "number {vid}:{pid}")?.into_bytes()),
        None => Ok(format!(in alloc; "number {pid}")?.into_bytes()),
    }
}

fn report_text(alloc: Global, report: ReportKind) -> Result<Vec<u8>, RowFault> {
    match report {
        ReportKind::Census => text_of(alloc, "census"),
        ReportKind::Holders => text_of(alloc, "holders"),
        ReportKind::Petitions => text_of(alloc, "petitions"),
        ReportKind::Numbers => text_of(alloc, "numbers"),
        ReportKind::Organisations => text_of(alloc, "organisations"),
    }
}

fn query_text(alloc: Global, query: &Query) -> Result<Vec<u8>, RowFault> {
    match query {
        Query::List => text_of(alloc, "list"),
        Query::Number { vendor, pid } => number_text(alloc, *vendor, *pid),
        Query::Org(org) => Ok(format!(in alloc; "organisation {org}")?.into_bytes()),
        Query::Petition(id) => Ok(format!(in alloc; "petition {id}")?.into_bytes()),
        Query::Founding => text_of(alloc, "founding"),
        Query::FirstFounding => text_of(alloc, "first founding"),
        Query::Head => text_of(alloc, "head"),
        Query::History(n) => Ok(format!(in alloc; "history {n}")?.into_bytes()),
        Query::Report(report) => report_text(alloc, *report),
    }
}

// The canonical form of a request, after its time, if it has one.
fn request_text(alloc: Global, request: &Request) -> Result<Vec<u8>, RowFault> {
    match &request.time {
        None => canonical(alloc, request),
        Some(time) => {
            let mut text = format!(in alloc; "at {time} ")?.into_bytes();
            text.extend_from_slice(&canonical(alloc, request)?)?;
            Ok(text)
        }
    }
}

fn said_text(alloc: Global, message: &Message) -> Result<Vec<u8>, RowFault> {
    match message {
        Message::Query(query) => query_text(alloc, query),
        Message::Request(request) => request_text(alloc, request),
    }
}

// Reads a message, and returns the query, the request, or the response to the first fault.
fn read<R: Source>(alloc: Global, source: &mut R, founding: Vid) -> Result<Vec<u8>, RowFault> {
    match read_message(alloc, &mut Routes::new(), source, founding) {
        Ok(message) => said_text(alloc, &message),
        Err(MessageFault::Refused(refusal)) => refusal_text(alloc, refusal),
        Err(MessageFault::Broken) => text_of(alloc, "broken"),
        Err(MessageFault::NoMemory) => Err(RowFault::OutOfMemory),
    }
}

/// Shows what a message says, or the response to its first fault.
pub(crate) fn message(alloc: Global, bytes: &[u8]) -> Result<Vec<u8>, RowFault> {
    read(alloc, &mut Inlet::new(bytes), row_records::vid("1209")?)
}

/// Shows the same of a message that comes byte by byte from a source that then fails, after the
/// count of failures.
pub(crate) fn dripped(alloc: Global, bytes: &[u8]) -> Result<Vec<u8>, RowFault> {
    let founding = row_records::vid("1209")?;
    let mut source = Drip {
        bytes,
        given: 0,
        failures: 0,
    };
    let found = read(alloc, &mut source, founding)?;
    let count = source.failures;
    let mut text = format!(in alloc; "{count} ")?.into_bytes();
    text.extend_from_slice(&found)?;
    Ok(text)
}
