//! Calls of a log over a connection in memory, and what they answer. A row has the name of the log, with an at sign and a
//! password if a user of this name logs in, the calls, with a semicolon between two, and the steps of the connection. A call
//! is `h` for a read of the head, `p` and a number for a read of lines, and `a`, a number, an equals sign and a line for an
//! append.

use crate::script::Script;
use etcd_client::{CallFault, EtcdLog, Host, User};
use etcd_messages::AnswerFault;
use row_texts::{RowFault, cut, number_of, text_of};
use shared_log::{AppendAnswer, HeadAnswer, Line, Log, LogFault, PageAnswer};
use std::alloc::Global;
use usbnum_core::Slug;

fn push_lines(text: &mut Vec<u8>, lines: &[Line]) -> Result<(), RowFault> {
    for line in lines {
        text.push(b'/')?;
        text.extend_from_slice(line.as_bytes())?;
    }
    Ok(())
}

fn append_text(alloc: Global, answer: &AppendAnswer) -> Result<Vec<u8>, RowFault> {
    match answer {
        AppendAnswer::Appended => text_of(alloc, "appended"),
        AppendAnswer::Behind => text_of(alloc, "behind"),
        AppendAnswer::Taken(line) => {
            let mut text = text_of(alloc, "taken:")?;
            text.extend_from_slice(line.as_bytes())?;
            Ok(text)
        }
    }
}

fn page_text(alloc: Global, page: &PageAnswer) -> Result<Vec<u8>, RowFault> {
    let mut text = text_of(alloc, if page.more { "more" } else { "all" })?;
    push_lines(&mut text, page.lines.as_slice())?;
    Ok(text)
}

fn head_text(alloc: Global, head: &HeadAnswer) -> Result<Vec<u8>, RowFault> {
    let mut text = format!(in alloc; "{}", head.count)?.into_bytes();
    if let Some(line) = &head.last {
        text.push(b':')?;
        text.extend_from_slice(line.as_bytes())?;
    }
    Ok(text)
}

fn log_fault_name(fault: LogFault) -> &'static str {
    match fault {
        LogFault::NoQuorum => "no quorum",
        LogFault::Unreachable => "unreachable",
        LogFault::Refused => "refused",
        LogFault::BadAnswer => "bad answer",
        LogFault::NoMemory => "no memory",
    }
}

fn answer_fault_name(fault: AnswerFault) -> &'static str {
    match fault {
        AnswerFault::NoQuorum => "no quorum",
        AnswerFault::BadToken => "bad token",
        AnswerFault::Forbidden => "forbidden",
        AnswerFault::BadLogin => "bad login",
        AnswerFault::BadStatus(_) => "bad status",
        AnswerFault::TooLong => "answer too long",
        AnswerFault::BadJson => "bad json",
        AnswerFault::BadMember(_) => "bad member",
    }
}

fn call_fault_name(fault: Option<CallFault>) -> &'static str {
    match fault {
        None => "none",
        Some(CallFault::Open) => "open",
        Some(CallFault::Write) => "write",
        Some(CallFault::Read) => "read",
        Some(CallFault::Ended) => "ended",
        Some(CallFault::BadMessage) => "bad message",
        Some(CallFault::TooLong) => "too long",
        Some(CallFault::Answer(fault)) => answer_fault_name(fault),
        Some(CallFault::NoMemory) => "no memory",
    }
}

// Shows a fault, and its cause.
fn fault_text(
    alloc: Global,
    fault: LogFault,
    cause: Option<CallFault>,
) -> Result<Vec<u8>, RowFault> {
    let mut text = text_of(alloc, log_fault_name(fault))?;
    text.extend_from_slice(b", ")?;
    text.extend_from_slice(call_fault_name(cause).as_bytes())?;
    Ok(text)
}

fn appended(alloc: Global, log: &mut EtcdLog<Script<'_>>, text: &str) -> Result<Vec<u8>, RowFault> {
    let Some((number, line)) = text.split_once('=') else {
        return Err(RowFault::BadRow);
    };
    match log.append(alloc, number_of(number)?, line.as_bytes()) {
        Ok(answer) => append_text(alloc, &answer),
        Err(fault) => fault_text(alloc, fault, log.fault()),
    }
}

fn read(alloc: Global, log: &mut EtcdLog<Script<'_>>, text: &str) -> Result<Vec<u8>, RowFault> {
    match log.page(alloc, number_of(text)?) {
        Ok(page) => page_text(alloc, &page),
        Err(fault) => fault_text(alloc, fault, log.fault()),
    }
}

fn looked(alloc: Global, log: &mut EtcdLog<Script<'_>>) -> Result<Vec<u8>, RowFault> {
    match log.head(alloc) {
        Ok(head) => head_text(alloc, &head),
        Err(fault) => fault_text(alloc, fault, log.fault()),
    }
}

fn called(alloc: Global, log: &mut EtcdLog<Script<'_>>, call: &str) -> Result<Vec<u8>, RowFault> {
    if call == "h" {
        return looked(alloc, log);
    }
    match call.split_once(' ') {
        Some(("a", text)) => appended(alloc, log, text),
        Some(("p", text)) => read(alloc, log, text),
        _ => Err(RowFault::BadRow),
    }
}

fn user_of(alloc: Global, name: &str, password: &str) -> Result<User, RowFault> {
    Ok(User::new(
        String::from_str(alloc, name)?,
        String::from_str(alloc, password)?,
    ))
}

// Returns the name of the log, without the password.
fn name_in(text: &str) -> &str {
    match text.split_once('@') {
        Some((name, _)) => name,
        None => text,
    }
}

// Returns the user who logs in, if there is a password.
fn user_in(alloc: Global, text: &str) -> Result<Option<User>, RowFault> {
    match text.split_once('@') {
        Some((name, password)) => Ok(Some(user_of(alloc, name, password)?)),
        None => Ok(None),
    }
}

// Makes the calls, and returns what they answer.
fn answered(
    alloc: Global,
    log: &mut EtcdLog<Script<'_>>,
    calls: &str,
) -> Result<Vec<u8>, RowFault> {
    let mut text = Vec::new(alloc);
    for call in calls.split(";") {
        text.extend_from_slice(&called(alloc, log, call)?)?;
        text.push(b';')?;
    }
    Ok(text)
}

// Makes the calls of a row, and returns what they answer. What was done with the connection is put behind the bytes.
fn answers_of(alloc: Global, text: &str, done: &mut Vec<u8>) -> Result<Vec<u8>, RowFault> {
    let (head, rest) = cut(text)?;
    let (calls, steps) = cut(rest)?;
    let script = Script::new(alloc, steps, done)?;
    let user = user_in(alloc, head)?;
    let name = Slug::new(alloc, name_in(head).as_bytes())?.ok_or(RowFault::BadRow)?;
    let host = Host::new(alloc, "etcd:2379")?.ok_or(RowFault::BadRow)?;
    let mut log = EtcdLog::new(script, host, name, user);
    answered(alloc, &mut log, calls)
}

/// Shows what the calls of a row answer.
pub(crate) fn answers(alloc: Global, text: &str) -> Result<Vec<u8>, RowFault> {
    let mut done = Vec::new(alloc);
    answers_of(alloc, text, &mut done)
}

/// Shows what was done with the connection.
pub(crate) fn sends(alloc: Global, text: &str) -> Result<Vec<u8>, RowFault> {
    let mut done = Vec::new(alloc);
    let _answers = answers_of(alloc, text, &mut done)?;
    Ok(done)
}
