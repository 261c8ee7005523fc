//! Answers, and what is read of each.

use crate::requests::{name_of, placed};
use etcd_messages::{
    AnswerFault, Unread, error_text, read_append, read_head, read_login, read_page,
};
use row_texts::{RowFault, bytes_of, cut, text_of};
use shared_log::{AppendAnswer, HeadAnswer, Line, PageAnswer};
use std::alloc::Global;

// A status, and the bytes after the bar.
fn message(alloc: Global, text: &str) -> Result<(u16, Vec<u8>), RowFault> {
    let (status, body) = cut(text)?;
    let Ok(status) = status.parse::<u16>() else {
        return Err(RowFault::BadRow);
    };
    Ok((status, bytes_of(alloc, body)?))
}

fn fault_text(alloc: Global, fault: AnswerFault) -> Result<Vec<u8>, RowFault> {
    Ok(match fault {
        AnswerFault::NoQuorum => text_of(alloc, "no quorum")?,
        AnswerFault::BadToken => text_of(alloc, "bad token")?,
        AnswerFault::Forbidden => text_of(alloc, "forbidden")?,
        AnswerFault::BadLogin => text_of(alloc, "bad login")?,
        AnswerFault::BadStatus(status) => format!(in alloc; "status {status}")?.into_bytes(),
        AnswerFault::TooLong => text_of(alloc, "too long")?,
        AnswerFault::BadJson => text_of(alloc, "bad json")?,
        AnswerFault::BadMember(member) => format!(in alloc; "bad {}", member.name())?.into_bytes(),
    })
}

fn unread_text(alloc: Global, unread: Unread) -> Result<Vec<u8>, RowFault> {
    match unread {
        Unread::Bad(fault) => fault_text(alloc, fault),
        Unread::NoMemory => Err(RowFault::OutOfMemory),
    }
}

fn append_text(alloc: Global, answer: &AppendAnswer) -> Result<Vec<u8>, RowFault> {
    match answer {
        AppendAnswer::Appended => text_of(alloc, "appended"),
        AppendAnswer::Behind => text_of(alloc, "behind"),
        AppendAnswer::Taken(line) => {
            let mut text = text_of(alloc, "taken by ")?;
            text.extend_from_slice(line.as_bytes())?;
            Ok(text)
        }
    }
}

/// Shows the answer to an append.
pub(crate) fn appended(alloc: Global, text: &str) -> Result<Vec<u8>, RowFault> {
    let (name, number, rest) = placed(alloc, text)?;
    let (status, body) = message(alloc, rest)?;
    match read_append(alloc, &name, number, status, &body) {
        Ok(answer) => append_text(alloc, &answer),
        Err(unread) => unread_text(alloc, unread),
    }
}

fn push_lines(text: &mut Vec<u8>, lines: &[Line]) -> Result<(), RowFault> {
    for line in lines {
        text.extend_from_slice(line.as_bytes())?;
        text.push(b'/')?;
    }
    Ok(())
}

fn page_text(alloc: Global, page: &PageAnswer) -> Result<Vec<u8>, RowFault> {
    let mut text = text_of(alloc, if page.more { "more: " } else { "all: " })?;
    push_lines(&mut text, page.lines.as_slice())?;
    Ok(text)
}

/// Shows the answer to a read of lines.
pub(crate) fn lines(alloc: Global, text: &str) -> Result<Vec<u8>, RowFault> {
    let (name, number, rest) = placed(alloc, text)?;
    let (status, body) = message(alloc, rest)?;
    match read_page(alloc, &name, number, status, &body) {
        Ok(page) => page_text(alloc, &page),
        Err(unread) => unread_text(alloc, unread),
    }
}

fn head_text(alloc: Global, head: &HeadAnswer) -> Result<Vec<u8>, RowFault> {
    let mut text = format!(in alloc; "{}", head.count)?.into_bytes();
    if let Some(line) = &head.last {
        text.extend_from_slice(b": ")?;
        text.extend_from_slice(line.as_bytes())?;
    }
    Ok(text)
}

/// Shows the answer to a read of the head.
pub(crate) fn top(alloc: Global, text: &str) -> Result<Vec<u8>, RowFault> {
    let (name, rest) = cut(text)?;
    let name = name_of(alloc, name)?;
    let (status, body) = message(alloc, rest)?;
    match read_head(alloc, &name, status, &body) {
        Ok(head) => head_text(alloc, &head),
        Err(unread) => unread_text(alloc, unread),
    }
}

/// Shows the answer to a login.
pub(crate) fn token(alloc: Global, text: &str) -> Result<Vec<u8>, RowFault> {
    let (status, body) = message(alloc, text)?;
    match read_login(alloc, status, &body) {
        Ok(token) => text_of(alloc, token.as_str()),
        Err(unread) => unread_text(alloc, unread),
    }
}

/// Shows the reason of an error.
pub(crate) fn reason(alloc: Global, text: &str) -> Result<Vec<u8>, RowFault> {
    let body = bytes_of(alloc, text)?;
    match error_text(alloc, &body)? {
        Some(reason) => Ok(reason.into_bytes()),
        None => text_of(alloc, "none"),
    }
}
