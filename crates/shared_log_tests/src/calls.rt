//! Calls of a log in memory. A call has a letter for what becomes of it, and then `a` with a number, an equals sign and a
//! line for an append, `p` with a number for a read of lines, or `h` for a read of the head.

use row_texts::{RowFault, cut, number_of, text_of};
use shared_log::{AppendAnswer, Fate, HeadAnswer, Line, Log, LogFault, MemoryLog, PageAnswer};
use std::alloc::Global;

fn fate_of(letter: &str) -> Result<Fate, RowFault> {
    match letter {
        "." => Ok(Fate::Answers),
        "-" => Ok(Fate::Loses),
        "~" => Ok(Fate::Forgets),
        ">" => Ok(Fate::Delays),
        "*" => Ok(Fate::Repeats),
        _ => Err(RowFault::BadRow),
    }
}

fn push_lines(text: &mut Vec<u8>, lines: &[Line]) -> Result<(), RowFault> {
    for line in lines {
        text.push(b'/')?;
        text.extend_from_slice(line.as_bytes())?;
    }
    Ok(())
}

fn append_text(alloc: Global, answer: &AppendAnswer) -> Result<Vec<u8>, RowFault> {
    match answer {
        AppendAnswer::Appended => text_of(alloc, "appended"),
        AppendAnswer::Behind => text_of(alloc, "behind"),
        AppendAnswer::Taken(line) => {
            let mut text = text_of(alloc, "taken:")?;
            text.extend_from_slice(line.as_bytes())?;
            Ok(text)
        }
    }
}

fn page_text(alloc: Global, page: &PageAnswer) -> Result<Vec<u8>, RowFault> {
    let mut text = text_of(alloc, if page.more { "more" } else { "all" })?;
    push_lines(&mut text, page.lines.as_slice())?;
    Ok(text)
}

fn head_text(alloc: Global, head: &HeadAnswer) -> Result<Vec<u8>, RowFault> {
    let mut text = format!(in alloc; "{}", head.count)?.into_bytes();
    if let Some(line) = &head.last {
        text.push(b':')?;
        text.extend_from_slice(line.as_bytes())?;
    }
    Ok(text)
}

fn fault_text(alloc: Global, fault: LogFault) -> Result<Vec<u8>, RowFault> {
    match fault {
        LogFault::NoMemory => Err(RowFault::OutOfMemory),
        LogFault::Unreachable => text_of(alloc, "none"),
        _ => Err(RowFault::Wrong),
    }
}

fn appended(alloc: Global, log: &mut MemoryLog, text: &str) -> Result<Vec<u8>, RowFault> {
    let Some((number, line)) = text.split_once('=') else {
        return Err(RowFault::BadRow);
    };
    match log.append(alloc, number_of(number)?, line.as_bytes()) {
        Ok(answer) => append_text(alloc, &answer),
        Err(fault) => fault_text(alloc, fault),
    }
}

fn read(alloc: Global, log: &mut MemoryLog, text: &str) -> Result<Vec<u8>, RowFault> {
    match log.page(alloc, number_of(text)?) {
        Ok(page) => page_text(alloc, &page),
        Err(fault) => fault_text(alloc, fault),
    }
}

fn looked(alloc: Global, log: &mut MemoryLog) -> Result<Vec<u8>, RowFault> {
    match log.head(alloc) {
        Ok(head) => head_text(alloc, &head),
        Err(fault) => fault_text(alloc, fault),
    }
}

fn called(alloc: Global, log: &mut MemoryLog, call: &str) -> Result<Vec<u8>, RowFault> {
    let Some((fate, call)) = call.split_at_checked(1) else {
        return Err(RowFault::BadRow);
    };
    log.set_fates(vec![in alloc; fate_of(fate)?]?);
    let Some((kind, rest)) = call.split_at_checked(1) else {
        return Err(RowFault::BadRow);
    };
    match kind {
        "a" => appended(alloc, log, rest),
        "p" => read(alloc, log, rest),
        "h" => looked(alloc, log),
        _ => Err(RowFault::BadRow),
    }
}

/// Shows the answers to calls of a log that gives at most so many lines at once, and its lines in the end.
pub(crate) fn answers(alloc: Global, text: &str) -> Result<Vec<u8>, RowFault> {
    let (most, calls) = cut(text)?;
    let Ok(most) = most.parse::<u16>() else {
        return Err(RowFault::BadRow);
    };
    let mut log = MemoryLog::new(alloc, most);
    let mut shown = Vec::new(alloc);
    for call in calls.split(' ') {
        let answer = called(alloc, &mut log, call)?;
        shown.extend_from_slice(&answer)?;
        shown.push(b' ')?;
    }
    push_lines(&mut shown, log.lines().as_slice())?;
    Ok(shown)
}
