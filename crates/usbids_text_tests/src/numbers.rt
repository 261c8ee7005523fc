//! Codes, numbers, spans and texts.

use row_texts::{RowFault, cut, text_of};
use std::alloc::Global;
use usbnum_core::{
    KeyRule, LinkRule, NoMemory, Number, Pid, Slug, SlugRule, Span, Text, TextRule, TitleRule, Vid,
    parse_code, parse_pid, parse_vid,
};

pub(crate) fn vid_of(text: &str) -> Result<Vid, RowFault> {
    parse_vid(text.as_bytes()).ok_or(RowFault::BadRow)
}

pub(crate) fn pid_of(text: &str) -> Result<Pid, RowFault> {
    parse_pid(text.as_bytes()).ok_or(RowFault::BadRow)
}

/// Reads a text as a code, a product ID and a vendor ID.
pub(crate) fn code(alloc: Global, text: &[u8]) -> Result<Vec<u8>, RowFault> {
    let pid = parse_pid(text).map(|pid| pid.get());
    let vid = parse_vid(text).map(|vid| vid.get());
    let code = parse_code(text);
    Ok(format!(in alloc; "{code:?} {pid:?} {vid:?}")?.into_bytes())
}

/// Shows a product ID and its digits, and the vendor ID of the same digits.
pub(crate) fn number(alloc: Global, text: &str) -> Result<Vec<u8>, RowFault> {
    let (pid, vid) = (pid_of(text)?, vid_of(text)?);
    let (digits, same) = (pid.digits(), vid.digits());
    Ok(format!(in alloc; "{pid} {digits:?} {vid} {same:?}")?.into_bytes())
}

/// Reads two product IDs with a bar between them as a span, if they are one.
pub(crate) fn span_of(text: &str) -> Result<Option<Span>, RowFault> {
    let (first, last) = cut(text)?;
    Ok(Span::new(pid_of(first)?, pid_of(last)?))
}

/// Shows the span of two numbers, if they are one.
pub(crate) fn span(alloc: Global, text: &str) -> Result<Vec<u8>, RowFault> {
    match span_of(text)? {
        Some(span) => Ok(format!(in alloc; "{span}")?.into_bytes()),
        None => text_of(alloc, "none"),
    }
}

fn number_of(text: &str) -> Result<Number, RowFault> {
    let (vid, pid) = text.split_once(':').ok_or(RowFault::BadRow)?;
    Ok(Number {
        vid: vid_of(vid)?,
        pid: pid_of(pid)?,
    })
}

/// Shows whether the first number is before the second one.
pub(crate) fn order(alloc: Global, text: &str) -> Result<Vec<u8>, RowFault> {
    let (first, second) = cut(text)?;
    let (first, second) = (number_of(first)?, number_of(second)?);
    let (less, before) = (first < second, first.is_before(&second));
    Ok(format!(in alloc; "{less} {before}")?.into_bytes())
}

/// Shows the text of the error of a call without memory.
pub(crate) fn memory(alloc: Global) -> Result<Vec<u8>, RowFault> {
    Ok(format!(in alloc; "{NoMemory}")?.into_bytes())
}

fn taken<R: TextRule>(alloc: Global, bytes: &[u8]) -> Result<Vec<u8>, RowFault> {
    match Text::<R>::new(alloc, bytes)? {
        Some(text) => Ok(format!(in alloc; "{text} {text:?}")?.into_bytes()),
        None => text_of(alloc, "none"),
    }
}

pub(crate) fn slug(alloc: Global, bytes: &[u8]) -> Result<Vec<u8>, RowFault> {
    taken::<SlugRule>(alloc, bytes)
}

pub(crate) fn key(alloc: Global, bytes: &[u8]) -> Result<Vec<u8>, RowFault> {
    taken::<KeyRule>(alloc, bytes)
}

pub(crate) fn title(alloc: Global, bytes: &[u8]) -> Result<Vec<u8>, RowFault> {
    taken::<TitleRule>(alloc, bytes)
}

pub(crate) fn link(alloc: Global, bytes: &[u8]) -> Result<Vec<u8>, RowFault> {
    taken::<LinkRule>(alloc, bytes)
}

fn slug_of(alloc: Global, text: &str) -> Result<Slug, RowFault> {
    Slug::new(alloc, text.as_bytes())?.ok_or(RowFault::BadRow)
}

fn is_cloned(slug: &Slug) -> Result<bool, RowFault> {
    Ok(slug.clone()? == *slug)
}

/// Shows whether the copy of a slug is the same, and whether the slug is before another one.
pub(crate) fn slugs(alloc: Global, text: &str) -> Result<Vec<u8>, RowFault> {
    let (first, second) = cut(text)?;
    let first = slug_of(alloc, first)?;
    let same = is_cloned(&first)?;
    let less = first < slug_of(alloc, second)?;
    Ok(format!(in alloc; "{same} {less}")?.into_bytes())
}
