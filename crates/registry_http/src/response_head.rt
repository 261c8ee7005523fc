//! Writes the head of a response as text.

ghost use Rattle.std.specs.Prelude.{◌≡◌, ◌++◌, IfOk, OnOk, decimal, string_bytes};
ghost use Rattle.registry_http.specs.Responses.{crlf, with_field, with_allow, with_digest, phrase_of, status_line, content_type_text, allow_text, head_lines, response_head};

use crate::refusal::Allow;
use crate::response::{ContentType, Response};
use http::StatusCode;
use std::alloc::Global;
use usbnum_core::{Digest, NoMemory};

#[tactic(auto, unfolding(crate::specs::Responses::with_field))]
fn push_field(text: &mut String, name: &str, value: &str) -> Result<(), NoMemory>
    ensures { OnOk result (string_bytes text.new ≡ with_field (string_bytes text.old) name.now value.now) }
{
    text.push_str(name)?;
    text.push_str(": ")?;
    text.push_str(value)?;
    text.push_str("\r\n")?;
    Ok(())
}

#[tactic(auto, unfolding(crate::specs::Responses::phrase_of))]
fn phrase_of(status: StatusCode) -> &'static str
    ensures { result.now ≡ phrase_of status }
{
    status.canonical_reason().unwrap_or("")
}

#[tactic(auto, unfolding(crate::specs::Responses::status_line))]
fn status_line(alloc: Global, status: StatusCode) -> Result<String, NoMemory>
    ensures { IfOk result (λ s. string_bytes s ≡ status_line status) }
{
    let digits = status.as_u16().to_string(alloc)?;
    let mut text = String::from_str(alloc, "HTTP/1.1 ")?;
    text.push_str(digits.as_str())?;
    text.push_str(" ")?;
    text.push_str(phrase_of(status))?;
    text.push_str("\r\n")?;
    Ok(text)
}

fn content_type_text(content_type: ContentType) -> &'static str
    ensures { result.now ≡ content_type_text content_type }
{
    match content_type {
        ContentType::Json => "application/json",
        ContentType::Text => "text/plain; charset=utf-8",
    }
}

fn allow_text(allow: Allow) -> &'static str
    ensures { result.now ≡ allow_text allow }
{
    match allow {
        Allow::Get => "GET",
        Allow::Post => "POST",
    }
}

fn push_allow(text: &mut String, allow: Option<Allow>) -> Result<(), NoMemory>
    ensures { OnOk result (string_bytes text.new ≡ with_allow (string_bytes text.old) allow) }
{
    match allow {
        Some(allow) => push_field(text, "allow", allow_text(allow)),
        None => Ok(()),
    }
}

fn push_digest(text: &mut String, digest: &Option<Digest>) -> Result<(), NoMemory>
    ensures { OnOk result (string_bytes text.new ≡ with_digest (string_bytes text.old) digest.now) }
{
    match digest {
        Some(digest) => push_field(text, "registry-digest", digest.as_str()),
        None => Ok(()),
    }
}

fn push_end(text: &mut String) -> Result<(), NoMemory>
    ensures { OnOk result (string_bytes text.new ≡ string_bytes text.old ++ crlf) }
{
    text.push_str("\r\n")?;
    Ok(())
}

fn digits_of(alloc: Global, number: usize) -> Result<String, NoMemory>
    ensures { IfOk result (λ s. string_bytes s ≡ decimal number) }
{
    Ok(number.to_string(alloc)?)
}

/// Returns the head of a response with a body of `count` bytes.
#[tactic(auto, unfolding(crate::specs::Responses::head_lines))]
fn head_lines(
    alloc: Global,
    status: StatusCode,
    content_type: ContentType,
    count: usize,
    allow: Option<Allow>,
    digest: &Option<Digest>,
) -> Result<String, NoMemory>
    ensures { IfOk result (λ s. string_bytes s ≡ head_lines status content_type count allow digest.now) }
{
    let digits = digits_of(alloc, count)?;
    let mut text = status_line(alloc, status)?;
    push_field(&mut text, "content-type", content_type_text(content_type))?;
    push_field(&mut text, "content-length", digits.as_str())?;
    push_allow(&mut text, allow)?;
    push_digest(&mut text, digest)?;
    push_field(&mut text, "connection", "close")?;
    push_end(&mut text)?;
    Ok(text)
}

/// Returns the head of a response.
pub(crate) fn response_head(alloc: Global, response: &Response) -> Result<String, NoMemory>
    ensures { IfOk result (λ s. string_bytes s ≡ response_head response.now) }
{
    head_lines(
        alloc,
        response.status,
        response.content_type,
        response.body.as_slice().len(),
        response.allow,
        &response.digest,
    )
}
