//! Writes a request in HTTP/1.1.

ghost use Rattle.std.specs.Prelude.{◌≡◌, decimal, IfOk, OnOk, option_copied, string_bytes};
ghost use Rattle.etcd_client.specs.Messages.{with_field_line, with_token, request_line, first_lines, request_head, request_text};

use crate::host::Host;
use etcd_messages::{Endpoint, Token};
use std::alloc::Global;
use usbnum_core::NoMemory;

#[tactic(auto, unfolding(crate::specs::Messages::with_field_line))]
fn push_field(text: &mut String, name: &str, value: &str) -> Result<(), NoMemory>
    ensures { OnOk result (string_bytes text.new ≡ with_field_line (string_bytes text.old) name.now value.now) }
{
    text.push_str(name)?;
    text.push_str(": ")?;
    text.push_str(value)?;
    text.push_str("\r\n")?;
    Ok(())
}

#[tactic(auto, unfolding(crate::specs::Messages::request_line))]
fn request_line(alloc: Global, endpoint: Endpoint) -> Result<String, NoMemory>
    ensures { IfOk result (λ s. string_bytes s ≡ request_line endpoint) }
{
    let mut text = String::from_str(alloc, "POST ")?;
    text.push_str(endpoint.path())?;
    text.push_str(" HTTP/1.1\r\n")?;
    Ok(text)
}

fn push_token(text: &mut String, token: Option<&Token>) -> Result<(), NoMemory>
    ensures { OnOk result (string_bytes text.new ≡ with_token (string_bytes text.old) (option_copied token.entry)) }
{
    match token {
        Some(token) => push_field(text, "authorization", token.as_str()),
        None => Ok(()),
    }
}

fn digits_of(alloc: Global, number: usize) -> Result<String, NoMemory>
    ensures { IfOk result (λ s. string_bytes s ≡ decimal number) }
{
    Ok(number.to_string(alloc)?)
}

#[tactic(auto, unfolding(crate::specs::Messages::first_lines))]
fn first_lines(
    alloc: Global,
    endpoint: Endpoint,
    host: &Host,
    count: usize,
) -> Result<String, NoMemory>
    ensures { IfOk result (λ s. string_bytes s ≡ first_lines endpoint host.now count) }
{
    let digits = digits_of(alloc, count)?;
    let mut text = request_line(alloc, endpoint)?;
    push_field(&mut text, "host", host.as_str())?;
    push_field(&mut text, "content-type", "application/json")?;
    push_field(&mut text, "content-length", digits.as_str())?;
    Ok(text)
}

#[tactic(auto, unfolding(crate::specs::Messages::request_head))]
fn request_head(
    alloc: Global,
    endpoint: Endpoint,
    host: &Host,
    token: Option<&Token>,
    count: usize,
) -> Result<String, NoMemory>
    ensures { IfOk result (λ s. string_bytes s ≡ request_head endpoint host.now (option_copied token.entry) count) }
{
    let mut text = first_lines(alloc, endpoint, host, count)?;
    push_token(&mut text, token)?;
    text.push_str("\r\n")?;
    Ok(text)
}

/// Returns the request with this body in JSON.
#[tactic(auto, unfolding(crate::specs::Messages::request_text))]
pub(crate) fn request_text(
    alloc: Global,
    endpoint: Endpoint,
    host: &Host,
    token: Option<&Token>,
    body: &str,
) -> Result<String, NoMemory>
    ensures { IfOk result (λ s. string_bytes s ≡ request_text endpoint host.now (option_copied token.entry) body.now) }
{
    let mut text = request_head(alloc, endpoint, host, token, body.len())?;
    text.push_str(body)?;
    Ok(text)
}
