//! Writes replies and refusals as lines of JSON.

ghost use Rattle.std.specs.Prelude.{◌≡◌, IfOk, option_copied};
ghost use Rattle.std.specs.String.{string_bytes};
ghost use Rattle.serde_json.specs.View.{view};
ghost use Rattle.serde_json.specs.Written.{compact_text};
ghost use Rattle.registry_rules.specs.Reply.{refusal_number, refusal_name, refusal_detail};
ghost use Rattle.registry_wire.specs.Replies.{refused_data, refusal_data, reply_data};

use crate::WireRefusal;
use registry_rules::{Refusal, Reply, ReplyText};
use serde_json::{Value, json};
use std::alloc::{AllocError, Global};
use usbnum_core::NoMemory;

// A refusal as an object, with its members in the order of their keys' bytes.
fn refused_value(
    alloc: Global,
    number: u8,
    name: &str,
    detail: Option<&str>,
) -> Result<Value, AllocError>
    ensures { IfOk result (λ value. view value ≡ refused_data number name.now (option_copied detail.entry)) }
{
    match detail {
        Some(detail) => json!(in alloc; {"detail": detail, "name": name, "refused": number}),
        None => json!(in alloc; {"name": name, "refused": number}),
    }
}

// A refusal with its detail, if it has one.
fn refused_for(
    alloc: Global,
    number: u8,
    name: &str,
    detail: Option<ReplyText>,
) -> Result<Value, NoMemory>
    ensures { IfOk result (λ value. view value ≡ refused_data number name.now detail) }
{
    match detail {
        Some(detail) => Ok(refused_value(alloc, number, name, Some(detail.as_str()))?),
        None => Ok(refused_value(alloc, number, name, None)?),
    }
}

fn rule_value(alloc: Global, refusal: &Refusal) -> Result<Value, NoMemory>
    ensures { IfOk result (λ value. view value ≡ refused_data (refusal_number refusal.now) (refusal_name refusal.now) (refusal_detail refusal.now)) }
{
    refused_for(
        alloc,
        refusal.number(),
        refusal.name(),
        refusal.detail(alloc)?,
    )
}

fn reply_value(alloc: Global, reply: &Reply) -> Result<Value, NoMemory>
    ensures { IfOk result (λ value. view value ≡ reply_data reply.now) }
{
    match reply {
        Reply::Done(text) => {
            let text = text.as_str();
            Ok(json!(in alloc; {"done": text})?)
        }
        Reply::Refused(refusal) => rule_value(alloc, refusal),
    }
}

/// Returns a reply as one line of JSON, without a line feed: `{"done":TEXT}`, or for a refusal
/// `{"name":NAME,"refused":NUMBER}`, with `"detail":DETAIL` first if it has a detail.
pub fn reply_json(alloc: Global, reply: &Reply) -> Result<String, NoMemory>
    ensures { IfOk result (λ text. string_bytes text ≡ compact_text (reply_data reply.now)) }
{
    let value = reply_value(alloc, reply)?;
    Ok(value.to_string(alloc)?)
}

/// Returns a refusal with this number, name and detail as JSON, in the form of a refused reply.
pub fn refused_json(
    alloc: Global,
    number: u8,
    name: &str,
    detail: Option<ReplyText>,
) -> Result<String, NoMemory>
    ensures { IfOk result (λ text. string_bytes text ≡ compact_text (refused_data number name.now detail)) }
{
    let value = refused_for(alloc, number, name, detail)?;
    Ok(value.to_string(alloc)?)
}

/// Returns a refusal as JSON, in the form of a refused reply.
pub fn refusal_json(alloc: Global, refusal: WireRefusal) -> Result<String, NoMemory>
    ensures { IfOk result (λ text. string_bytes text ≡ compact_text (refusal_data refusal)) }
{
    refused_json(
        alloc,
        refusal.number(),
        refusal.name(),
        refusal.detail(alloc)?,
    )
}
