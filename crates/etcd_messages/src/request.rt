//! Writes requests.

ghost use Rattle.std.specs.Prelude.{◌≡◌, false, IfOk, string_bytes};
ghost use Rattle.serde_json.specs.Data.{array};
ghost use Rattle.serde_json.specs.View.{view};
ghost use Rattle.serde_json.specs.Written.{compact_text, has_float};
ghost use Rattle.etcd_messages.specs.Keys.{key_text};
ghost use Rattle.etcd_messages.specs.Requests.{created, conditions, look_up, put_step, either, append_request, page_request, head_request, login_request};

use crate::key::{end_text, in_base64, key_text};
use serde_json::{Value, json};
use std::alloc::{AllocError, Global};
use usbnum_core::{NoMemory, Slug};

// Returns the condition that a key has a value, or has none.
fn created(alloc: Global, outcome: &str, key: &str) -> Result<Value, AllocError>
    ensures { IfOk result (λ value. view value ≡ created outcome.now key.now) }
{
    json!(in alloc; {"create_revision": "0", "key": key, "result": outcome, "target": "CREATE"})
}

fn look_up(alloc: Global, key: &str) -> Result<Value, AllocError>
    ensures { IfOk result (λ value. view value ≡ look_up key.now) }
{
    json!(in alloc; {"requestRange": {"key": key}})
}

fn put_step(alloc: Global, key: &str, value: &str) -> Result<Value, AllocError>
    ensures { IfOk result (λ step. view step ≡ put_step key.now value.now) }
{
    json!(in alloc; {"requestPut": {"key": key, "value": value}})
}

// Returns the condition that line n is not there and the one before it is.
fn conditions(alloc: Global, name: &Slug, n: u32, key: &str) -> Result<Value, NoMemory>
    requires { key.now ≡ key_text name.now n }
    ensures value { IfOk result (λ value. view value ≡ array (conditions name.now n)) }
    ensures plain { IfOk result (λ value. has_float (view value) ≡ false) }
{
    let free = created(alloc, "EQUAL", key)?;
    if n == 0 {
        return Ok(json!(in alloc; [free])?);
    }
    let before = key_text(alloc, name, u64::from(n - 1))?;
    let there = created(alloc, "GREATER", before.as_str())?;
    Ok(json!(in alloc; [free, there])?)
}

// Returns the transaction that does the second step under these conditions, and otherwise the first.
fn either(alloc: Global, compare: Value, look: Value, put: Value) -> Result<Value, AllocError>
    ensures { IfOk result (λ value. view value ≡ either (view compare) (view look) (view put)) }
{
    json!(in alloc; {"compare": compare, "failure": [look], "success": [put]})
}

// Returns the transaction of an append.
#[tactic(auto, unfolding(crate::specs::Requests::append_request))]
fn transaction(alloc: Global, name: &Slug, n: u32, line: &[u8]) -> Result<Value, NoMemory>
    ensures value { IfOk result (λ value. view value ≡ append_request name.now n line.now) }
    ensures plain { IfOk result (λ value. has_float (view value) ≡ false) }
{
    let key = key_text(alloc, name, u64::from(n))?;
    let compare = conditions(alloc, name, n, key.as_str())?;
    let look = look_up(alloc, key.as_str())?;
    let text = in_base64(alloc, line)?;
    let put = put_step(alloc, key.as_str(), text.as_str())?;
    Ok(either(alloc, compare, look, put)?)
}

/// Returns the request to append a line to the log with this name, as line n: etcd writes it only if
/// it has no such line and has the one before, and else answers with the line that it has.
/// `read_append` reads its answer.
pub fn append_request(alloc: Global, name: &Slug, n: u32, line: &[u8]) -> Result<String, NoMemory>
    ensures { IfOk result (λ text. string_bytes text ≡ compact_text (append_request name.now n line.now)) }
{
    let value = transaction(alloc, name, n, line)?;
    Ok(value.to_string(alloc)?)
}

#[tactic(auto, unfolding(crate::specs::Requests::page_request))]
fn page_value(alloc: Global, name: &Slug, n: u32, limit: u32) -> Result<Value, NoMemory>
    ensures { IfOk result (λ value. view value ≡ page_request name.now n limit) }
{
    let key = key_text(alloc, name, u64::from(n))?;
    let end = end_text(alloc, name)?;
    Ok(json!(in alloc; {"key": &key, "limit": limit, "range_end": &end})?)
}

/// Returns the request to read the lines from n on, at most as many as the limit says, or all if it
/// is 0. `read_page` reads its answer.
#[tactic(auto, unfolding(crate::specs::Requests::page_request))]
pub fn page_request(alloc: Global, name: &Slug, n: u32, limit: u32) -> Result<String, NoMemory>
    ensures { IfOk result (λ text. string_bytes text ≡ compact_text (page_request name.now n limit)) }
{
    let value = page_value(alloc, name, n, limit)?;
    Ok(value.to_string(alloc)?)
}

#[tactic(auto, unfolding(crate::specs::Requests::head_request))]
fn head_value(alloc: Global, name: &Slug) -> Result<Value, NoMemory>
    ensures { IfOk result (λ value. view value ≡ head_request name.now) }
{
    let key = key_text(alloc, name, 0)?;
    let end = end_text(alloc, name)?;
    Ok(json!(in alloc; {
        "key": &key,
        "limit": 1u64,
        "range_end": &end,
        "sort_order": "DESCEND",
        "sort_target": "KEY"
    })?)
}

/// Returns the request to read the head: the last line, and the number of all. `read_head` reads its
/// answer.
#[tactic(auto, unfolding(crate::specs::Requests::head_request))]
pub fn head_request(alloc: Global, name: &Slug) -> Result<String, NoMemory>
    ensures { IfOk result (λ text. string_bytes text ≡ compact_text (head_request name.now)) }
{
    let value = head_value(alloc, name)?;
    Ok(value.to_string(alloc)?)
}

#[tactic(auto, unfolding(crate::specs::Requests::login_request))]
fn login_value(alloc: Global, user: &str, password: &str) -> Result<Value, NoMemory>
    ensures { IfOk result (λ value. view value ≡ login_request user.now password.now) }
{
    Ok(json!(in alloc; {"name": user, "password": password})?)
}

/// Returns the request to log a user in. `read_login` reads its answer.
#[tactic(auto, unfolding(crate::specs::Requests::login_request))]
pub fn login_request(alloc: Global, user: &str, password: &str) -> Result<String, NoMemory>
    ensures { IfOk result (λ text. string_bytes text ≡ compact_text (login_request user.now password.now)) }
{
    let value = login_value(alloc, user, password)?;
    Ok(value.to_string(alloc)?)
}
