//! Responses: a reply, a refusal, or a text.

ghost use Rattle.std.specs.Prelude.{◌≡◌, IfOk, string_bytes};
ghost use Rattle.registry_http.specs.Responses.{allow_in, json_response, reply_response, refusal_response, text_response, page_response};

use crate::refusal::{Allow, HttpRefusal};
use crate::status::{refusal_status, reply_status};
use http::StatusCode;
use registry_rules::Reply;
use registry_wire::{refused_json, reply_json};
use std::alloc::Global;
use std::marker::Model;
use usbnum_core::{Digest, NoMemory};

/// The media type of a body.
#[derive(Clone, Copy, Debug, PartialEq, Eq)]
pub enum ContentType {
    /// `application/json`.
    Json,
    /// `text/plain; charset=utf-8`.
    Text,
}

/// The bytes of a body. A contract sees them as a list.
#[derive(Drop)]
pub struct Body {
    bytes: Vec<u8>,
}

impl Model for Body {
    ghost use Rattle.std.specs.Prelude.{List, ℕ};

    ghost Value = { List ℕ };

    ghost view = { λ body. body.bytes.items };
}

impl Body {
    fn new(bytes: Vec<u8>) -> Body
        ensures { result ≡ bytes.items }
    {
        Body { bytes }
    }

    /// Returns the bytes.
    pub fn as_slice(&self) -> &[u8]
        ensures { result.now ≡ self.now }
    {
        &self.bytes
    }
}

/// The response to a message.
#[derive(Drop)]
pub struct Response {
    /// The status code.
    pub status: StatusCode,
    /// The media type of the body.
    pub content_type: ContentType,
    /// The method that the path allows, if the message has a wrong one.
    pub allow: Option<Allow>,
    /// The digest that a page of the record continues.
    pub digest: Option<Digest>,
    /// The body.
    pub body: Body,
}

/// Makes a JSON response, whose body is the text and a line feed.
#[tactic(auto, unfolding(crate::specs::Responses::json_response))]
pub(crate) fn json_response(
    status: StatusCode,
    allow: Option<Allow>,
    text: String,
) -> Result<Response, NoMemory>
    ensures { IfOk result (λ response. response ≡ json_response status allow (string_bytes text)) }
{
    let mut text = text;
    text.push_str("\n")?;
    Ok(Response {
        status,
        content_type: ContentType::Json,
        allow,
        digest: None,
        body: Body::new(text.into_bytes()),
    })
}

/// Makes the response to a request: the reply of the rules, with its status.
#[tactic(auto, unfolding(crate::specs::Responses::reply_response))]
pub fn reply_response(alloc: Global, reply: &Reply) -> Result<Response, NoMemory>
    ensures { IfOk result (λ response. response ≡ reply_response reply.now) }
{
    let text = reply_json(alloc, reply)?;
    json_response(reply_status(reply), None, text)
}

/// Returns the method that the path allows, if the message has a wrong one.
fn allow_in(refusal: HttpRefusal) -> Option<Allow>
    ensures { result ≡ allow_in refusal }
{
    match refusal {
        HttpRefusal::WrongMethod(allow) => Some(allow),
        _ => None,
    }
}

/// Makes the response to a message that is refused before the registry is asked.
#[tactic(auto, unfolding(crate::specs::Responses::refusal_response))]
pub fn refusal_response(alloc: Global, refusal: HttpRefusal) -> Result<Response, NoMemory>
    ensures { IfOk result (λ response. response ≡ refusal_response refusal) }
{
    let detail = refusal.detail(alloc)?;
    let text = refused_json(alloc, refusal.number(), refusal.name(), detail)?;
    json_response(refusal_status(refusal), allow_in(refusal), text)
}

/// Makes the response with a list or a report, whose bytes are unchanged.
#[tactic(auto, unfolding(crate::specs::Responses::text_response))]
pub fn text_response(bytes: Vec<u8>) -> Response
    ensures { result ≡ text_response bytes.items }
{
    Response {
        status: StatusCode::OK,
        content_type: ContentType::Text,
        allow: None,
        digest: None,
        body: Body::new(bytes),
    }
}

/// Makes the response with a page of the record, whose bytes are unchanged, and the digest that it
/// continues, if it continues one.
#[tactic(auto, unfolding(crate::specs::Responses::page_response))]
pub fn page_response(bytes: Vec<u8>, digest: Option<Digest>) -> Response
    ensures { result ≡ page_response bytes.items digest }
{
    Response {
        status: StatusCode::OK,
        content_type: ContentType::Text,
        allow: None,
        digest,
        body: Body::new(bytes),
    }
}
