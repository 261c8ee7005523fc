//! Reads HTTP messages to a registry and writes the responses. Does not use a store.
//!
//! # Reading a message
//!
//! [`read_message`] returns what all bytes of a message say to a registry with this founding
//! vendor: a query, a request, or the refusal of the first fault, however they were cut (`IfSaid`,
//! `Says`). The bytes say only one thing ([`says_one_thing`]).
//!
//! It makes no read once the message is complete, nor after a read that failed. So it never waits
//! for a peer that has sent its whole message. The clauses say so of a read that fails, as any read
//! may: the result is then `Broken` (`kept`, `short`), no other read failed, and the bytes that
//! came before are an incomplete message (`broken`, `FailsAfter`). A message is incomplete as long
//! as no byte came, as its head may still become complete, its number of fields and bytes of its
//! target aside, or as its body is not complete (`IsIncomplete`). Its bytes alone get refusal 20 or
//! 23 ([`refuses_an_incomplete_message`]).
//!
//! # Writing a response
//!
//! The responses to replies, refusals, numbers, organisations, petitions, foundings, heads of a
//! record and texts have one text each (`response_bytes`). [`write_response`] writes that text, or
//! refusal 31 if memory runs out for its head. [`write_unavailable`] writes refusals 30 and 31, and
//! needs no memory.
#![tactic(auto)]

mod body;
mod fault;
mod fields;
mod founding;
mod head;
mod json_object;
mod message;
mod parts;
mod reading;
mod refusal;
mod resources;
mod response;
mod response_head;
mod route;
mod routes;
mod status;
mod unavailable;
mod write;

pub use fault::MessageFault;
pub use founding::founding_response;
pub use message::{Message, read_message, refuses_an_incomplete_message, says_one_thing};
pub use refusal::{Allow, Header, HttpRefusal};
pub use resources::{head_response, number_response, org_response, petition_response};
pub use response::{
    Body, ContentType, Response, page_response, refusal_response, reply_response, text_response,
};
pub use route::Query;
pub use routes::Routes;
pub use unavailable::Unavailable;
pub use write::{write_response, write_unavailable};
