//! Reads requests and files from outside, or refuses them, and writes replies as text.
//!
//! [`line_request`] and [`request_from_json`] read exactly what the definition over the JSON tree
//! reads: the request, or the refusal that names the first bad field (`line_reading`,
//! `body_reading`). That covers every order that has a JSON form. [`founding_from_toml`] reads
//! exactly the founding that the file lists, or names the first bad key (`founding_listed`,
//! `FoundsAs`). [`import_request`] makes the request whose items are the devices of the vendor
//! (`import_of`). [`stamp_from_text`] reads exactly `yyyy-mm-dd hh:mm:ss`.
//!
//! [`reply_json`] and [`refusal_json`] write exactly the JSON of a reply and of a refusal
//! (`reply_data`, `refusal_data`), and [`refused_json`] that of a refusal with this number, name
//! and detail (`refused_data`).
//!
//! [`accepted_line`] and [`founding_line`] write exactly the line of an accepted request with its
//! reply, and of a founding. [`record_line`] reads exactly what a line of a record says, or returns
//! the refusal that names the first bad field or key (`record_reading`). There an order is read as
//! it is kept: an import is an order, and a link is not read as a URL. [`founding_digest`] returns
//! exactly the digest of a founding's line, and [`next_digest`] that of the line of an accepted
//! request after the digest before it (`line_digest`).
#![tactic(auto)]

pub use accepted_writer::accepted_line;
pub use digest::{founding_digest, next_digest};
pub use field::Field;
pub use founding::founding_from_toml;
pub use founding_writer::founding_line;
pub use import::import_request;
pub use record::{RecordLine, record_line};
pub use refusal::{FoundingFault, WireRefusal};
pub use reply::{refusal_json, refused_json, reply_json};
pub use request::{line_request, request_from_json};
pub use stamp::stamp_from_text;

mod accepted_reader;
mod accepted_writer;
mod digest;
mod field;
mod fields;
mod founding;
mod founding_reader;
mod founding_writer;
mod hash;
mod import;
mod json_object;
mod json_value;
mod link;
mod orders;
mod present;
mod record;
mod refusal;
mod reply;
mod request;
mod span;
mod stamp;
mod toml_value;
