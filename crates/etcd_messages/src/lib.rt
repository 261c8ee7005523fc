//! The messages of a log that etcd keeps: requests to its JSON gateway, and what its answers say.
//! No call reads or writes a stream.
//!
//! A log has a name. Line n of it is the value of the key `NAME/nnnnnnnnnn`, the name, a slash and
//! ten digits (`line_key`), and is written once. So the keys are in the order of the numbers, and
//! there is no gap.
//!
//! Each request is exactly the JSON text of its values. [`append_request`] puts line n on condition
//! that its key has no value and that of the line before has one, and looks the key up otherwise;
//! [`page_request`] reads the lines from n on, [`head_request`] the last line, and
//! [`login_request`] logs a user in.
//!
//! [`read_append`], [`read_page`], [`read_head`] and [`read_login`] read exactly what the
//! definition over the JSON tree reads in the body of a message with status 200, or return the
//! first fault (`append_reading`, `page_reading`, `log_head_reading`, `login_reading`). An answer
//! has the fault
//!
//! - `TooLong` if it has more than 32 MiB (`most_answer`), and `BadJson` if it is no JSON object;
//! - `BadMember`, which names the first such member, if it has no header, a member of another kind,
//!   another key than the one that was asked for, a gap between two lines, or more lines to come
//!   after none;
//! - `NoQuorum` (503), `BadToken` (401), `Forbidden` (403), `BadLogin` (400 after a login) or
//!   `BadStatus` at any other status than 200.
//!
//! A token has only visible characters of ASCII (`is_visible`), since it is written into the head
//! of a message. [`error_text`] returns the text of an error, if there is one (`error_reason`).
//!
//! Two laws say that this agrees with what etcd answers (`append_says`, `page_says`), whatever its
//! header and its revisions are. The answer to an append is read as what became of it at the lines
//! that etcd kept before (`append_means`). The answer with lines is read as these lines, and
//! whether there are more.
#![tactic(auto)]

mod answer;
mod append;
mod endpoint;
mod fault;
mod head;
mod key;
pub mod laws;
mod login;
mod page;
mod pairs;
mod request;

pub use append::read_append;
pub use endpoint::Endpoint;
pub use fault::{AnswerFault, Member, Unread};
pub use head::read_head;
pub use login::{Token, error_text, read_login};
pub use page::read_page;
pub use request::{append_request, head_request, login_request, page_request};
