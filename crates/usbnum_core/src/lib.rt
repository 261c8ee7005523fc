//! The values of a registry of USB product IDs: numbers, spans, sets of numbers, and texts for
//! names.
//!
//! No call ends the process or waits. Each call that may run out of memory returns [`NoMemory`].
//!
//! Each parser, and the `new` of a number, a span and a text, returns a value if and only if its
//! argument is one. The text of a vendor ID or a product ID is four lower-case digits
//! (`digits_of`), and reads back as the same ID (`number_of`).
//!
//! [`Spans`] is a set of product IDs, kept as its maximal spans (`spans_have`, `IsSpread`). `add`
//! is union and `cut` is difference; after `NoMemory` the set is unchanged. `contains`, `covers`,
//! `meets`, `count` and `least_outside` answer as the set does, and `parts` returns its maximal
//! spans.
#![tactic(auto)]

pub use code::parse_code;
pub use digest::{Digest, DigestRule};
pub use error::NoMemory;
pub use key::{Key, KeyRule};
pub use link::{Link, LinkRule};
pub use number::{Number, Span};
pub use pid::{Pid, parse_pid};
pub use slug::{Slug, SlugRule};
pub use spans::Spans;
pub use text::{Text, TextRule};
pub use time::{Time, TimeRule};
pub use title::{Title, TitleRule};
pub use vid::{Vid, parse_vid};

mod code;
mod digest;
mod error;
mod key;
mod link;
mod number;
mod parts;
mod pid;
mod slug;
mod spans;
mod text;
mod time;
mod title;
mod vid;
