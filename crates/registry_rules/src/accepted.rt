//! The record of a history: its accepted requests with their replies.

use crate::{ReplyText, Request};

/// An accepted request, and the reply that it got.
#[derive(Clone, Debug, Drop)]
pub struct Accepted {
    /// The request.
    pub request: Request,
    /// Its reply, which the registry keeps for repeats.
    pub reply: ReplyText,
}
