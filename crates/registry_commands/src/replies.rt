//! Writes the replies of a run as lines of an output.

ghost use Rattle.registry_commands.specs.Replies.{CutsLine, TakesLine};

use crate::messages::{Failure, put_reply};
use byte_streams::Sink;
use registry_rules::Reply;
use registry_store::Replies;
use std::alloc::Global;

/// An output that takes the replies of a run as lines.
#[derive(Drop)]
pub(crate) struct ReplyLines<'a, W> {
    pub(crate) alloc: Global,
    pub(crate) output: &'a mut W,
}

impl<W: Sink> Replies for ReplyLines<'_, W> {
    type Cut = Failure;

    ghost takes = { TakesLine W.contents W.failures };

    ghost cuts = { CutsLine W.contents W.failures };

    fn put(&mut self, reply: Reply) -> Result<(), Failure> {
        put_reply(self.alloc, self.output, &reply)
    }
}
