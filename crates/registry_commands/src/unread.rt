//! What was read of a source and not yet used.

ghost use Rattle.std.specs.Prelude.{◌≤◌, vec_len};

use std::alloc::{AllocError, Global};

/// What was read of a source and not yet passed, and how many lines were passed.
#[derive(Drop)]
pub struct Unread {
    pub(crate) bytes: Vec<u8>,
    pub(crate) start: usize,
    pub(crate) lines: u64,
    // The bytes before the start were passed.
    ghost within: { start ≤ vec_len bytes },
}

impl Unread {
    ghost use Rattle.std.specs.Prelude.{◌≡◌, ◌<◌, ◌≤◌, ◌+◌, ◌-◌, ◌^◌, [], drop, length, OnOk};
    ghost use Rattle.registry_commands.specs.RecordLines.{unread_of};

    /// Begins before the first line of a source.
    pub fn new(alloc: Global) -> Unread
        ensures empty { unread_of result ≡ [] }
        ensures first { result.lines ≡ 0 }
    {
        Unread {
            bytes: Vec::new(alloc),
            start: 0,
            lines: 0,
        }
    }

    /// Returns how many lines were passed.
    pub(crate) fn lines(&self) -> u64
        ensures { result ≡ self.now.lines }
    {
        self.lines
    }

    /// Returns the bytes that were read and not yet passed.
    pub(crate) fn rest(&self) -> &[u8]
        ensures { result.now ≡ unread_of self.now }
    {
        &self.bytes[self.start..]
    }

    /// Passes a line of so many bytes, with its line feed if it has one.
    pub(crate) fn pass(&mut self, size: usize)
        requires there { size ≤ length (unread_of self.old) }
        requires countable { self.old.lines < 2 ^ 64 - 1 }
        ensures rest { unread_of self.new ≡ drop (size + 1) (unread_of self.old) }
        ensures lines { self.new.lines ≡ self.old.lines + 1 }
    {
        let end = self.start + size;
        self.start = if end < self.bytes.len() { end + 1 } else { end };
        self.lines += 1;
    }

    /// Forgets the bytes that were passed.
    pub(crate) fn forget(&mut self, alloc: Global) -> Result<(), AllocError>
        ensures rest { unread_of self.new ≡ unread_of self.old }
        ensures lines { self.new.lines ≡ self.old.lines }
        ensures start { OnOk result (self.new.start ≡ 0) }
    {
        if self.start > 0 {
            let rest = self.rest().to_vec(alloc)?;
            self.start = 0;
            self.bytes = rest;
        }
        Ok(())
    }
}
