//! A connection in memory: it answers as it is told, and keeps what was done with it.

ghost use Rattle.std.specs.Prelude.{◌≤◌, ⊤, length};

use byte_streams::Broken;
use http_exchange::Connection;
use row_texts::{RowFault, bytes_of};
use std::alloc::Global;
use std::time::Duration;

/// The most bytes that a write takes.
const MOST_WRITTEN: usize = 64;

/// A connection in memory.
#[derive(Drop)]
pub(crate) struct Script<'d> {
    steps: Vec<Vec<u8>>,
    done: &'d mut Vec<u8>,
}

impl<'d> Script<'d> {
    /// Makes one of the steps that a text names, between bars: `!open`, `!write` and `!read` are such a call that fails,
    /// `stale` is a look at a connection that cannot be used, and any other text is what a read gives: the end, if it
    /// is empty. Bytes for which the read has no room are lost. What is done is put behind the bytes.
    pub(crate) fn new(
        alloc: Global,
        text: &str,
        done: &'d mut Vec<u8>,
    ) -> Result<Script<'d>, RowFault> {
        let mut steps = Vec::new(alloc);
        for step in text.split("|") {
            steps.push(bytes_of(alloc, step)?)?;
        }
        steps.reverse();
        Ok(Script { steps, done })
    }

    // Returns whether the next step is this one, and leaves it if it is.
    fn meets(&mut self, name: &[u8]) -> bool {
        let met = match self.steps.last() {
            Some(step) => step.as_slice() == name,
            None => false,
        };
        if met {
            let _step = self.steps.pop();
        }
        met
    }

    fn note(&mut self, text: &[u8]) {
        let _noted = self.done.extend_from_slice(text);
    }
}

// Copies bytes to the front of the room, as many as fit, and returns their number.
fn copied(room: &mut [u8], bytes: &[u8]) -> usize
    ensures { result ≤ length room.old }
{
    let count = room.len().min(bytes.len());
    room[..count].copy_from_slice(&bytes[..count]);
    count
}

impl<'d> Connection for Script<'d> {
    ghost opens = { λ _ _ _. ⊤ };

    ghost closes = { λ _ _. ⊤ };

    ghost rests = { λ _ _ _. ⊤ };

    ghost writes = { λ _ _ _ _. ⊤ };

    ghost reads = { λ _ _ _ _. ⊤ };

    ghost fails = { λ _ _. ⊤ };

    fn open(&mut self, time: Duration) -> Result<(), Broken> {
        self.note(b"[open");
        if time.as_secs() == 15 {
            self.note(b" 15");
        }
        self.note(b"]");
        if self.meets(b"!open") {
            Err(Broken)
        } else {
            Ok(())
        }
    }

    fn close(&mut self) {
        self.note(b"[close]");
    }

    fn rests(&mut self) -> bool {
        self.note(b"[look]");
        !self.meets(b"stale")
    }

    fn write(&mut self, bytes: &[u8]) -> Result<usize, Broken> {
        if self.meets(b"!write") {
            return Err(Broken);
        }
        let count = bytes.len().min(MOST_WRITTEN);
        self.note(&bytes[..count]);
        Ok(count)
    }

    fn read(&mut self, room: &mut [u8]) -> Result<usize, Broken> {
        if self.meets(b"!read") {
            return Err(Broken);
        }
        match self.steps.pop() {
            Some(bytes) => Ok(copied(room, &bytes)),
            None => Err(Broken),
        }
    }
}
