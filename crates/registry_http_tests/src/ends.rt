//! A source and a sink that fail.

use byte_streams::{Broken, Sink, Source};

/// A source that gives one byte per read, and fails at each read after the last byte.
#[derive(Drop)]
pub(crate) struct Drip<'a> {
    pub(crate) bytes: &'a [u8],
    pub(crate) given: usize,
    pub(crate) failures: u64,
}

impl<'a> Source for Drip<'a> {
    ghost use Rattle.std.specs.Prelude.{⊤, None};

    ghost remaining = { λ s. None };

    ghost failures = { λ s. s.failures };

    ghost gives = { λ _ _ _ _. ⊤ };

    ghost fails = { λ _ _. ⊤ };

    fn take(&mut self, room: &mut [u8]) -> Result<usize, Broken> {
        if self.given < self.bytes.len() && room.len() > 0 {
            room[0] = self.bytes[self.given];
            self.given += 1;
            return Ok(1);
        }
        self.failures = self.failures.saturating_add(1);
        Err(Broken)
    }
}

/// A sink that takes `room` bytes and then fails.
#[derive(Drop)]
pub(crate) struct Brim {
    pub(crate) bytes: Vec<u8>,
    pub(crate) room: usize,
    pub(crate) failures: u64,
}

impl Sink for Brim {
    ghost use Rattle.std.specs.Prelude.{⊤, None};

    ghost contents = { λ s. None };

    ghost failures = { λ s. s.failures };

    ghost takes = { λ _ _ _ _. ⊤ };

    ghost fails = { λ _ _. ⊤ };

    fn put(&mut self, bytes: &[u8]) -> Result<usize, Broken> {
        let count = bytes.len().min(self.room);
        if count > 0 && self.bytes.extend_from_slice(&bytes[..count]).is_ok() {
            self.room -= count;
            return Ok(count);
        }
        if bytes.len() == 0 {
            return Ok(0);
        }
        self.failures = self.failures.saturating_add(1);
        Err(Broken)
    }
}
