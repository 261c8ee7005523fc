//! Bytes in memory as a reader and as a writer.
ghost use Rattle.std.specs.Prelude.{◌≡◌, ◌++◌, length, Some};

use crate::calls::{ByteReader, ByteWriter};
use crate::streams::Broken;
use std::io::{Read, Write};

impl ByteReader for &[u8] {
    ghost remaining = { λ s. Some s.now };

    ghost reads = { λ s t _ bytes. s.now ≡ bytes ++ t.now };

    ghost fails = { λ _ _. ⊥ };

    fn read(&mut self, room: &mut [u8]) -> Result<usize, Broken> {
        match Read::read(self, room) {
            Ok(count) => Ok(count),
            Err(_) => Err(Broken),
        }
    }
}

// A write fails only if memory runs out.
impl ByteWriter for Vec<u8> {
    ghost contents = { λ s. Some s.items };

    ghost writes = { λ s t bytes n. (t.items ≡ s.items ++ bytes) × (n ≡ length bytes) };

    ghost fails = { λ s t. t.items ≡ s.items };

    fn write(&mut self, bytes: &[u8]) -> Result<usize, Broken> {
        match Write::write(self, bytes) {
            Ok(count) => Ok(count),
            Err(_) => Err(Broken),
        }
    }
}
