//! Readers and writers that fail, and what one message or one input gives between them.

use crate::texts::add_bytes;
use byte_streams::{Broken, ByteReader, ByteWriter, Inlet, Outlet, Source};
use registry_commands::apply_lines;
use registry_desk::serve_one;
use registry_store::Registry;
use sqlite::Alter;
use std::alloc::Global;

/// A reader that gives one byte per read, and fails after `good` reads.
#[derive(Drop)]
pub struct Stumbling<'a> {
    pub rest: &'a [u8],
    pub good: u32,
}

impl ByteReader for Stumbling<'_> {
    ghost use Rattle.std.specs.Prelude.{⊤, None};

    ghost remaining = { λ _. None };

    ghost reads = { λ _ _ _ _. ⊤ };

    ghost fails = { λ _ _. ⊤ };

    fn read(&mut self, room: &mut [u8]) -> Result<usize, Broken> {
        if self.good == 0 {
            return Err(Broken);
        }
        self.good -= 1;
        match (self.rest.split_first(), room.first_mut()) {
            (Some((first, rest)), Some(place)) => {
                *place = *first;
                self.rest = rest;
                Ok(1)
            }
            _ => Ok(0),
        }
    }
}

/// A writer that takes one byte per write, and fails once it has `most` bytes.
#[derive(Drop)]
pub struct Narrow {
    pub bytes: Vec<u8>,
    pub most: usize,
}

impl ByteWriter for Narrow {
    ghost use Rattle.std.specs.Prelude.{⊤, None};

    ghost contents = { λ _. None };

    ghost writes = { λ _ _ _ _. ⊤ };

    ghost fails = { λ _ _. ⊤ };

    fn write(&mut self, bytes: &[u8]) -> Result<usize, Broken> {
        match bytes.first() {
            Some(_) if self.bytes.len() >= self.most => Err(Broken),
            Some(byte) => match self.bytes.push(*byte) {
                Ok(()) => Ok(1),
                Err(_) => Err(Broken),
            },
            None => Ok(0),
        }
    }
}

/// A writer with room for each response of the tests.
pub const AMPLE: usize = 100_000;

fn narrowed(alloc: Global, most: usize) -> Outlet<Narrow> {
    Outlet::new(Narrow {
        bytes: Vec::new(alloc),
        most,
    })
}

fn add_taken(taken: Outlet<Narrow>, text: &mut String) -> bool {
    let Narrow { bytes, most: _ } = taken.into_inner();
    add_bytes(&bytes, text)
}

/// Adds what is written for one message to a writer that takes at most so many bytes, after `Read`
/// or `Write` if its reader or the writer failed.
pub fn add_response<R: Source, S: Alter>(
    alloc: Global,
    source: &mut R,
    most: usize,
    registry: &mut Registry<S>,
    text: &mut String,
) -> bool {
    let mut sink = narrowed(alloc, most);
    let told = match serve_one(alloc, source, &mut sink, registry) {
        Ok(served) if served.status.is_ok() => "",
        Ok(_) => "Write:",
        Err(_) => "Read:",
    };
    text.push_str(told).is_ok() && add_taken(sink, text)
}

/// Adds the response to a message that is read whole at once.
pub fn add_answer<S: Alter>(
    alloc: Global,
    message: &[u8],
    registry: &mut Registry<S>,
    text: &mut String,
) -> bool {
    add_response(alloc, &mut Inlet::new(message), AMPLE, registry, text)
}

/// Adds the exit status, the output and the error output of a run over request lines.
pub fn add_run<R: Source, S: Alter>(
    alloc: Global,
    source: &mut R,
    answered: u64,
    most: usize,
    registry: &mut Registry<S>,
    text: &mut String,
) -> bool {
    let mut output = narrowed(alloc, most);
    let mut errors = narrowed(alloc, AMPLE);
    let status = apply_lines(alloc, source, answered, registry, &mut output, &mut errors).code();
    write!(text, "{status}: ").is_ok() && add_taken(output, text) && add_taken(errors, text)
}
