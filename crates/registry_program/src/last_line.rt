//! An error output that keeps the beginning of its last line, to say the cause of a fault.

ghost use Rattle.std.specs.Prelude.{◌≡◌};

use byte_streams::{Broken, Sink};

/// The greatest number of bytes that are kept of a line. Each line that is known begins otherwise
/// than the others in as many.
const MOST: usize = 128;

/// An error output whose last line is known.
pub trait LastLine {
    /// Returns the beginning of the last line, without its line feed. No clause says which bytes.
    fn last_line(&self) -> &[u8];
}

/// The beginning of a line.
#[derive(Drop)]
struct Beginning {
    bytes: [u8; MOST],
    length: usize,
    is_ended: bool,
}

impl Beginning {
    /// Goes on with the next bytes, which may end the line and begin others.
    fn go_on(&mut self, bytes: &[u8]) {
        for byte in bytes {
            if self.is_ended {
                self.length = 0;
                self.is_ended = false;
            }
            if *byte == b'\n' {
                self.is_ended = true;
            } else if self.length < MOST {
                self.bytes[self.length] = *byte;
                self.length += 1;
            }
        }
    }
}

/// A sink that passes everything on to another one.
#[derive(Drop)]
pub struct Heard<E: Sink> {
    sink: E,
    line: Beginning,
}

impl<E: Sink> Heard<E> {
    ghost use Rattle.std.specs.Prelude.{◌≡◌};
    ghost use Rattle.registry_program.specs.Explained.{sink_of};

    /// Makes it over a sink, before any line.
    pub fn new(sink: E) -> Heard<E>
        ensures { sink_of result ≡ sink }
    {
        Heard {
            sink,
            line: Beginning {
                bytes: [0; MOST],
                length: 0,
                is_ended: true,
            },
        }
    }

    /// Returns the sink.
    pub fn into_inner(self) -> E
        ensures { result ≡ sink_of self }
    {
        let Heard { sink, line: _ } = self;
        sink
    }
}

impl<E: Sink> Sink for Heard<E> {
    ghost contents = { λ heard. E.contents heard.sink };

    ghost failures = { λ heard. E.failures heard.sink };

    ghost takes = { λ old new bytes n. E.takes old.sink new.sink bytes n };

    ghost fails = { λ old new. E.fails old.sink new.sink };

    fn put(&mut self, bytes: &[u8]) -> Result<usize, Broken> {
        let count = self.sink.put(bytes)?;
        self.line.go_on(&bytes[..count]);
        Ok(count)
    }
}

impl<E: Sink> LastLine for Heard<E> {
    fn last_line(&self) -> &[u8] {
        &self.line.bytes[..self.line.length.min(MOST)]
    }
}
