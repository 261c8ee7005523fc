//! A source over a reader, and a sink over a writer.
ghost use Rattle.std.specs.Prelude.{◌≡◌};

use crate::calls::{ByteReader, ByteWriter};
use crate::streams::{Broken, Sink, Source};

/// A source over a reader.
#[derive(Drop)]
pub struct Inlet<R: ByteReader> {
    reader: R,
    failures: u64,
}

impl<R: ByteReader> Inlet<R> {
    ghost use Rattle.byte_streams.specs.Adapters.{reader_of, inlet_failures};

    /// Makes a source over the reader, with no failures yet.
    pub fn new(reader: R) -> Inlet<R>
        ensures reader { reader_of result ≡ reader }
        ensures fresh { inlet_failures result ≡ 0 }
    {
        Inlet {
            reader,
            failures: 0,
        }
    }

    /// Returns the reader.
    pub fn into_inner(self) -> R
        ensures { result ≡ reader_of self }
    {
        let Inlet {
            reader,
            failures: _,
        } = self;
        reader
    }
}

impl<R: ByteReader> Source for Inlet<R> {
    ghost remaining = { λ s. R.remaining s.reader };

    ghost failures = { λ s. s.failures };

    ghost gives = { λ s t room bytes. R.reads s.reader t.reader room bytes };

    ghost fails = { λ s t. R.fails s.reader t.reader };

    fn take(&mut self, room: &mut [u8]) -> Result<usize, Broken> {
        match self.reader.read(room) {
            Ok(count) => Ok(count),
            Err(_) => {
                self.failures = self.failures.saturating_add(1);
                Err(Broken)
            }
        }
    }
}

/// A sink over a writer.
#[derive(Drop)]
pub struct Outlet<W: ByteWriter> {
    writer: W,
    failures: u64,
}

impl<W: ByteWriter> Outlet<W> {
    ghost use Rattle.byte_streams.specs.Adapters.{writer_of, outlet_failures};

    /// Makes a sink over the writer, with no failures yet.
    pub fn new(writer: W) -> Outlet<W>
        ensures writer { writer_of result ≡ writer }
        ensures fresh { outlet_failures result ≡ 0 }
    {
        Outlet {
            writer,
            failures: 0,
        }
    }

    /// Returns the writer.
    pub fn into_inner(self) -> W
        ensures { result ≡ writer_of self }
    {
        let Outlet {
            writer,
            failures: _,
        } = self;
        writer
    }
}

impl<W: ByteWriter> Sink for Outlet<W> {
    ghost contents = { λ s. W.contents s.writer };

    ghost failures = { λ s. s.failures };

    ghost takes = { λ s t bytes n. W.writes s.writer t.writer bytes n };

    ghost fails = { λ s t. W.fails s.writer t.writer };

    fn put(&mut self, bytes: &[u8]) -> Result<usize, Broken> {
        match self.writer.write(bytes) {
            Ok(count) => {
                if count == 0 && !bytes.is_empty() {
                    self.failures = self.failures.saturating_add(1);
                }
                Ok(count)
            }
            Err(_) => {
                self.failures = self.failures.saturating_add(1);
                Err(Broken)
            }
        }
    }
}
