//! Reads a text in pieces.
ghost use Rattle.std.specs.Prelude.{◌≡◌, ◌⊎◌, ◌+◌, ◌<◌, ◌==◌, ℕ, List, [], ◌++◌, length, take, drop, position, Some, None, true, is_some, OnOk, IfNone, IfSome, IsTrue};
ghost use Rattle.std.specs.List.{list_all};
ghost use Rattle.usbids_text.specs.Words.{is_inner};
ghost use Rattle.usbids_text.specs.Feeding.{step, ended, kept, fed, finished};
ghost use Rattle.usbids_text.specs.Reading.{ReadsAs, AnswersSoFar, SeenFault, HasFault, answer_of};
ghost use Rattle.usbids_text.specs.declared.line.Why.{Why};
ghost use Rattle.usbids_text.specs.declared.fault.ReadFault.{ReadFault};

use crate::builder::Builder;
use crate::document::Document;
use crate::fault::ReadFault;
use crate::intake::Intake;
use crate::line::Why;
use crate::pieces::{front, line_feed, past};
use crate::taken::Taken;
use std::alloc::Global;
use usbnum_core::NoMemory;

/// A reader that is fed a text in pieces. The pieces can be cut anywhere.
#[derive(Drop)]
pub struct Reader {
    pending: Vec<u8>,
    taken: Taken,
    ghost inner: { IsTrue (list_all is_inner pending.items) },
}

impl Reader {
    ghost use Rattle.usbids_text.specs.Held.{held_of};
    ghost use Rattle.usbids_text.specs.Readers.{reader_state, reader_fault, WasFed};

    // Ends the pending line with these bytes.
    fn end_pending(&mut self, part: &[u8]) -> Result<(), NoMemory>
        requires { IsTrue (list_all is_inner part.now) }
        ensures { OnOk result (reader_state self.new ≡ record { pending = []; held = step (reader_state self.old).held ((reader_state self.old).pending ++ part.now) }) }
    {
        self.pending.extend_from_slice(part)?;
        self.taken.take_line(&self.pending)?;
        self.pending.clear();
        Ok(())
    }

    // Ends a line, with these bytes after the pending ones. A line in one piece is read without a
    // copy.
    #[tactic(auto, unfolding(crate::specs::Feeding::ended))]
    fn end_line(&mut self, part: &[u8]) -> Result<(), NoMemory>
        requires { IsTrue (list_all is_inner part.now) }
        ensures { OnOk result (reader_state self.new ≡ ended (reader_state self.old) part.now) }
    {
        if self.taken.fault.is_some() {
            return Ok(());
        }
        if self.pending.is_empty() {
            return self.taken.take_line(part);
        }
        self.end_pending(part)
    }

    // Keeps the start of a line, unless it is too long already.
    #[tactic(auto, unfolding(crate::specs::Feeding::kept))]
    fn keep(&mut self, part: &[u8]) -> Result<(), NoMemory>
        requires { IsTrue (list_all is_inner part.now) }
        ensures { OnOk result (reader_state self.new ≡ kept (reader_state self.old) part.now) }
    {
        match part {
            [] => Ok(()),
            _ => {
                if self.taken.fault.is_some() {
                    return Ok(());
                }
                if part.len() > 65536 || self.pending.len() > 65536 - part.len() {
                    self.pending.clear();
                    self.taken.refuse(Why::LineTooLong);
                    return Ok(());
                }
                self.pending.extend_from_slice(part)?;
                Ok(())
            }
        }
    }

    fn feed_bytes(&mut self, piece: &[u8]) -> Result<(), NoMemory>
        ensures { OnOk result (reader_state self.new ≡ fed (reader_state self.old) piece.now) }
    {
        let mut rest = piece;
        while let Some(i) = line_feed(rest) {
            self.end_line(front(rest, i))?;
            rest = past(rest, i);
        }
        self.keep(rest)
    }

    fn take_piece(&mut self, piece: &[u8])
        ensures { (reader_fault self.new ≡ Some ReadFault.NoMemory) ⊎ (reader_state self.new ≡ fed (reader_state self.old) piece.now) }
    {
        if self.feed_bytes(piece).is_err() {
            self.taken.fault = Some(ReadFault::NoMemory);
        }
    }

    fn answer(&self) -> Result<(), ReadFault>
        ensures { result ≡ answer_of (reader_fault self.now) }
    {
        match self.taken.fault {
            Some(fault) => Err(fault),
            None => Ok(()),
        }
    }

    #[tactic(auto, unfolding(crate::specs::Feeding::finished))]
    fn take_rest(&mut self) -> Result<(), NoMemory>
        ensures { OnOk result (held_of self.new.taken ≡ finished (reader_state self.old)) }
    {
        if self.pending.is_empty() {
            return Ok(());
        }
        self.taken.take_line(&self.pending)
    }

    /// Makes a reader that was fed no bytes.
    pub fn new(alloc: Global) -> Reader
        ensures was_fed { WasFed result [] }
        ensures clear { reader_fault result ≡ None }
    {
        Reader {
            pending: Vec::new(alloc),
            taken: Taken {
                line: 1,
                builder: Builder::new(alloc),
                fault: None,
            },
        }
    }

    /// Takes the next piece of the text.
    ///
    /// # Errors
    ///
    /// The first faulty line so far, once its line feed has come or it has more than 65,536 bytes,
    /// or out of memory. All later calls return the same fault, `finish` too.
    pub fn feed(&mut self, piece: &[u8]) -> Result<(), ReadFault>
        ensures was_fed { (t : List ℕ) → WasFed self.old t → WasFed self.new (t ++ piece.now) }
        ensures answer { result ≡ answer_of (reader_fault self.new) }
        ensures faulty { (t : List ℕ) → WasFed self.old t → AnswersSoFar (t ++ piece.now) (reader_fault self.new) }
        ensures seen { (t : List ℕ) (n : ℕ) (why : Why) → WasFed self.old t → SeenFault (t ++ piece.now) n why → HasFault (reader_fault self.new) n why }
        ensures sticks { is_some (reader_fault self.old) ≡ true → self.new ≡ self.old }
    {
        if let Some(fault) = self.taken.fault {
            return Err(fault);
        }
        self.take_piece(piece);
        self.answer()
    }

    /// Returns the document of all bytes. The last line needs no line feed.
    ///
    /// # Errors
    ///
    /// The first faulty line, or out of memory.
    pub fn finish(mut self) -> Result<Document, ReadFault>
        ensures answers { (t : List ℕ) → WasFed self t → ReadsAs t result }
        ensures sticks { (f : ReadFault) → reader_fault self ≡ Some f → result ≡ Err f }
    {
        if let Some(fault) = self.taken.fault {
            return Err(fault);
        }
        match self.take_rest() {
            Err(NoMemory) => Err(ReadFault::NoMemory),
            Ok(()) => self.taken.finish(),
        }
    }
}

impl Intake for Reader {
    ghost use Rattle.usbids_text.specs.Readers.{WasFed};

    type Wanted = ();

    ghost was_fed = { λ reader _ text. WasFed reader text };

    fn take_in(&mut self, piece: &[u8]) {
        let _ = self.feed(piece);
    }
}

/// Returns the document of a whole text.
///
/// # Errors
///
/// The first faulty line, or out of memory.
///
/// # Examples
///
/// Here `rt` is the runtime that `main` gets.
///
/// ```
/// let list = b"1209  Shared products\n\t0011  Blinker\n";
/// let document = read_all(rt.alloc(), list)?;
/// let vendor = Vid::new(0x1209).ok_or("no vendor")?;
/// let name = find(&document, vendor, 0x0011);
/// assert_eq!(rt; name, Some(b"Blinker".as_slice()));
/// assert_eq!(rt; find(&document, vendor, 0x0012), None);
/// ```
pub fn read_all(alloc: Global, bytes: &[u8]) -> Result<Document, ReadFault>
    ensures { ReadsAs bytes.now result }
{
    let mut reader = Reader::new(alloc);
    let _ = reader.feed(bytes);
    reader.finish()
}
