//! Looks for a device while a list is read in pieces.
ghost use Rattle.std.specs.Prelude.{◌≡◌, ◌⊎◌, ◌+◌, ◌<◌, ◌==◌, ℕ, List, [], ◌++◌, length, take, drop, position, Some, None, true, is_some, OnOk, IfNone, IfSome, IsTrue};
ghost use Rattle.std.specs.List.{list_all};
ghost use Rattle.usbids_text.specs.Words.{is_inner};
ghost use Rattle.usbids_text.specs.Scanning.{Scanned, scanned_of, scan_ended, scan_kept, scan_finished, seen_step};
ghost use Rattle.usbids_text.specs.Feeding.{Fed, fed};

use crate::fault::ReadFault;
use crate::intake::Intake;
use crate::line::Why;
use crate::name::Name;
use crate::pieces::{front, line_feed, past};
use crate::seen::{Over, Seen, Wanted};
use std::alloc::Global;
use usbnum_core::{NoMemory, Vid};

/// A search for a device in a list that is fed in pieces. The pieces can be cut anywhere. It keeps
/// no entries: it needs memory only for a line that spans pieces, and once for the name.
#[derive(Drop)]
pub struct Scan {
    alloc: Global,
    wanted: Wanted,
    pending: Vec<u8>,
    seen: Seen,
    ghost inner: { IsTrue (list_all is_inner pending.items) },
}

impl Scan {
    ghost use Rattle.usbids_text.specs.Scans.{scan_state, Seeks, LooksUpAs};

    // Ends the pending line with these bytes.
    fn end_pending(&mut self, part: &[u8]) -> Result<(), NoMemory>
        requires { IsTrue (list_all is_inner part.now) }
        ensures done { OnOk result (scan_state self.new ≡ record { pending = []; seen = seen_step self.old.wanted (scan_state self.old).seen ((scan_state self.old).pending ++ part.now) }) }
        ensures wanted { self.new.wanted ≡ self.old.wanted }
    {
        self.pending.extend_from_slice(part)?;
        self.seen.take_line(self.alloc, self.wanted, &self.pending)?;
        self.pending.clear();
        Ok(())
    }

    // Ends a line, with these bytes after the pending ones. A line in one piece is read without a
    // copy.
    #[tactic(auto, unfolding(crate::specs::Scanning::scan_ended))]
    fn end_line(&mut self, part: &[u8]) -> Result<(), NoMemory>
        requires { IsTrue (list_all is_inner part.now) }
        ensures done { OnOk result (scan_state self.new ≡ scan_ended self.old.wanted (scan_state self.old) part.now) }
        ensures wanted { self.new.wanted ≡ self.old.wanted }
    {
        if self.seen.fault.is_some() {
            return Ok(());
        }
        if self.pending.is_empty() {
            return self.seen.take_line(self.alloc, self.wanted, part);
        }
        self.end_pending(part)
    }

    // Keeps the start of a line, unless it is too long already.
    #[tactic(auto, unfolding(crate::specs::Scanning::scan_kept))]
    fn keep(&mut self, part: &[u8]) -> Result<(), NoMemory>
        requires { IsTrue (list_all is_inner part.now) }
        ensures done { OnOk result (scan_state self.new ≡ scan_kept (scan_state self.old) part.now) }
        ensures wanted { self.new.wanted ≡ self.old.wanted }
    {
        match part {
            [] => Ok(()),
            _ => {
                if self.seen.fault.is_some() {
                    return Ok(());
                }
                if part.len() > 65536 || self.pending.len() > 65536 - part.len() {
                    self.pending.clear();
                    self.seen.refuse(Why::LineTooLong);
                    return Ok(());
                }
                self.pending.extend_from_slice(part)?;
                Ok(())
            }
        }
    }

    fn feed_bytes(&mut self, piece: &[u8]) -> Result<(), NoMemory>
        ensures done { (s : Fed) → scan_state self.old ≡ scanned_of self.old.wanted s → OnOk result (scan_state self.new ≡ scanned_of self.old.wanted (fed s piece.now)) }
        ensures wanted { self.new.wanted ≡ self.old.wanted }
    {
        let mut rest = piece;
        while let Some(i) = line_feed(rest) {
            self.end_line(front(rest, i))?;
            rest = past(rest, i);
        }
        self.keep(rest)
    }

    fn take_piece(&mut self, piece: &[u8])
        ensures done { (self.new.seen.fault ≡ Some ReadFault.NoMemory) ⊎ ((s : Fed) → scan_state self.old ≡ scanned_of self.old.wanted s → scan_state self.new ≡ scanned_of self.old.wanted (fed s piece.now)) }
        ensures wanted { self.new.wanted ≡ self.old.wanted }
    {
        if self.feed_bytes(piece).is_err() {
            self.seen.fault = Some(ReadFault::NoMemory);
        }
    }

    #[tactic(auto, unfolding(crate::specs::Scanning::scan_finished))]
    fn take_rest(&mut self) -> Result<(), NoMemory>
        ensures done { OnOk result (self.new.seen ≡ scan_finished self.old.wanted (scan_state self.old)) }
        ensures wanted { self.new.wanted ≡ self.old.wanted }
    {
        if self.pending.is_empty() {
            return Ok(());
        }
        self.seen.take_line(self.alloc, self.wanted, &self.pending)
    }

    /// Makes a search for the first device with this code under a vendor with this ID.
    pub fn new(alloc: Global, vendor: Vid, code: u16) -> Scan
        ensures { Seeks result (record { vendor = vendor; code = code }) [] }
    {
        Scan {
            alloc,
            wanted: Wanted { vendor, code },
            pending: Vec::new(alloc),
            seen: Seen {
                line: 1,
                over: Over::Nothing,
                has_mid: false,
                found: None,
                fault: None,
            },
        }
    }

    /// Takes the next piece of the list.
    pub fn feed(&mut self, piece: &[u8])
        ensures { (wanted : Wanted) (t : List ℕ) → Seeks self.old wanted t → Seeks self.new wanted (t ++ piece.now) }
    {
        if self.seen.fault.is_some() {
            return;
        }
        self.take_piece(piece);
    }

    /// Returns the name of the first match in the order of the list, or None without a match.
    ///
    /// # Errors
    ///
    /// The first faulty line, before or after the match, or out of memory.
    pub fn finish(mut self) -> Result<Option<Name>, ReadFault>
        ensures { (wanted : Wanted) (t : List ℕ) → Seeks self wanted t → LooksUpAs wanted t result }
    {
        if let Some(fault) = self.seen.fault {
            return Err(fault);
        }
        match self.take_rest() {
            Err(NoMemory) => Err(ReadFault::NoMemory),
            Ok(()) => self.seen.into_answer(),
        }
    }
}

impl Intake for Scan {
    ghost use Rattle.usbids_text.specs.Scans.{Seeks};

    type Wanted = Wanted;

    ghost was_fed = { λ scan wanted text. Seeks scan wanted text };

    fn take_in(&mut self, piece: &[u8]) {
        self.feed(piece);
    }
}
