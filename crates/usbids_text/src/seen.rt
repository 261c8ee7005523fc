//! Searches the lines of a list for one device, without building a document.
ghost use Rattle.std.specs.Prelude.{◌≡◌, Some, None, OnOk, IsTrue, is_some};
ghost use Rattle.std.specs.List.{list_all};
ghost use Rattle.usbids_text.specs.Words.{is_inner, is_name};
ghost use Rattle.usbids_text.specs.Documents.{next};
ghost use Rattle.usbids_text.specs.Lines.{line_of};
ghost use Rattle.usbids_text.specs.Entries.{is_line};
ghost use Rattle.usbids_text.specs.Scanning.{over_kind, seen_misplaced, seen_put, seen_top, seen_mid, seen_refused, seen_line, seen_step, seen_answer};

use crate::fault::{LineFault, ReadFault};
use crate::kind::{Depth, Kind};
use crate::line::{Entry, Why, class_of};
use crate::name::Name;
use std::alloc::Global;
use usbnum_core::{NoMemory, Vid};

/// The device to look for.
#[derive(Clone, Copy, Debug, PartialEq, Eq)]
pub struct Wanted {
    /// The vendor ID.
    pub vendor: Vid,
    /// The product ID.
    pub code: u16,
}

/// The kind of the last top.
#[derive(Clone, Copy, Debug, PartialEq, Eq)]
pub enum Over {
    /// No top yet.
    Nothing,
    /// The wanted vendor.
    Wanted,
    /// Another vendor.
    Other,
    /// A top with a tag.
    Tagged,
}

/// The state of a search after the complete lines.
#[derive(Drop)]
pub struct Seen {
    /// The number of the next line.
    pub line: u64,
    /// The kind of the last top.
    pub over: Over,
    /// Whether that top has a mid.
    pub has_mid: bool,
    /// The name of the first match.
    pub found: Option<Name>,
    /// The first fault.
    pub fault: Option<ReadFault>,
}

fn next(n: u64) -> u64
    ensures { result ≡ next n }
{
    n.saturating_add(1)
}

fn over_kind(vendor: Vid, kind: &Kind, code: u16) -> Over
    ensures { result ≡ over_kind vendor kind.now code }
{
    match kind {
        Kind::Vendor => if code == vendor.get() {
            Over::Wanted
        } else {
            Over::Other
        },
        Kind::Tagged(_) => Over::Tagged,
    }
}

impl Seen {
    /// Records the fault of the next line.
    pub fn refuse(&mut self, why: Why)
        ensures { self.new ≡ seen_refused self.old why }
    {
        self.fault = Some(ReadFault::Line(LineFault {
            line: self.line,
            why,
        }));
    }

    /// Returns the fault of an entry that is misplaced here.
    #[tactic(auto, unfolding(crate::specs::Scanning::seen_misplaced))]
    fn misplaced(&self, entry: &Entry<'_>) -> Option<Why>
        ensures { result ≡ seen_misplaced self.now (line_of entry.now) }
    {
        match &entry.depth {
            Depth::Zero(_) => None,
            Depth::One => match self.over {
                Over::Nothing => Some(Why::NoParent),
                Over::Tagged => None,
                Over::Wanted | Over::Other => if entry.digits == 4 {
                    None
                } else {
                    Some(Why::BadCode)
                },
            },
            Depth::Two => if self.has_mid {
                None
            } else {
                Some(Why::NoParent)
            },
        }
    }

    fn put_mid(
        &mut self,
        alloc: Global,
        wanted: Wanted,
        code: u16,
        name: &[u8],
    ) -> Result<(), NoMemory>
        requires { IsTrue (is_name name.now) }
        ensures { OnOk result (self.new ≡ seen_mid wanted self.old code name.now) }
    {
        self.has_mid = true;
        if self.over == Over::Wanted && code == wanted.code && self.found.is_none() {
            self.found = Some(Name::of(alloc, name)?);
        }
        Ok(())
    }

    /// Takes an entry that is in its place.
    #[tactic(auto, unfolding(crate::specs::Scanning::seen_put))]
    fn put(&mut self, alloc: Global, wanted: Wanted, entry: Entry<'_>) -> Result<(), NoMemory>
        requires { IsTrue (is_line (line_of entry)) }
        ensures { OnOk result (self.new ≡ seen_put wanted self.old (line_of entry.entry)) }
    {
        let Entry {
            depth,
            code,
            digits: _,
            name,
        } = entry;
        match depth {
            Depth::Zero(kind) => {
                self.over = over_kind(wanted.vendor, &kind, code);
                self.has_mid = false;
                Ok(())
            }
            Depth::One => self.put_mid(alloc, wanted, code, name),
            Depth::Two => Ok(()),
        }
    }

    #[tactic(auto, unfolding(crate::specs::Scanning::seen_line))]
    fn take_first(&mut self, alloc: Global, wanted: Wanted, line: &[u8]) -> Result<(), NoMemory>
        requires { IsTrue (list_all is_inner line.now) }
        ensures { OnOk result (self.new ≡ seen_line wanted self.old line.now) }
    {
        match class_of(line) {
            Ok(None) => self.line = next(self.line),
            Ok(Some(entry)) => match self.misplaced(&entry) {
                None => {
                    self.put(alloc, wanted, entry)?;
                    self.line = next(self.line);
                }
                Some(why) => self.refuse(why),
            },
            Err(why) => self.refuse(why),
        }
        Ok(())
    }

    /// Takes a complete line, unless an earlier one was faulty.
    pub fn take_line(&mut self, alloc: Global, wanted: Wanted, line: &[u8]) -> Result<(), NoMemory>
        requires { IsTrue (list_all is_inner line.now) }
        ensures { OnOk result (self.new ≡ seen_step wanted self.old line.now) }
    {
        if self.fault.is_some() {
            return Ok(());
        }
        self.take_first(alloc, wanted, line)
    }

    /// Returns the name of the first match, or the first fault.
    pub fn into_answer(self) -> Result<Option<Name>, ReadFault>
        ensures { result ≡ seen_answer self.fault self.found }
    {
        let Seen {
            line: _,
            over: _,
            has_mid: _,
            found,
            fault,
        } = self;
        match fault {
            Some(fault) => Err(fault),
            None => Ok(found),
        }
    }
}
