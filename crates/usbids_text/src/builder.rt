//! Builds a document entry by entry.
ghost use Rattle.std.specs.Prelude.{◌≡◌, [], OnOk, IfOk, IsTrue, Option, Some, None};
ghost use Rattle.usbids_text.specs.Words.{is_code, is_name};
ghost use Rattle.usbids_text.specs.Entries.{is_depth, is_line};
ghost use Rattle.usbids_text.specs.Lines.{line_of};
ghost use Rattle.usbids_text.specs.Opens.{none_open, whole_top, document_so_far, put_top, put_mid, put_leaf, put, misplaced_in, fits_in, has_room_in};
ghost use Rattle.usbids_text.specs.declared.kind.Depth.TheVariants.{Zero};

use crate::document::{Document, Leaf, Mid, Top};
use crate::head::Head;
use crate::kind::{Depth, Kind};
use crate::line::{Entry, Why};
use std::alloc::Global;
use usbnum_core::NoMemory;

/// A document under construction: the closed tops, the open top and the open mid. Each entry goes
/// below the open ones. The next top closes both, the next mid closes the mid.
#[derive(Drop)]
pub struct Builder {
    /// The allocator for the entries.
    pub alloc: Global,
    /// The closed tops.
    pub tops: Document,
    /// The open top.
    pub top: Option<Top>,
    /// The open mid.
    pub mid: Option<Mid>,
    ghost fits: { IsTrue (fits_in top mid) },
}

impl Builder {
    ghost use Rattle.usbids_text.specs.Building.{open_of};

    /// Makes an empty document with no open entry.
    pub fn new(alloc: Global) -> Builder
        ensures { open_of result ≡ none_open [] }
    {
        Builder {
            alloc,
            tops: Document::new(alloc),
            top: None,
            mid: None,
        }
    }

    // Puts the open mid into the open top, in its place: a top has many mids, and is not moved for
    // each.
    fn close_mid(&mut self) -> Result<(), NoMemory>
        ensures { OnOk result (open_of self.new ≡ record { tops = self.old.tops; top = whole_top self.old.top self.old.mid; mid = None }) }
    {
        let mid = self.mid.take();
        match &mut self.top {
            None => Ok(()),
            Some(top) => match mid {
                None => Ok(()),
                Some(mut mid) => {
                    mid.shrink();
                    top.push(mid)
                }
            },
        }
    }

    fn close_top(&mut self) -> Result<(), NoMemory>
        ensures { OnOk result (open_of self.new ≡ none_open (document_so_far (open_of self.old))) }
    {
        self.close_mid()?;
        match self.top.take() {
            Some(mut top) => {
                top.shrink();
                self.tops.push(top)
            }
            None => Ok(()),
        }
    }

    fn put_top(&mut self, kind: Kind, head: Head) -> Result<(), NoMemory>
        requires code { IsTrue (is_code head.code head.digits) }
        requires name { IsTrue (is_name head.name) }
        requires kind { IsTrue (is_depth (Zero kind) head.digits) }
        ensures { OnOk result (open_of self.new ≡ put_top (open_of self.old) kind head.code head.digits head.name) }
    {
        self.close_top()?;
        self.top = Some(Top::with(self.alloc, kind, head));
        Ok(())
    }

    fn put_mid(&mut self, head: Head) -> Result<(), NoMemory>
        requires code { IsTrue (is_code head.code head.digits) }
        requires name { IsTrue (is_name head.name) }
        requires room { IsTrue (has_room_in self.old.top head.digits) }
        ensures { OnOk result (open_of self.new ≡ put_mid (open_of self.old) head.code head.digits head.name) }
    {
        self.close_mid()?;
        self.mid = Some(Mid::with(self.alloc, head));
        Ok(())
    }

    fn put_leaf(&mut self, head: Head) -> Result<(), NoMemory>
        requires code { IsTrue (is_code head.code head.digits) }
        requires name { IsTrue (is_name head.name) }
        ensures { OnOk result (open_of self.new ≡ put_leaf (open_of self.old) head.code head.digits head.name) }
    {
        let mid = self.mid.take();
        match mid {
            Some(mut mid) => {
                mid.push(Leaf::with(head))?;
                self.mid = Some(mid);
                Ok(())
            }
            None => Ok(()),
        }
    }

    /// Puts an entry in its place.
    #[tactic(auto, unfolding(crate::specs::Opens::put))]
    pub fn put(&mut self, entry: Entry<'_>) -> Result<(), NoMemory>
        requires entry_line { IsTrue (is_line (line_of entry)) }
        requires place { misplaced_in (open_of self.old) (line_of entry) ≡ None }
        ensures { OnOk result (open_of self.new ≡ put (open_of self.old) (line_of entry.entry)) }
    {
        let Entry {
            depth,
            code,
            digits,
            name,
        } = entry;
        let head = Head::of(self.alloc, code, digits, name)?;
        match depth {
            Depth::Zero(kind) => self.put_top(kind, head),
            Depth::One => self.put_mid(head),
            Depth::Two => self.put_leaf(head),
        }
    }

    /// Returns the fault of an entry that is misplaced here.
    #[tactic(auto, unfolding(crate::specs::Opens::misplaced_in))]
    pub fn misplaced(&self, entry: &Entry<'_>) -> Option<Why>
        ensures { result ≡ misplaced_in (open_of self.now) (line_of entry.now) }
    {
        match &entry.depth {
            Depth::Zero(_) => None,
            Depth::One => match &self.top {
                None => Some(Why::NoParent),
                Some(top) => match top.kind() {
                    Kind::Vendor => if entry.digits == 4 {
                        None
                    } else {
                        Some(Why::BadCode)
                    },
                    Kind::Tagged(_) => None,
                },
            },
            Depth::Two => match &self.top {
                None => Some(Why::NoParent),
                Some(_) => match &self.mid {
                    None => Some(Why::NoParent),
                    Some(_) => None,
                },
            },
        }
    }

    /// Returns the document of all entries.
    pub fn finish(mut self) -> Result<Document, NoMemory>
        ensures { IfOk result (λ doc. doc ≡ document_so_far (open_of self)) }
    {
        self.close_top()?;
        Ok(self.tops)
    }
}
