//! A list of USB numbers as a tree of entries.
ghost use Rattle.std.specs.Prelude.{◌≡◌, [], ◌∷◌, ◌++◌, OnOk, OnErr, IfOk, IsTrue};
ghost use Rattle.usbids_text.specs.Words.{is_code, is_name};
ghost use Rattle.usbids_text.specs.Heads.{leaves_in};
ghost use Rattle.usbids_text.specs.Entries.{is_depth, has_room, IsSound};
ghost use Rattle.usbids_text.specs.declared.kind.Depth.TheVariants.{Zero};

use crate::head::Head;
use crate::kind::Kind;
use crate::name::Name;
use std::alloc::Global;
use std::marker::Model;
use usbnum_core::NoMemory;

/// An entry of depth two, for example an interface of a device.
#[derive(Debug, Drop)]
pub struct Leaf {
    head: Head,
}

impl Model for Leaf {
    ghost use Rattle.std.specs.Prelude.{IsTrue};
    ghost use Rattle.usbids_text.specs.Entries.{LeafEntry, leaf_line, is_line};

    ghost Value = { LeafEntry };

    ghost view = { λ a. record { code = a.head.code; digits = a.head.digits; name = a.head.name } };

    ghost invariant = { λ a. IsTrue (is_line (leaf_line (record { code = a.head.code; digits = a.head.digits; name = a.head.name }))) };
}

impl Leaf {
    // Makes an entry of this head.
    pub(crate) fn with(head: Head) -> Leaf
        requires code { IsTrue (is_code head.code head.digits) }
        requires name { IsTrue (is_name head.name) }
        ensures { result ≡ record { code = head.code; digits = head.digits; name = head.name } }
    {
        Leaf { head }
    }

    /// Makes an entry whose code has this number of digits.
    pub fn new(code: u16, digits: u8, name: Name) -> Leaf
        requires { IsTrue (is_code code digits) }
        ensures { result ≡ record { code = code; digits = digits; name = name } }
    {
        Leaf::with(Head::new(code, digits, name.into_text()))
    }

    /// Returns the code.
    pub fn code(&self) -> u16
        ensures { result ≡ self.now.code }
    {
        self.head.code()
    }

    /// Returns the number of digits of the code, 1 to 4.
    pub fn digits(&self) -> u8
        ensures { result ≡ self.now.digits }
    {
        self.head.digits()
    }

    /// Returns the name.
    pub fn name(&self) -> &[u8]
        ensures { result.now ≡ self.now.name }
    {
        self.head.name()
    }
}

/// An entry of depth one, for example a device of a vendor, with the entries below it.
#[derive(Debug, Drop)]
pub struct Mid {
    head: Head,
    alloc: Global,
    // Few entries have any below, so it is one pointer and not a vector.
    leaves: Option<Box<Vec<Leaf>>>,
}

impl Model for Mid {
    ghost use Rattle.std.specs.Prelude.{IsTrue, [], ◌∷◌, ◌++◌};
    ghost use Rattle.std.specs.List.{list_all};
    ghost use Rattle.usbids_text.specs.Entries.{MidEntry, mids_lines, is_line};
    ghost use Rattle.usbids_text.specs.Heads.{leaves_in};

    ghost Value = { MidEntry };

    ghost view = { λ a. record { code = a.head.code; digits = a.head.digits; name = a.head.name; leaves = leaves_in a.leaves } };

    ghost invariant = { λ a. IsTrue (list_all is_line (mids_lines (record { code = a.head.code; digits = a.head.digits; name = a.head.name; leaves = leaves_in a.leaves } ∷ []))) };
}

// Appends an entry to those below one.
fn put_leaf(alloc: Global, leaves: &mut Option<Box<Vec<Leaf>>>, leaf: Leaf) -> Result<(), NoMemory>
    ensures ok { OnOk result (leaves_in leaves.new ≡ leaves_in leaves.old ++ leaf ∷ []) }
    ensures err { OnErr result (leaves_in leaves.new ≡ leaves_in leaves.old) }
{
    match leaves {
        Some(leaves) => {
            leaves.push(leaf)?;
        }
        None => {
            let mut first = Vec::new(alloc);
            first.push(leaf)?;
            *leaves = Some(Box::new(alloc, first)?);
        }
    }
    Ok(())
}

impl Mid {
    /// Makes an entry whose code has this number of digits, with no entries below it.
    pub fn new(alloc: Global, code: u16, digits: u8, name: Name) -> Mid
        requires { IsTrue (is_code code digits) }
        ensures { result ≡ record { code = code; digits = digits; name = name; leaves = [] } }
    {
        Mid::with(alloc, Head::new(code, digits, name.into_text()))
    }

    // Makes an entry of this head, with no entries below it.
    pub(crate) fn with(alloc: Global, head: Head) -> Mid
        requires code { IsTrue (is_code head.code head.digits) }
        requires name { IsTrue (is_name head.name) }
        ensures { result ≡ record { code = head.code; digits = head.digits; name = head.name; leaves = [] } }
    {
        Mid {
            head,
            alloc,
            leaves: None,
        }
    }

    /// Appends an entry below this one.
    pub fn push(&mut self, leaf: Leaf) -> Result<(), NoMemory>
        ensures ok { OnOk result (self.new ≡ record self.old { leaves = self.old.leaves ++ leaf ∷ [] }) }
        ensures err { OnErr result (self.new ≡ self.old) }
    {
        // Only for the proof: the name is valid.
        let _ = &leaf.head;
        put_leaf(self.alloc, &mut self.leaves, leaf)?;
        Ok(())
    }

    // Frees the spare memory for entries below this one.
    pub(crate) fn shrink(&mut self)
        ensures { self.new ≡ self.old }
    {
        if let Some(leaves) = &mut self.leaves {
            leaves.shrink_to_fit();
        }
    }

    /// Returns the code.
    pub fn code(&self) -> u16
        ensures { result ≡ self.now.code }
    {
        self.head.code()
    }

    /// Returns the number of digits of the code, 1 to 4.
    pub fn digits(&self) -> u8
        ensures { result ≡ self.now.digits }
    {
        self.head.digits()
    }

    /// Returns the name.
    pub fn name(&self) -> &[u8]
        ensures { result.now ≡ self.now.name }
    {
        self.head.name()
    }

    /// Returns the entries below this one, in order.
    pub fn leaves(&self) -> &[Leaf]
        ensures { result.now ≡ self.now.leaves }
    {
        match &self.leaves {
            Some(leaves) => leaves.as_slice(),
            None => &[],
        }
    }
}

/// An entry of depth zero, for example a vendor, with the entries below it.
#[derive(Debug, Drop)]
pub struct Top {
    kind: Kind,
    head: Head,
    mids: Vec<Mid>,
}

impl Model for Top {
    ghost use Rattle.std.specs.Prelude.{[], ◌∷◌};
    ghost use Rattle.usbids_text.specs.Entries.{TopEntry, IsSound};

    ghost Value = { TopEntry };

    ghost view = { λ a. record { kind = a.kind; code = a.head.code; digits = a.head.digits; name = a.head.name; mids = a.mids.items } };

    ghost invariant = { λ a. IsSound (record { kind = a.kind; code = a.head.code; digits = a.head.digits; name = a.head.name; mids = a.mids.items } ∷ []) };
}

impl Top {
    /// Makes an entry whose code has this number of digits, four for a vendor, with no entries
    /// below it.
    pub fn new(alloc: Global, kind: Kind, code: u16, digits: u8, name: Name) -> Top
        requires code { IsTrue (is_code code digits) }
        requires kind { IsTrue (is_depth (Zero kind) digits) }
        ensures { result ≡ record { kind = kind; code = code; digits = digits; name = name; mids = [] } }
    {
        Top::with(alloc, kind, Head::new(code, digits, name.into_text()))
    }

    // Makes an entry of this head, with no entries below it.
    pub(crate) fn with(alloc: Global, kind: Kind, head: Head) -> Top
        requires code { IsTrue (is_code head.code head.digits) }
        requires name { IsTrue (is_name head.name) }
        requires kind { IsTrue (is_depth (Zero kind) head.digits) }
        ensures { result ≡ record { kind = kind; code = head.code; digits = head.digits; name = head.name; mids = [] } }
    {
        Top {
            kind,
            head,
            mids: Vec::new(alloc),
        }
    }

    /// Appends an entry below this one. Below a vendor its code has four digits.
    pub fn push(&mut self, mid: Mid) -> Result<(), NoMemory>
        requires { IsTrue (has_room self.old.kind mid.digits) }
        ensures ok { OnOk result (self.new ≡ record self.old { mids = self.old.mids ++ mid ∷ [] }) }
        ensures err { OnErr result (self.new ≡ self.old) }
    {
        // Only for the proof: the name is valid.
        let _ = &mid.head;
        self.mids.push(mid)?;
        Ok(())
    }

    // Frees the spare memory for entries below this one.
    pub(crate) fn shrink(&mut self)
        ensures { self.new ≡ self.old }
    {
        self.mids.shrink_to_fit();
    }

    /// Returns the kind.
    pub fn kind(&self) -> &Kind
        ensures { result.now ≡ self.now.kind }
    {
        &self.kind
    }

    /// Returns the code.
    pub fn code(&self) -> u16
        ensures { result ≡ self.now.code }
    {
        self.head.code()
    }

    /// Returns the number of digits of the code, 1 to 4.
    pub fn digits(&self) -> u8
        ensures { result ≡ self.now.digits }
    {
        self.head.digits()
    }

    /// Returns the name.
    pub fn name(&self) -> &[u8]
        ensures { result.now ≡ self.now.name }
    {
        self.head.name()
    }

    /// Returns the entries below this one, in order.
    pub fn mids(&self) -> &[Mid]
        ensures { result.now ≡ self.now.mids }
    {
        &self.mids
    }
}

/// A list of USB numbers: its tops, in order.
#[derive(Debug, Drop)]
pub struct Document {
    tops: Vec<Top>,
}

impl Model for Document {
    ghost use Rattle.std.specs.Prelude.{List};
    ghost use Rattle.usbids_text.specs.Entries.{TopEntry, IsSound};

    ghost Value = { List TopEntry };

    ghost view = { λ a. a.tops.items };

    ghost invariant = { λ a. IsSound a.tops.items };
}

impl Document {
    /// Makes an empty list.
    pub fn new(alloc: Global) -> Document
        ensures { result ≡ [] }
    {
        Document {
            tops: Vec::new(alloc),
        }
    }

    /// Appends a top.
    pub fn push(&mut self, top: Top) -> Result<(), NoMemory>
        ensures ok { OnOk result (self.new ≡ self.old ++ top ∷ []) }
        ensures err { OnErr result (self.new ≡ self.old) }
    {
        // Only for the proof: the name is valid.
        let _ = &top.head;
        self.tops.push(top)?;
        Ok(())
    }

    /// Returns the tops, in order.
    pub fn tops(&self) -> &[Top]
        ensures value { result.now ≡ self.now }
        ensures sound { IsSound result.now }
    {
        &self.tops
    }
}
