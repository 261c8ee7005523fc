//! The code and the name of an entry.
ghost use Rattle.std.specs.Prelude.{◌≡◌, IfOk};
ghost use Rattle.usbids_text.specs.Heads.{text_of};

use crate::name::Text;
use crate::short::{MOST_SHORT, Short};
use std::alloc::Global;
use std::marker::Model;
use usbnum_core::NoMemory;

/// The parts of a head. The code shares the first eight bytes with the variant.
#[derive(Debug, Drop)]
enum Parts {
    Here {
        digits: u8,
        code: u16,
        name: Short,
    },
    There {
        digits: u8,
        code: u16,
        name: Vec<u8>,
    },
}

/// The code of an entry, the number of its digits, and the name.
#[derive(Debug, Drop)]
pub struct Head {
    parts: Parts,
}

impl Model for Head {
    ghost use Rattle.usbids_text.specs.Heads.{EntryHead, head_of};

    ghost Value = { EntryHead };

    ghost view = { λ a. head_of a.parts };
}

impl Head {
    /// Puts the parts together.
    pub fn new(code: u16, digits: u8, name: Text) -> Head
        ensures { result ≡ record { code = code; digits = digits; name = text_of name } }
    {
        match name {
            Text::Here(name) => Head {
                parts: Parts::Here { digits, code, name },
            },
            Text::There(name) => Head {
                parts: Parts::There { digits, code, name },
            },
        }
    }

    /// Copies the name. It is not inlined, and makes a head of a short name itself, so that the
    /// bytes are moved as a whole.
    #[inline(never)]
    pub fn of(alloc: Global, code: u16, digits: u8, name: &[u8]) -> Result<Head, NoMemory>
        ensures { IfOk result (λ head. head ≡ record { code = code; digits = digits; name = name.now }) }
    {
        if name.len() <= MOST_SHORT {
            return Ok(Head {
                parts: Parts::Here {
                    digits,
                    code,
                    name: Short::new(name),
                },
            });
        }
        Ok(Head::new(code, digits, Text::of(alloc, name)?))
    }

    /// Returns the code.
    pub fn code(&self) -> u16
        ensures { result ≡ self.now.code }
    {
        match &self.parts {
            Parts::Here { code, .. } => *code,
            Parts::There { code, .. } => *code,
        }
    }

    /// Returns the number of digits of the code.
    pub fn digits(&self) -> u8
        ensures { result ≡ self.now.digits }
    {
        match &self.parts {
            Parts::Here { digits, .. } => *digits,
            Parts::There { digits, .. } => *digits,
        }
    }

    /// Returns the name.
    pub fn name(&self) -> &[u8]
        ensures { result.now ≡ self.now.name }
    {
        match &self.parts {
            Parts::Here { name, .. } => name.as_bytes(),
            Parts::There { name, .. } => name,
        }
    }
}
