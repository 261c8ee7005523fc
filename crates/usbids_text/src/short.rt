//! A few bytes that lie in the value itself.
ghost use Rattle.std.specs.Prelude.{◌≡◌, ◌≤◌, length};

use std::marker::Model;

/// The most bytes that a `Short` has. Few names in a list are longer.
pub const MOST_SHORT: usize = 35;

/// At most 35 bytes, without an allocation.
#[derive(Debug, Drop)]
pub struct Short {
    len: u8,
    text: [u8; 35],
}

impl Model for Short {
    ghost use Rattle.std.specs.Prelude.{List, ℕ, ◌≤◌, take};

    ghost Value = { List ℕ };

    ghost view = { λ a. take a.len a.text };

    ghost invariant = { λ a. a.len ≤ 35 };
}

impl Short {
    /// Copies the bytes.
    pub fn new(bytes: &[u8]) -> Short
        requires { length bytes.now ≤ 35 }
        ensures { result ≡ bytes.now }
    {
        let mut text = [0u8; 35];
        text[..bytes.len()].copy_from_slice(bytes);
        Short {
            len: bytes.len() as u8,
            text,
        }
    }

    /// Returns the bytes.
    pub fn as_bytes(&self) -> &[u8]
        ensures { result.now ≡ self.now }
    {
        &self.text[..usize::from(self.len)]
    }
}
