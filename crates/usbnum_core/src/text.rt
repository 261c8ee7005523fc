//! Texts that keep a rule.

ghost use Rattle.std.specs.Prelude.{◌≡◌, ◌==◌, ◌↔◌, ℕ, List, Some, IsTrue, IfOk};
ghost use Rattle.std.specs.Option.{SomeIff};
ghost use Rattle.std.specs.Cmp.Lexicographic.{pointwise, slice_cmp};
ghost use Rattle.std.specs.Ordering.{nat_cmp, as_partial_cmp};
ghost use Rattle.std.specs.Cmp.{partial_order_from_own_ties};
ghost use Rattle.std.specs.Cmp.Rules.{comparing};
ghost use Rattle.std.specs.String.{string_bytes};
ghost use Rattle.std.specs.Str.{IsUtf8};
ghost use Rattle.std.proofs.Common.{rules};

use crate::NoMemory;
use std::alloc::{AllocError, Global};
use std::cmp::Ordering;
use std::fmt;
use std::marker::{Model, PhantomData};

/// A rule for the bytes of one kind of text.
pub trait TextRule: Drop {
    ghost IsValid: { List ℕ → Type 0 };

    /// Returns whether the bytes are such a text.
    fn accepts(bytes: &[u8]) -> bool
        ensures { IsTrue result ↔ IsValid bytes.now };

    ghost valid_is_utf8: { (bytes : List ℕ) → IsValid bytes → IsUtf8 bytes };
}

/// A text that a rule accepts. A contract sees its bytes, by which it is compared and ordered.
#[derive(Drop)]
pub struct Text<R: TextRule> {
    text: String,
    rule: PhantomData<R>,
}

impl<R: TextRule> Model for Text<R> {
    ghost Value = { List ℕ };

    ghost view = { λ a. string_bytes a.text };

    ghost invariant = { λ a. R.IsValid (string_bytes a.text) };
}

impl<R: TextRule> Text<R> {
    /// Makes a text from the bytes, or returns None if the rule does not accept them.
    pub fn new(alloc: Global, bytes: &[u8]) -> Result<Option<Text<R>>, NoMemory>
        ensures { IfOk result (λ found. SomeIff found (R.IsValid bytes.now) bytes.now) }
    {
        if !R::accepts(bytes) {
            return Ok(None);
        }
        match std::str::from_utf8(bytes) {
            Ok(text) => Ok(Some(Text {
                text: String::from_str(alloc, text)?,
                rule: PhantomData,
            })),
            Err(_) => unreachable!(),
        }
    }

    /// Returns the text, whose bytes the rule accepts.
    pub fn as_str(&self) -> &str
        ensures text { result.now ≡ self.now }
        ensures valid { R.IsValid self.now }
    {
        self.text.as_str()
    }
}

impl<R: TextRule> Clone for Text<R> {
    ghost is_clone = { λ value copy. copy ≡ value };

    fn clone(&self) -> Result<Text<R>, AllocError> {
        Ok(Text {
            text: self.text.clone()?,
            rule: PhantomData,
        })
    }
}

impl<R: TextRule> PartialEq for Text<R> {
    ghost eq = { pointwise ◌==◌ };

    ghost laws = { Prim.search (comparing, rules) };

    fn eq(&self, other: &Text<R>) -> bool {
        self.text == other.text
    }
}

impl<R: TextRule> Eq for Text<R> {
    ghost laws = { Prim.search (comparing, rules) };
}

impl<R: TextRule> Ord for Text<R> {
    ghost cmp = { slice_cmp nat_cmp };

    ghost total = { Prim.search (comparing, rules) };

    ghost matches_partial_cmp = { Prim.search (comparing, rules) };

    ghost matches_eq = { Prim.search (comparing, rules) };

    fn cmp(&self, other: &Text<R>) -> Ordering {
        self.text.cmp(&other.text)
    }
}

impl<R: TextRule> PartialOrd for Text<R> {
    ghost partial_cmp = { as_partial_cmp (slice_cmp nat_cmp) };

    ghost laws = { partial_order_from_own_ties (Prim.search (comparing, rules)) (Prim.search (comparing, rules)) };

    fn partial_cmp(&self, other: &Text<R>) -> Option<Ordering> {
        Some(self.cmp(other))
    }
}

/// Writes the text itself.
impl<R: TextRule> fmt::Display for Text<R> {
    ghost output = { λ text. Some text };

    fn fmt<W: fmt::Write>(&self, f: &mut fmt::Formatter<W>) -> fmt::Result {
        f.write_str(&self.text)
    }
}

/// Writes the text in quotes.
impl<R: TextRule> fmt::Debug for Text<R> {
    fn fmt<W: fmt::Write>(&self, f: &mut fmt::Formatter<W>) -> fmt::Result {
        fmt::Debug::fmt(&self.text, f)
    }
}
