//! Lists of curators and of licences.

ghost use Rattle.std.specs.Prelude.{◌≡◌, ◌≤◌, ◌↔◌, ℕ, List, [], ◌∷◌, ◌++◌, IsTrue, IsSome, IfSome, OnOk, length};
ghost use Rattle.std.specs.List.{list_any};
ghost use Rattle.std.specs.Str.{bytes_eq};
ghost use Rattle.registry_rules.specs.Limits.{most_curators, most_licences};
ghost use Rattle.registry_rules.specs.Texts.{AreSorted};

use crate::limits::{MOST_CURATORS, MOST_LICENCES};
use std::alloc::AllocError;
use std::marker::Model;
use usbnum_core::{NoMemory, Slug, Text, TextRule, Title};

/// The curators of a registry, the callers who run it: one to `MOST_CURATORS` slugs, sorted by
/// their bytes and without repeats.
#[derive(Debug, Drop)]
pub struct Curators {
    slugs: Vec<Slug>,
}

impl Model for Curators {
    ghost use Rattle.std.specs.Prelude.{List, ℕ};
    ghost use Rattle.registry_rules.specs.Texts.{IsCurators};

    ghost Value = { List (List ℕ) };

    ghost view = { λ a. a.slugs.items };

    ghost invariant = { λ a. IsCurators a.slugs.items };
}

impl Curators {
    ghost use Rattle.registry_rules.specs.Texts.{IsCurators};

    /// Sorts these slugs and removes repeats. Returns None if the list given is empty or has more
    /// than `MOST_CURATORS` elements.
    pub fn new(slugs: Vec<Slug>) -> Option<Curators>
        ensures counted { IsSome result ↔ ((1 ≤ length slugs.items) × (length slugs.items ≤ most_curators)) }
        ensures same { IfSome result (AreSorted slugs.items) }
    {
        if slugs.is_empty() || slugs.len() > MOST_CURATORS {
            return None;
        }
        Some(Curators {
            slugs: in_order(slugs),
        })
    }

    /// Returns whether the caller is a curator.
    pub fn contains(&self, slug: &Slug) -> bool
        ensures { result ≡ list_any (bytes_eq slug.now) self.now }
    {
        self.slugs.iter().any(|other| slug == other)
    }

    /// Returns the length of the list.
    pub fn len(&self) -> usize
        ensures { result ≡ length self.now }
    {
        self.slugs.len()
    }

    /// Returns whether the list is empty, which is always false.
    pub fn is_empty(&self) -> bool
        ensures { IsTrue result ↔ (length self.now ≡ 0) }
    {
        self.slugs.is_empty()
    }

    /// Returns the curators, ascending.
    pub fn as_slice(&self) -> &[Slug]
        ensures slugs { result.now ≡ self.now }
        ensures valid { IsCurators self.now }
    {
        &self.slugs
    }
}

impl Clone for Curators {
    ghost is_clone = { λ curators copy. copy ≡ curators };

    fn clone(&self) -> Result<Curators, AllocError> {
        Ok(Curators {
            slugs: self.slugs.clone()?,
        })
    }
}

/// The licences that a registry allows: one to `MOST_LICENCES` titles, sorted by their bytes and
/// without repeats.
#[derive(Debug, Drop)]
pub struct Licences {
    titles: Vec<Title>,
}

impl Model for Licences {
    ghost use Rattle.std.specs.Prelude.{List, ℕ};
    ghost use Rattle.registry_rules.specs.Texts.{IsLicences};

    ghost Value = { List (List ℕ) };

    ghost view = { λ a. a.titles.items };

    ghost invariant = { λ a. IsLicences a.titles.items };
}

impl Licences {
    ghost use Rattle.registry_rules.specs.Texts.{IsLicences};

    /// Sorts these titles and removes repeats. Returns None if the list given is empty or has more
    /// than `MOST_LICENCES` elements.
    pub fn new(titles: Vec<Title>) -> Option<Licences>
        ensures counted { IsSome result ↔ ((1 ≤ length titles.items) × (length titles.items ≤ most_licences)) }
        ensures same { IfSome result (AreSorted titles.items) }
    {
        if titles.is_empty() || titles.len() > MOST_LICENCES {
            return None;
        }
        Some(Licences {
            titles: in_order(titles),
        })
    }

    // Adds a title. Returns NoMemory also if the list has `MOST_LICENCES`.
    pub(crate) fn add(&mut self, title: Title) -> Result<(), NoMemory>
        ensures { OnOk result (AreSorted (self.old ++ title ∷ []) self.new) }
    {
        if self.titles.len() >= MOST_LICENCES {
            return Err(NoMemory);
        }
        let mut titles = self.titles.clone()?;
        titles.push(title)?;
        self.titles = in_order(titles);
        Ok(())
    }

    /// Returns whether the licence is allowed.
    pub fn contains(&self, title: &Title) -> bool
        ensures { result ≡ list_any (bytes_eq title.now) self.now }
    {
        self.titles.iter().any(|other| title == other)
    }

    /// Returns the length of the list.
    pub fn len(&self) -> usize
        ensures { result ≡ length self.now }
    {
        self.titles.len()
    }

    /// Returns whether the list is empty, which is always false.
    pub fn is_empty(&self) -> bool
        ensures { IsTrue result ↔ (length self.now ≡ 0) }
    {
        self.titles.is_empty()
    }

    /// Returns the licences, ascending.
    pub fn as_slice(&self) -> &[Title]
        ensures titles { result.now ≡ self.now }
        ensures valid { IsLicences self.now }
    {
        &self.titles
    }
}

impl Clone for Licences {
    ghost is_clone = { λ licences copy. copy ≡ licences };

    fn clone(&self) -> Result<Licences, AllocError> {
        Ok(Licences {
            titles: self.titles.clone()?,
        })
    }
}

// The texts, sorted by their bytes and without repeats.
fn in_order<R: TextRule>(texts: Vec<Text<R>>) -> Vec<Text<R>>
    ensures same { AreSorted texts.items result.items }
    ensures some { 1 ≤ length texts.items → 1 ≤ length result.items }
    ensures most { length result.items ≤ length texts.items }
{
    let mut texts = texts;
    texts.sort_unstable();
    texts.dedup();
    texts
}
