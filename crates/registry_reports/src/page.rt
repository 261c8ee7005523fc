//! A page of lines: as many as fit.
ghost use Rattle.std.specs.Prelude.{◌≡◌, ◌<◌, ◌++◌, ◌∷◌, [], ◌↔◌, ℕ, List, length, IsTrue, IfOk};
ghost use Rattle.std.specs.Bool.{MatchBool};
ghost use Rattle.std.specs.String.{string_bytes};
ghost use Rattle.registry_reports.specs.Pages.{HasLines, MayFollow, wanted_lines};

use std::alloc::Global;
use usbnum_core::NoMemory;

/// The most lines of a page.
const MOST_LINES: usize = 1000;

/// The most bytes of a page of more than one line, line feeds included.
const MOST_BYTES: usize = 1_048_576;

/// The most lines that a page wants at once.
const MOST_WANTED: usize = 4;

/// The bytes of a line, on average, from which a page wants one line at once.
const LONG_LINE: usize = 4096;

/// The lines of a page so far, each ended by a line feed.
#[derive(Drop)]
pub struct Page {
    text: String,
    count: usize,
}

impl Page {
    /// Makes a page without lines.
    pub fn new(alloc: Global) -> Page
        ensures { HasLines result [] }
    {
        Page {
            text: String::new(alloc),
            count: 0,
        }
    }

    /// Returns whether the line may follow: it is the first, or the page then has at most 1,000
    /// lines and at most 1,048,576 bytes.
    fn takes(&self, line: &str) -> bool
        ensures follows { (lines : List (List ℕ)) → HasLines self.now lines → (IsTrue result ↔ MayFollow lines line.now) }
        ensures few { IsTrue result → self.now.count < 1000 }
    {
        self.count == 0
            || self.count < MOST_LINES && line.len() < MOST_BYTES.saturating_sub(self.text.len())
    }

    /// Returns how many lines to fetch next for the page: none if no line may follow. The last line
    /// that is fetched may not fit, and any line may be long: so it is one as long as the page has no
    /// line, or its lines have 4,096 bytes or more on average, and else at most 4.
    pub fn wanted(&self) -> u32
        ensures { result ≡ wanted_lines self.now.count (length (string_bytes self.now.text)) }
    {
        if self.text.len() < MOST_BYTES {
            if self.text.len() / LONG_LINE < self.count {
                MOST_WANTED.min(MOST_LINES.saturating_sub(self.count)) as u32
            } else {
                1
            }
        } else {
            0
        }
    }

    /// Appends a line and a line feed if the line is the first, or if the page then has at most
    /// 1,000 lines and at most 1,048,576 bytes. Returns whether it did. After `NoMemory` the page
    /// must not be used any more.
    pub fn push(&mut self, line: &str) -> Result<bool, NoMemory>
        ensures { IfOk result (λ pushed. (lines : List (List ℕ)) → HasLines self.old lines →
            MatchBool pushed (HasLines self.new (lines ++ line.now ∷ []) × MayFollow lines line.now) (HasLines self.new lines × ¬ MayFollow lines line.now)) }
    {
        if !self.takes(line) {
            return Ok(false);
        }
        self.text.push_str(line)?;
        self.text.push_str("\n")?;
        self.count += 1;
        Ok(true)
    }

    /// Returns the text of the lines.
    pub fn into_text(self) -> String
        ensures { result ≡ self.text }
    {
        self.text
    }
}
