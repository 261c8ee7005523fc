//! Builds a document from the complete lines of a text.
ghost use Rattle.std.specs.Prelude.{◌≡◌, ◌⊎◌, None, Some, OnOk, IfOk, IfErr, IsTrue};
ghost use Rattle.std.specs.List.{list_all};
ghost use Rattle.usbids_text.specs.Words.{is_inner};
ghost use Rattle.usbids_text.specs.Documents.{next};
ghost use Rattle.usbids_text.specs.Opens.{document_so_far};
ghost use Rattle.usbids_text.specs.Building.{open_of};
ghost use Rattle.usbids_text.specs.Feeding.{refused, line_done, step};

use crate::builder::Builder;
use crate::document::Document;
use crate::fault::{LineFault, ReadFault};
use crate::line::{Why, class_of};
use usbnum_core::NoMemory;

/// The state of a reader after the complete lines.
#[derive(Drop)]
pub struct Taken {
    /// The number of the next line.
    pub line: u64,
    /// The document so far.
    pub builder: Builder,
    /// The first fault.
    pub fault: Option<ReadFault>,
}

fn next(n: u64) -> u64
    ensures { result ≡ next n }
{
    n.saturating_add(1)
}

impl Taken {
    ghost use Rattle.usbids_text.specs.Held.{held_of};

    /// Records the fault of the next line.
    pub fn refuse(&mut self, why: Why)
        ensures { held_of self.new ≡ refused (held_of self.old) why }
    {
        self.fault = Some(ReadFault::Line(LineFault {
            line: self.line,
            why,
        }));
    }

    #[tactic(auto, unfolding(crate::specs::Feeding::line_done))]
    fn take_first(&mut self, line: &[u8]) -> Result<(), NoMemory>
        requires { IsTrue (list_all is_inner line.now) }
        ensures { OnOk result (held_of self.new ≡ line_done (held_of self.old) line.now) }
    {
        match class_of(line) {
            Ok(None) => self.line = next(self.line),
            Ok(Some(entry)) => match self.builder.misplaced(&entry) {
                None => {
                    self.builder.put(entry)?;
                    self.line = next(self.line);
                }
                Some(why) => self.refuse(why),
            },
            Err(why) => self.refuse(why),
        }
        Ok(())
    }

    /// Takes a complete line, unless an earlier one was faulty.
    pub fn take_line(&mut self, line: &[u8]) -> Result<(), NoMemory>
        requires { IsTrue (list_all is_inner line.now) }
        ensures { OnOk result (held_of self.new ≡ step (held_of self.old) line.now) }
    {
        if self.fault.is_some() {
            return Ok(());
        }
        self.take_first(line)
    }

    /// Returns the document of the lines, or the first fault.
    pub fn finish(self) -> Result<Document, ReadFault>
        ensures ok { IfOk result (λ doc. (self.fault ≡ None) × (doc ≡ document_so_far (open_of self.builder))) }
        ensures err { IfErr result (λ e. (e ≡ ReadFault.NoMemory) ⊎ (self.fault ≡ Some e)) }
    {
        let Taken {
            line: _,
            builder,
            fault,
        } = self;
        match fault {
            Some(fault) => Err(fault),
            None => builder.finish().map_err(|_| ReadFault::NoMemory),
        }
    }
}
