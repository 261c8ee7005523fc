//! A log in memory, for tests.

ghost use Rattle.std.specs.Prelude.{◌≡◌, IfOk, OnErr};
ghost use Rattle.shared_log.specs.Calls.{AppendMeans, AtSomeInstant, Grows, IsLogHead, IsLogPage};

use crate::answers::{AppendAnswer, HeadAnswer, PageAnswer};
use crate::deciding::{decide, head_of, page_of};
use crate::fault::LogFault;
use crate::line::{Line, Lines};
use crate::log::Log;
use std::alloc::Global;
use usbnum_core::NoMemory;

/// What becomes of one call of a log in memory.
#[derive(Clone, Copy, Debug, PartialEq, Eq)]
pub enum Fate {
    /// It is answered.
    Answers,
    /// It gets no answer, and an append is never decided.
    Loses,
    /// It gets no answer, and an append is decided at once.
    Forgets,
    /// It gets no answer, and an append is decided when the next call comes.
    Delays,
    /// It is answered, and an append is decided once more when the next call comes.
    Repeats,
}

/// An append that is decided when the next call comes.
#[derive(Debug, Drop)]
struct Late {
    n: u32,
    line: Line,
}

/// A log in memory. Calls get no answer, and appends are decided later or once more, as it is told.
#[derive(Debug, Drop)]
pub struct MemoryLog {
    lines: Lines,
    late: Option<Late>,
    fates: Vec<Fate>,
    most: usize,
}

// Decides an append that was late.
#[tactic(auto, using(crate::proofs::CallLemmas::grows_nothing, crate::proofs::CallLemmas::means_grows))]
fn land(alloc: Global, lines: &mut Lines, late: Option<Late>) -> Result<(), NoMemory>
    ensures { Grows lines.old lines.new }
{
    match late {
        Some(Late { n, line }) => {
            let _decided = decide(alloc, lines, n, line.as_bytes())?;
            Ok(())
        }
        None => Ok(()),
    }
}

impl MemoryLog {
    ghost use Rattle.std.specs.Prelude.{◌≡◌, []};
    ghost use Rattle.shared_log.specs.Memory.{decided_lines};

    /// Makes a log without a line, which gives at most so many lines in one answer, and at least one.
    pub fn new(alloc: Global, most: u16) -> MemoryLog
        ensures { decided_lines result ≡ [] }
    {
        MemoryLog {
            lines: Lines::new(alloc),
            late: None,
            fates: Vec::new(alloc),
            most: usize::from(most.max(1)),
        }
    }

    /// Returns the lines.
    pub fn lines(&self) -> &Lines
        ensures { result.now ≡ decided_lines self.now }
    {
        &self.lines
    }

    /// Says what becomes of the next calls: the last of these is that of the next one. Later calls are
    /// answered.
    pub fn set_fates(&mut self, fates: Vec<Fate>)
        ensures { decided_lines self.new ≡ decided_lines self.old }
    {
        self.fates = fates;
    }

    // Returns what becomes of this call.
    fn next_fate(&mut self) -> Fate
        ensures { decided_lines self.new ≡ decided_lines self.old }
    {
        self.fates.pop().unwrap_or(Fate::Answers)
    }

    // Begins a call.
    #[tactic(auto, using(crate::proofs::CallLemmas::grows_nothing))]
    fn begin(&mut self, alloc: Global) -> Result<Fate, NoMemory>
        ensures { Grows (decided_lines self.old) (decided_lines self.new) }
    {
        let late = self.late.take();
        land(alloc, &mut self.lines, late)?;
        Ok(self.next_fate())
    }

    // Lets an append be decided when the next call comes.
    fn delay(&mut self, alloc: Global, n: u32, line: &[u8]) -> Result<(), NoMemory>
        ensures { decided_lines self.new ≡ decided_lines self.old }
    {
        let line = Line::new(line.to_vec(alloc)?);
        self.late = Some(Late { n, line });
        Ok(())
    }

    // Decides an append.
    fn decide(&mut self, alloc: Global, n: u32, line: &[u8]) -> Result<AppendAnswer, NoMemory>
        ensures ok { IfOk result (λ answer. AppendMeans n line.now answer (decided_lines self.old) (decided_lines self.new)) }
        ensures err { OnErr result (decided_lines self.new ≡ decided_lines self.old) }
    {
        decide(alloc, &mut self.lines, n, line)
    }

    // Does what becomes of an append.
    #[tactic(auto, using(crate::proofs::CallLemmas::grows_nothing, crate::proofs::CallLemmas::means_grows))]
    fn suffer(
        &mut self,
        alloc: Global,
        fate: Fate,
        n: u32,
        line: &[u8],
    ) -> Result<AppendAnswer, LogFault>
        ensures ok { IfOk result (λ answer. AppendMeans n line.now answer (decided_lines self.old) (decided_lines self.new)) }
        ensures err { OnErr result (Grows (decided_lines self.old) (decided_lines self.new)) }
    {
        match fate {
            Fate::Answers => Ok(self.decide(alloc, n, line)?),
            Fate::Loses => Err(LogFault::Unreachable),
            Fate::Forgets => {
                let _forgotten = self.decide(alloc, n, line)?;
                Err(LogFault::Unreachable)
            }
            Fate::Delays => {
                self.delay(alloc, n, line)?;
                Err(LogFault::Unreachable)
            }
            Fate::Repeats => {
                self.delay(alloc, n, line)?;
                Ok(self.decide(alloc, n, line)?)
            }
        }
    }
}

// Returns whether a call is answered.
fn is_answered(fate: Fate) -> bool {
    matches!(fate, Fate::Answers | Fate::Repeats)
}

impl Log for MemoryLog {
    ghost use Rattle.shared_log.specs.Memory.{decided_lines};

    ghost appends = { λ s t n line answer. AppendMeans n line answer (decided_lines s) (decided_lines t) };

    ghost reads = { λ s t n page. AtSomeInstant (decided_lines s) (decided_lines t) (IsLogPage n page) };

    ghost looks = { λ s t head. AtSomeInstant (decided_lines s) (decided_lines t) (IsLogHead head) };

    ghost fails = { λ s t. Grows (decided_lines s) (decided_lines t) };

    #[tactic(auto, using(crate::proofs::CallLemmas::grows_further, crate::proofs::CallLemmas::means_after))]
    fn append(&mut self, alloc: Global, n: u32, line: &[u8]) -> Result<AppendAnswer, LogFault> {
        let fate = self.begin(alloc)?;
        self.suffer(alloc, fate, n, line)
    }

    #[tactic(auto, using(crate::proofs::CallLemmas::at_the_end))]
    fn page(&mut self, alloc: Global, n: u32) -> Result<PageAnswer, LogFault> {
        let fate = self.begin(alloc)?;
        if !is_answered(fate) {
            return Err(LogFault::Unreachable);
        }
        Ok(page_of(alloc, &self.lines, n, self.most)?)
    }

    #[tactic(auto, using(crate::proofs::CallLemmas::at_the_end))]
    fn head(&mut self, alloc: Global) -> Result<HeadAnswer, LogFault> {
        let fate = self.begin(alloc)?;
        if !is_answered(fate) {
            return Err(LogFault::Unreachable);
        }
        match head_of(&self.lines)? {
            Some(head) => Ok(head),
            None => Err(LogFault::BadAnswer),
        }
    }
}
