//! What the program asks of the machine for a log that several machines share.

ghost use Rattle.std.specs.Prelude.{ℕ, List, IfOk, IfErr};
ghost use Rattle.registry_program.specs.declared.logs.NoLog.{NoLog};
ghost use Rattle.shared_registry.specs.declared.stop.ShareStop.{ShareStop};

use shared_log::Log;
use shared_registry::ShareStop;

/// Why there is no log.
#[derive(Clone, Copy, Debug, PartialEq, Eq)]
pub enum NoLog {
    /// The address is that of no log.
    BadAddress,
    /// Out of memory.
    NoMemory,
}

/// A machine that reaches logs. A state of it is known by the calls that led to it, in their order.
pub trait Logs {
    /// A log.
    type Log: Log + Drop;

    /// This is the log at an address.
    ghost finds: { Self → Self → List ℕ → Self.Log → Type 0 };

    /// There is no log for an address, for this reason.
    ghost rejects: { Self → Self → List ℕ → NoLog → Type 0 };

    /// The log was left, for this reason.
    ghost leaves: { Self → Self → Self.Log → ShareStop → Type 0 };

    /// The log was closed in this state, so that nothing more is asked of it.
    ghost closes: { Self → Self → Self.Log → Type 0 };

    /// Returns the log at an address. Nothing is asked of it yet.
    ///
    /// # Errors
    ///
    /// If the address is that of no log, or out of memory.
    fn log_at(&mut self, address: &str) -> Result<Self::Log, NoLog>
        ensures found { IfOk result (λ log. finds self.old self.new address.now log) }
        ensures rejected { IfErr result (λ why. rejects self.old self.new address.now why) };

    /// Leaves a log with which a registry did not go on, and notes the reason.
    fn leave_log(&mut self, log: Self::Log, stop: ShareStop)
        ensures { leaves self.old self.new log stop };

    /// Closes a log once all was done with it.
    fn close_log(&mut self, log: Self::Log)
        ensures { closes self.old self.new log };
}
