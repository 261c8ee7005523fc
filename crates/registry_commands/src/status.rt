//! The exit statuses of commands.

/// How a command ends. The program's exit status is its code, which scripts use.
#[derive(Clone, Copy, Debug, PartialEq, Eq)]
pub enum ExitStatus {
    /// The command did what it was asked for.
    Success,
    /// The store, the registry, an input, the output or memory failed, which the error output says.
    Failed,
    /// An argument, an input or a request is refused, or a look-up finds nothing.
    Rejected,
}

impl ExitStatus {
    ghost use Rattle.std.specs.Prelude.{◌≡◌, ◌⊎◌};
    ghost use Rattle.registry_commands.specs.Ends.{code};

    /// Returns the number of this status.
    pub fn code(self) -> u8
        ensures number { result ≡ code self }
        ensures few { (result ≡ 0) ⊎ (result ≡ 1) ⊎ (result ≡ 2) }
    {
        match self {
            ExitStatus::Success => 0,
            ExitStatus::Failed => 1,
            ExitStatus::Rejected => 2,
        }
    }
}
