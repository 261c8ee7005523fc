//! Invalid arguments of the command line.

ghost use Rattle.std.specs.Prelude.{◌≡◌};
ghost use Rattle.registry_commands.specs.Ends.{output_of};
ghost use Rattle.registry_commands.specs.Failures.{Prints};
ghost use Rattle.registry_commands.specs.Arguments.{bad_argument_line};

use crate::messages::tell;
use crate::status::ExitStatus;
use byte_streams::Sink;

/// An invalid argument.
#[derive(Clone, Copy, Debug, PartialEq, Eq)]
pub enum BadArgument {
    /// The stamp of an export.
    Stamp,
    /// The name of a report.
    Name,
    /// The vendor ID of a look-up.
    Vid,
    /// The product ID of a look-up.
    Pid,
    /// The caller of an import.
    Caller,
    /// The key of an import.
    Key,
    /// The organisation of an import.
    Org,
    /// The vendor of an import.
    Vendor,
}

impl BadArgument {
    ghost use Rattle.std.specs.Prelude.{◌≡◌};
    ghost use Rattle.registry_commands.specs.Arguments.{bad_argument_line};

    /// Returns the message for this argument, as a line.
    pub fn line(self) -> &'static str
        ensures { result.now ≡ bad_argument_line self }
    {
        match self {
            BadArgument::Stamp => "bad word: stamp\n",
            BadArgument::Name => "bad word: name\n",
            BadArgument::Vid => "bad word: vid\n",
            BadArgument::Pid => "bad word: pid\n",
            BadArgument::Caller => "bad word: caller\n",
            BadArgument::Key => "bad word: key\n",
            BadArgument::Org => "bad word: org\n",
            BadArgument::Vendor => "bad word: vendor\n",
        }
    }
}

/// Prints which argument is invalid, and returns the exit status.
pub fn reject_argument<E: Sink>(errors: &mut E, argument: BadArgument) -> ExitStatus
    ensures status { result ≡ ExitStatus.Rejected }
    ensures told { Prints (output_of E.Sink errors.old errors.new) (bad_argument_line argument) }
{
    tell(errors, argument.line());
    ExitStatus::Rejected
}
