//! Says what an invalid argument may be.

use crate::causes::is_message;
use registry_commands::BadArgument;

const ARGUMENTS: [BadArgument; 8] = [
    BadArgument::Stamp,
    BadArgument::Name,
    BadArgument::Vid,
    BadArgument::Pid,
    BadArgument::Caller,
    BadArgument::Key,
    BadArgument::Org,
    BadArgument::Vendor,
];

/// Returns the invalid argument of which a line is the message.
pub(crate) fn argument_in(line: &[u8]) -> Option<BadArgument> {
    for argument in ARGUMENTS {
        if is_message(line, argument.line()) {
            return Some(argument);
        }
    }
    None
}

/// Returns the words for an invalid argument: what it may be.
pub(crate) fn what_may_be(argument: BadArgument) -> &'static str {
    match argument {
        BadArgument::Stamp => "a stamp is a time as 2024-01-30 20:34:13",
        BadArgument::Name => "a report is census, holders, petitions, numbers or organisations",
        BadArgument::Vid | BadArgument::Pid | BadArgument::Vendor => {
            "an ID is four hexadecimal digits"
        }
        BadArgument::Caller | BadArgument::Org => "a slug is 1 to 32 of a-z, 0-9 and -",
        BadArgument::Key => "a key is 1 to 64 of A-Z, a-z, 0-9, - and _",
    }
}
