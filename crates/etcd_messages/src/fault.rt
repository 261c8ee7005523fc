//! Why an answer says nothing.

ghost use Rattle.std.specs.Prelude.{◌≡◌};
ghost use Rattle.etcd_messages.specs.declared.fault.Unread.TheVariants.{NoMemory as OutOfMemory};
ghost use Rattle.etcd_messages.specs.Faults.{status_fault, login_fault};

use std::alloc::{AllocError, AllocFailed};
use usbnum_core::NoMemory;

/// The members of answers that are read.
#[derive(Clone, Copy, Debug, PartialEq, Eq)]
pub enum Member {
    /// What every answer has.
    Header,
    /// Whether the condition of a transaction held.
    Succeeded,
    /// What the steps of a transaction gave.
    Responses,
    /// The pairs of a key and a value that were found.
    Kvs,
    /// The key of a pair.
    Key,
    /// The value of a pair.
    Value,
    /// Whether there are more pairs.
    More,
    /// The number of keys.
    Count,
    /// The token of a login.
    Token,
    /// The reason of an error.
    Error,
}

impl Member {
    ghost use Rattle.std.specs.Prelude.{◌≡◌};
    ghost use Rattle.etcd_messages.specs.Faults.{member_name};

    /// Returns its name in JSON.
    pub fn name(self) -> &'static str
        ensures { result.now ≡ member_name self }
    {
        match self {
            Member::Header => "header",
            Member::Succeeded => "succeeded",
            Member::Responses => "responses",
            Member::Kvs => "kvs",
            Member::Key => "key",
            Member::Value => "value",
            Member::More => "more",
            Member::Count => "count",
            Member::Token => "token",
            Member::Error => "error",
        }
    }
}

/// The fault of an answer. What became of the request is then not known.
#[derive(Clone, Copy, Debug, PartialEq, Eq)]
pub enum AnswerFault {
    /// The members of etcd do not agree on a leader, or too few of them answer.
    NoQuorum,
    /// The token of the login is not valid, or not any more.
    BadToken,
    /// The user may not do that.
    Forbidden,
    /// The name or the password of the user is wrong.
    BadLogin,
    /// A status other than 200 that does not say one of these.
    BadStatus(u16),
    /// The answer has more than 32 MiB.
    TooLong,
    /// The answer is not a JSON object.
    BadJson,
    /// A member of the answer is missing, or not what it is to be: the first such member.
    BadMember(Member),
}

/// Why an answer was not read.
#[derive(Clone, Copy, Debug, PartialEq, Eq)]
pub enum Unread {
    /// It has a fault.
    Bad(AnswerFault),
    /// Memory ran out.
    NoMemory,
}

impl From<AllocError> for Unread {
    ghost from_gives = { λ _ unread. unread ≡ OutOfMemory };

    fn from(_error: AllocError) -> Unread {
        Unread::NoMemory
    }
}

impl<T: Drop> From<AllocFailed<T>> for Unread {
    ghost from_gives = { λ _ unread. unread ≡ OutOfMemory };

    fn from(_error: AllocFailed<T>) -> Unread {
        Unread::NoMemory
    }
}

impl From<NoMemory> for Unread {
    ghost from_gives = { λ _ unread. unread ≡ OutOfMemory };

    fn from(_error: NoMemory) -> Unread {
        Unread::NoMemory
    }
}

// Returns what an answer with this status says, which is not 200.
pub(crate) fn status_fault(status: u16) -> AnswerFault
    ensures { result ≡ status_fault status }
{
    match status {
        401 => AnswerFault::BadToken,
        403 => AnswerFault::Forbidden,
        503 => AnswerFault::NoQuorum,
        _ => AnswerFault::BadStatus(status),
    }
}

// Returns the same of the answer to a login.
pub(crate) fn login_fault(status: u16) -> AnswerFault
    ensures { result ≡ login_fault status }
{
    if status == 400 {
        AnswerFault::BadLogin
    } else {
        status_fault(status)
    }
}
