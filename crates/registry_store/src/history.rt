//! The history of a registry: the founding with its first licences, and the record of accepted
//! requests.

ghost use Rattle.std.specs.Prelude.{◌≡◌, IfOk};

use crate::fault::Fault;
use crate::registry::Registry;
use registry_rules::{Accepted, Founding, Licences};
use registry_tables::{Head, accepted_after, find_digest, first_licences};
use sqlite::Alter;
use usbnum_core::{Digest, NoMemory};

// The founding with these licences.
fn with_licences(founding: &Founding, licences: Licences) -> Result<Founding, NoMemory>
    ensures { IfOk result (λ it. it ≡ record founding.now { licences = licences }) }
{
    Ok(Founding {
        vendor: founding.vendor,
        name: founding.name.clone()?,
        curators: founding.curators.clone()?,
        licences,
        fixed: founding.fixed.clone()?,
    })
}

impl<S: Alter> Registry<S> {
    ghost use Rattle.std.specs.Prelude.{◌≡◌, true, take, drop, IsOkAnd, OnErr, Err};
    ghost use Rattle.registry_rules.specs.Accepted.{AreValid, accepted_of};
    ghost use Rattle.registry_rules.specs.History.{History};
    ghost use Rattle.registry_tables.specs.Head.{IsHead, digest_at};
    ghost use Rattle.registry_store.specs.Promise.{Represents, is_poisoned};
    ghost use Rattle.registry_store.specs.Queries.{IsQuery};

    /// Returns at most `most` accepted requests after the first `after`, oldest first, each with the
    /// reply that it got.
    ///
    /// # Errors
    ///
    /// `Fault::Poisoned` if the registry is poisoned, without a store call. `Fault::NoMemory` if out
    /// of memory for the rows or the list. `Fault::Store` if the store refuses or fails, or holds an
    /// order that is not valid; it may also come if `after` is 2^32 or more. `Fault::Foreign` only if
    /// the rows are those of no history; a registry that represents one over a clean disk never
    /// returns it. The registry still represents its history, and nothing is committed.
    pub fn accepted_after(&mut self, after: u64, most: u32) -> Result<Vec<Accepted>, Fault>
        ensures query { IsQuery self.old self.new result (λ h list. AreValid h.deeds → list.items ≡ take most (drop after (accepted_of h.deeds))) }
    {
        self.check_not_poisoned()?;
        let Ok(after) = u32::try_from(after) else {
            return Err(Fault::Store);
        };
        let accepted = accepted_after(self.alloc, &mut self.conn, after, most);
        self.note(accepted)
    }

    /// Returns the digest of the record after its first `n` accepted requests, if there are as many.
    /// Reads one row by its key.
    ///
    /// # Errors
    ///
    /// `Fault::Poisoned` if the registry is poisoned, without a store call. `Fault::NoMemory` if out
    /// of memory for the row. `Fault::Store` if the store refuses or fails; it may also come if `n` is
    /// 2^32 or more. `Fault::Foreign` only if the rows are those of no history; a registry that
    /// represents one over a clean disk never returns it. The registry still represents its history,
    /// and nothing is committed.
    pub fn digest_after(&mut self, n: u64) -> Result<Option<Digest>, Fault>
        ensures query { IsQuery self.old self.new result (λ h found. AreValid h.deeds → found ≡ digest_at h n) }
    {
        self.check_not_poisoned()?;
        let Ok(n) = u32::try_from(n) else {
            return Err(Fault::Store);
        };
        let digest = find_digest(self.alloc, &mut self.conn, n);
        self.note(digest)
    }

    /// Returns how many requests were accepted, the digest of the record, and the time of the last
    /// request. Makes no store call. A poisoned registry returns `Fault::Poisoned`.
    pub fn head(&self) -> Result<&Head, Fault>
        ensures when_poisoned { is_poisoned self.now ≡ true → result ≡ Err Fault.Poisoned }
        ensures answered { (h : History) → Represents self.now h → IsOkAnd result (λ head. IsHead h head.now) }
        ensures only_poisoned { OnErr result (is_poisoned self.now ≡ true) }
    {
        self.check_not_poisoned()?;
        Ok(&self.summary.head)
    }

    /// Returns the founding, with its first licences. The store reads the replies to all accepted
    /// requests.
    ///
    /// # Errors
    ///
    /// `Fault::Poisoned` if the registry is poisoned, without a store call. `Fault::NoMemory` if out
    /// of memory for the rows or the founding. `Fault::Store` if the store refuses or fails, or if
    /// later deeds allow all licences, which no history has. `Fault::Foreign` only if the rows are
    /// those of no history; a registry that represents one over a clean disk never returns it. The
    /// registry still represents its history, and nothing is committed.
    pub fn first_founding(&mut self) -> Result<Founding, Fault>
        ensures query { IsQuery self.old self.new result (λ h founding. founding ≡ h.founding) }
    {
        self.check_not_poisoned()?;
        let current = &self.summary.totals.founding().licences;
        let licences = first_licences(self.alloc, &mut self.conn, current);
        let first = self.note(licences)?;
        Ok(with_licences(self.founding(), first)?)
    }
}
