//! The head of a history: where its record ends.

ghost use Rattle.std.specs.Prelude.{◌≡◌, ◌≢◌, ◌+◌, [], length, IfOk, Err};
ghost use Rattle.registry_rules.specs.History.{founded};
ghost use Rattle.registry_wire.specs.Digests.{line_digest, founding_digest};
ghost use Rattle.registry_wire.specs.Record.{accepted_line};
ghost use Rattle.registry_tables.specs.Finds.{ReadsHistory};
ghost use Rattle.registry_tables.specs.Head.{IsHead};

use crate::TableFault;
use registry_rows::last_digest;
use registry_rules::{Founding, ReplyText, Request};
use registry_wire::{founding_digest, next_digest};
use sqlite::{Alter, Transaction};
use std::alloc::Global;
use usbnum_core::{Digest, Time};

/// How many requests a registry accepted, the digest of its record, and the time of the last one.
#[derive(Debug, Drop)]
pub struct Head {
    /// The number of accepted requests.
    pub count: u32,
    /// The digest after the last of them, or else after the founding.
    pub digest: Digest,
    /// The time of the last of them, if it has one.
    pub time: Option<Time>,
}

/// Returns the head of a new registry.
///
/// # Errors
///
/// `TableFault::NoMemory` if out of memory.
pub fn founded_head(alloc: Global, founding: &Founding) -> Result<Head, TableFault>
    ensures head { IfOk result (λ head. IsHead (founded founding.now) head) }
    ensures count { IfOk result (λ head. head.count ≡ 0) }
    ensures digest { IfOk result (λ head. head.digest ≡ founding_digest founding.now) }
    ensures kind { result ≢ Err TableFault.Foreign }
{
    match founding_digest(alloc, founding) {
        Ok(digest) => Ok(Head {
            count: 0,
            digest,
            time: None,
        }),
        Err(_) => Err(TableFault::NoMemory),
    }
}

/// Copies a time, if there is one.
pub(crate) fn copy_of(time: &Option<Time>) -> Result<Option<Time>, TableFault>
    ensures same { IfOk result (λ copy. copy ≡ time.now) }
    ensures kind { result ≢ Err TableFault.Foreign }
{
    let Some(time) = time else {
        return Ok(None);
    };
    match time.clone() {
        Ok(copy) => Ok(Some(copy)),
        Err(_) => Err(TableFault::NoMemory),
    }
}

/// Returns the head after one more accepted request, with this reply.
///
/// # Errors
///
/// `TableFault::NoMemory` if out of memory, `TableFault::Store` after 4,294,967,295 requests.
pub(crate) fn next_head(
    alloc: Global,
    head: &Head,
    request: &Request,
    reply: &ReplyText,
) -> Result<Head, TableFault>
    ensures next { IfOk result (λ next. (next.count ≡ head.now.count + 1)
        × (next.digest ≡ line_digest head.now.digest (accepted_line (record { request = request.now; reply = reply.now })))) }
    ensures time { IfOk result (λ next. next.time ≡ request.now.time) }
    ensures kind { result ≢ Err TableFault.Foreign }
{
    let time = copy_of(&request.time)?;
    let Some(count) = head.count.checked_add(1) else {
        return Err(TableFault::Store);
    };
    match next_digest(alloc, &head.digest, request, reply) {
        Ok(digest) => Ok(Head {
            count,
            digest,
            time,
        }),
        Err(_) => Err(TableFault::NoMemory),
    }
}

/// Reads the head from the last digest.
pub(crate) fn head_in<S: Alter>(
    alloc: Global,
    tx: &mut Transaction<'_, S>,
) -> Result<Head, TableFault>
    ensures reads { ReadsHistory S.Store tx.old.conn tx.new.conn result IsHead }
{
    let mut last = last_digest(alloc, tx)?;
    match last.pop() {
        Some((count, row)) => Ok(Head {
            count,
            digest: row.digest,
            time: row.time,
        }),
        // Each founding has a digest.
        None => Err(TableFault::Store),
    }
}
