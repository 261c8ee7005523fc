//! The digests of a record.

ghost use Rattle.std.specs.Prelude.{◌≡◌, length, IfOk};
ghost use Rattle.hex.specs.Hex.{encode_lower};
ghost use Rattle.registry_wire.specs.Digests.{line_digest, founding_digest};
ghost use Rattle.registry_wire.specs.Record.{accepted_line};

use crate::accepted_writer::line_of;
use crate::founding_line;
use crate::hash::line_hash;
use registry_rules::{Founding, ReplyText, Request};
use std::alloc::Global;
use usbnum_core::{Digest, NoMemory};

// The digits of 32 bytes.
fn digits_of(alloc: Global, bytes: &[u8]) -> Result<Digest, NoMemory>
    requires { length bytes.now ≡ 32 }
    ensures { IfOk result (λ digest. digest ≡ encode_lower bytes.now) }
{
    let digits = hex::encode(alloc, bytes)?;
    match Digest::new(alloc, digits.as_str().as_bytes())? {
        Some(digest) => Ok(digest),
        None => unreachable!(),
    }
}

// The digest of a line, after the text of the digest before it.
#[tactic(auto, unfolding(crate::specs::Digests::line_digest))]
fn line_digest(alloc: Global, before: &str, line: &str) -> Result<Digest, NoMemory>
    ensures { IfOk result (λ digest. digest ≡ line_digest before.now line.now) }
{
    let hash = line_hash(before, line);
    digits_of(alloc, &hash)
}

/// Returns the digest of a founding: SHA-256 of its line in a record, with the line feed, as 64
/// hexadecimal digits in lower case.
pub fn founding_digest(alloc: Global, founding: &Founding) -> Result<Digest, NoMemory>
    ensures { IfOk result (λ digest. digest ≡ founding_digest founding.now) }
{
    let line = founding_line(alloc, founding)?;
    line_digest(alloc, "", line.as_str())
}

/// Returns the digest after an accepted request with this reply: SHA-256 of the digits of the digest
/// before it and the request's line in a record, with the line feed.
pub fn next_digest(
    alloc: Global,
    before: &Digest,
    request: &Request,
    reply: &ReplyText,
) -> Result<Digest, NoMemory>
    ensures { IfOk result (λ digest. digest ≡ line_digest before.now (accepted_line (record { request = request.now; reply = reply.now }))) }
{
    let line = line_of(alloc, request, reply)?;
    line_digest(alloc, before.as_str(), line.as_str())
}
