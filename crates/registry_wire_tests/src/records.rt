//! Lines of a record, what each is read as, the line that is written for that, and the digests.

use crate::files::{founding_text, rejection_text};
use registry_rules::Accepted;
use registry_wire::{
    RecordLine, accepted_line, founding_digest, founding_line, next_digest, record_line,
};
use row_records::canonical;
use row_texts::{RowFault, bytes_of, cut, text_of};
use std::alloc::Global;
use usbnum_core::Digest;

// The reply, and then the request, and the digest, if there is one.
fn accepted_text(
    alloc: Global,
    accepted: &Accepted,
    digest: &Option<Digest>,
) -> Result<Vec<u8>, RowFault> {
    let mut text = format!(in alloc; "{}: ", accepted.reply.as_str())?.into_bytes();
    text.extend_from_slice(&canonical(alloc, &accepted.request)?)?;
    if let Some(digest) = digest {
        text.extend_from_slice(b" then ")?;
        text.extend_from_slice(digest.as_str().as_bytes())?;
    }
    Ok(text)
}

fn record_text(alloc: Global, line: &RecordLine) -> Result<Vec<u8>, RowFault> {
    match line {
        RecordLine::Founding(founding) => founding_text(alloc, founding),
        RecordLine::Accepted(accepted, digest) => accepted_text(alloc, accepted, digest),
    }
}

fn written_line(alloc: Global, line: &RecordLine) -> Result<Vec<u8>, RowFault> {
    let text = match line {
        RecordLine::Founding(founding) => founding_line(alloc, founding)?,
        RecordLine::Accepted(accepted, _) => accepted_line(alloc, accepted)?,
    };
    Ok(text.into_bytes())
}

/// Shows what a line of a record is read as, or its refusal.
pub(crate) fn record(alloc: Global, line: &[u8]) -> Result<Vec<u8>, RowFault> {
    match record_line(alloc, line) {
        Ok(read) => record_text(alloc, &read),
        Err(rejection) => rejection_text(alloc, rejection),
    }
}

/// Shows the line that is written for what a line of a record is read as.
pub(crate) fn again(alloc: Global, line: &[u8]) -> Result<Vec<u8>, RowFault> {
    match record_line(alloc, line) {
        Ok(read) => written_line(alloc, &read),
        Err(rejection) => rejection_text(alloc, rejection),
    }
}

fn digest_before(alloc: Global, text: &str) -> Result<Digest, RowFault> {
    Digest::new(alloc, text.as_bytes())?.ok_or(RowFault::BadRow)
}

fn digest_of(alloc: Global, before: &str, line: &RecordLine) -> Result<Digest, RowFault> {
    match line {
        RecordLine::Founding(founding) => Ok(founding_digest(alloc, founding)?),
        RecordLine::Accepted(accepted, _) => {
            let before = digest_before(alloc, before)?;
            Ok(next_digest(alloc, &before, &accepted.request, &accepted.reply)?)
        }
    }
}

/// Shows the digest of a line of a record. The digest of the line before it stands before the bar; a
/// founding has none.
pub(crate) fn digest(alloc: Global, text: &str) -> Result<Vec<u8>, RowFault> {
    let (before, line) = cut(text)?;
    let line = bytes_of(alloc, line)?;
    match record_line(alloc, &line) {
        Ok(read) => text_of(alloc, digest_of(alloc, before, &read)?.as_str()),
        Err(rejection) => rejection_text(alloc, rejection),
    }
}
