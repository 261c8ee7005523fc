//! Splits bytes into lines, and reads each line as a request.

ghost use Rattle.std.specs.Prelude.{◌≡◌, ◌==◌, ◌<◌, ◌∷◌, length, position};
ghost use Rattle.registry_wire.specs.Refusals.{GivesSeen};
ghost use Rattle.registry_commands.specs.Lines.{is_blank, lines_of, requests_in};

use registry_rules::{Rejection, Request};
use registry_wire::{WireRefusal, line_request};
use std::alloc::Global;

/// A line that is not a request.
#[derive(Clone, Copy, Debug, PartialEq, Eq)]
pub struct BadLine {
    /// The number of the line, from 1. Blank lines count too.
    pub number: u64,
    /// Why it is refused.
    pub refusal: WireRefusal,
}

/// Returns the index of the first line feed.
pub(crate) fn line_feed(bytes: &[u8]) -> Option<usize>
    ensures { result ≡ position (λ b. b == 10) bytes.now }
{
    bytes.iter().position(|b| *b == b'\n')
}

/// Returns the first line, and the bytes after its line feed.
fn first_line(bytes: &[u8]) -> (&[u8], &[u8])
    requires { 0 < length bytes.now }
    ensures lines { lines_of bytes.now ≡ result.0.now ∷ lines_of result.1.now }
    ensures shorter { length result.1.now < length bytes.now }
{
    match line_feed(bytes) {
        Some(end) => (&bytes[..end], &bytes[end + 1..]),
        None => (bytes, &[]),
    }
}

/// Returns whether the line has only spaces, tabs and carriage returns.
#[tactic(auto, unfolding(crate::specs::Lines::is_blank))]
pub(crate) fn is_blank(line: &[u8]) -> bool
    ensures { result ≡ is_blank line.now }
{
    line.iter()
        .all(|b| *b == b' ' || *b == b'\t' || *b == b'\r')
}

/// Returns the requests of the lines that are not blank, in order, or the first line that is not a
/// request.
pub fn requests_in(alloc: Global, bytes: &[u8]) -> Result<Vec<Request>, Rejection<BadLine>>
    ensures { GivesSeen (λ requests. requests.items) result (requests_in bytes.now) }
{
    let mut requests = Vec::new(alloc);
    let mut rest = bytes;
    let mut number = 1;
    while !rest.is_empty() {
        let (line, after) = first_line(rest);
        if !is_blank(line) {
            match line_request(alloc, line) {
                Ok(request) => {
                    if requests.push(request).is_err() {
                        return Err(Rejection::NoMemory);
                    }
                }
                Err(Rejection::Refused(refusal)) => {
                    return Err(Rejection::Refused(BadLine { number, refusal }));
                }
                Err(Rejection::NoMemory) => return Err(Rejection::NoMemory),
            }
        }
        rest = after;
        number += 1;
    }
    Ok(requests)
}
