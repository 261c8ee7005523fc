//! What is read of a connection before it is closed.
ghost use Rattle.std.specs.Prelude.{MatchResult};
ghost use Rattle.std.specs.Bool.{MatchBool};
ghost use Rattle.std.specs.Time.{instant_nanos};
ghost use Rattle.peer_streams.specs.Closing.{Discards, Drains, IsAllowed, IsClosed, IsOver, IsStuck, Looks};

use crate::streams::Peer;
use byte_streams::Broken;
use std::time::{Duration, Instant};

/// The limit in seconds for reading what a peer still sends after its response. `REST_BYTES` is the
/// limit in bytes.
const REST_SECONDS: u64 = 2;

const REST_BYTES: usize = 16 * 1024 * 1024;

/// Returns whether the peer has sent bytes after its message.
fn has_more<P: Peer>(peer: &mut P) -> bool
    ensures { Looks P.Peer peer.old peer.new result }
{
    let mut room = [0u8; 1];
    match peer.set_waiting(false) {
        Ok(()) => matches!(peer.peek(&mut room), Ok(1)),
        Err(_) => false,
    }
}

/// Lets the next read take the time that is left since the start. Returns `false` if no time is left,
/// or if so many bytes were read that none are to be read any more.
fn may_read_on<P: Peer>(peer: &mut P, start: Instant, count: usize) -> Result<bool, Broken>
    ensures { MatchResult result
        (λ may. MatchBool may (IsAllowed P.Peer (instant_nanos start) count peer.old peer.new) (IsOver P.Peer (instant_nanos start) count peer.old peer.new))
        (λ _. IsStuck P.Peer (instant_nanos start) count peer.old peer.new) }
{
    let time = Duration::from_secs(REST_SECONDS);
    let left = time.saturating_sub(peer.now()?.duration_since(start));
    if left.is_zero() || count >= REST_BYTES {
        return Ok(false);
    }
    peer.limit_reads(left)?;
    Ok(true)
}

/// Reads what the peer still sends, up to its end or to the limits.
fn discard<P: Peer>(peer: &mut P, start: Instant) -> Result<(), Broken>
    ensures { Discards P.Peer (instant_nanos start) peer.old peer.new }
{
    let mut room = [0u8; 16_384];
    let mut count: usize = 0;
    loop {
        if !may_read_on(peer, start, count)? {
            return Ok(());
        }
        match peer.read(&mut room)? {
            0 => return Ok(()),
            more => count += more,
        }
    }
}

/// Ends the response, and reads what the peer still sends. Otherwise the kernel resets the connection,
/// and the peer may lose the response.
fn drain<P: Peer>(peer: &mut P) -> Result<(), Broken>
    ensures { Drains P.Peer peer.old peer.new }
{
    peer.set_waiting(true)?;
    peer.end_writing()?;
    let start = peer.now()?;
    discard(peer, start)
}

/// Does what is to be done before a connection is closed whose response had this status, or whose peer
/// failed: if the message may have left bytes unread, ends the response and reads them, until the
/// peer ends, a call fails, two seconds have passed or 16 MiB have come.
pub fn close<P: Peer>(peer: &mut P, status: Option<u16>)
    ensures { IsClosed P.Peer peer.old peer.new status }
{
    if let Some(status) = status {
        // A message with status 200 was read to its end, so what its peer still sends came behind it.
        if status != 200 || has_more(peer) {
            let _ = drain(peer);
        }
    }
}
