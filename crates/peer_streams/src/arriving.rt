//! The time limits of a connection that has come.
ghost use Rattle.std.specs.Prelude.{◌⊎◌, IfOk, OnErr};
ghost use Rattle.peer_streams.specs.Arriving.{FailsToLimit, IsLimited};

use crate::streams::Arrival;
use byte_streams::Broken;
use std::time::Duration;

/// The seconds that a peer may take for each read of its message, and each write of its response.
const PEER_SECONDS: u64 = 10;

/// Returns the reader and the writer of a connection. Sets the limit of each read and write to ten seconds.
///
/// # Errors
///
/// `Broken` if a limit could not be set, or if the reader and the writer could not be made.
pub fn limited<A: Arrival + Drop>(arrival: A) -> Result<(A::Reader, A::Writer), Broken>
    ensures limited { IfOk result (λ ends. (it : A) × IsLimited A.limits_reads A.limits_writes arrival it × A.splits it ends.0 ends.1) }
    ensures failed { OnErr result ((it : A) × (FailsToLimit A.limits_reads A.fails arrival it ⊎ (IsLimited A.limits_reads A.limits_writes arrival it × A.fails_to_split it))) }
{
    let mut arrival = arrival;
    let time = Duration::from_secs(PEER_SECONDS);
    arrival.limit_reads(time)?;
    arrival.limit_writes(time)?;
    arrival.split()
}
