//! Why a check, or the reading of a text, ends early.

ghost use Rattle.std.specs.Prelude.{◌≡◌};
ghost use Rattle.registry_rules.specs.declared.rejection.Rejection.TheVariants.{Refused as WasRefused, NoMemory as OutOfMemory};

use crate::Refusal;
use std::alloc::AllocError;
use usbnum_core::NoMemory;

/// The reason why a check, or the reading of a text, ends early. `R` is the type of its refusals.
#[derive(Debug, Drop)]
pub enum Rejection<R> {
    /// It is refused, for this reason.
    Refused(R),
    /// Memory ran out before the decision.
    NoMemory,
}

impl From<Refusal> for Rejection<Refusal> {
    ghost from_gives = { λ refusal rejection. rejection ≡ WasRefused refusal };

    fn from(refusal: Refusal) -> Rejection<Refusal> {
        Rejection::Refused(refusal)
    }
}

impl<R> From<AllocError> for Rejection<R> {
    ghost from_gives = { λ _ rejection. rejection ≡ OutOfMemory };

    fn from(_error: AllocError) -> Rejection<R> {
        Rejection::NoMemory
    }
}

impl<R> From<NoMemory> for Rejection<R> {
    ghost from_gives = { λ _ rejection. rejection ≡ OutOfMemory };

    fn from(_error: NoMemory) -> Rejection<R> {
        Rejection::NoMemory
    }
}
