//! A value, or the refusal if there is none.

ghost use Rattle.registry_rules.specs.Gives.{Gives};
ghost use Rattle.registry_wire.specs.Refusals.{value_or};

use crate::WireRefusal;
use registry_rules::Rejection;

// The value, or the refusal if there is no value.
pub(crate) fn present<T>(
    refusal: WireRefusal,
    found: Option<T>,
) -> Result<T, Rejection<WireRefusal>>
    ensures { Gives result (value_or refusal found) }
{
    match found {
        Some(value) => Ok(value),
        None => Err(Rejection::Refused(refusal)),
    }
}
