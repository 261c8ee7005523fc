//! A span by its first and last number.

ghost use Rattle.std.specs.Prelude.{◌≡◌};
ghost use Rattle.registry_wire.specs.Spans.{span_of};

use usbnum_core::{Pid, Span};

// The span between two numbers.
#[tactic(auto, unfolding(crate::specs::Spans::span_of))]
pub(crate) fn span_of(first: Pid, last: Pid) -> Option<Span>
    ensures { result ≡ span_of first last }
{
    Span::new(first, last)
}
