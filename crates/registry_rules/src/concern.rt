//! The vendor, the numbers and the organisation that an order concerns.

ghost use Rattle.std.specs.Prelude.{◌≡◌, true, IfSome, IsSomeAnd, option_and_then};
ghost use Rattle.std.specs.Option.{option_copied, option_map};
ghost use Rattle.usbnum_core.specs.Spans.{span_has};
ghost use Rattle.usbnum_core.specs.declared.number.Number.{Number};
ghost use Rattle.registry_rules.specs.FactsOf.{petition_named, slug_concerned, vendor_concerned, concerns, holding_in, holding_of};
ghost use Rattle.registry_rules.specs.History.{History};
ghost use Rattle.registry_rules.specs.Query.{petition_of};
ghost use Rattle.registry_rules.specs.Verdict.{least_for};

use crate::{
    Amend, AmendOrg, Ask, Correct, CorrectOrg, Decline, Enrol, Grant, HandOver, Holdings, Import,
    Order, Petition, Release, Reserve, Return, Revoke, Withdraw,
};
use usbnum_core::{Number, Pid, Slug, Span, Vid};

/// A span of product IDs of a vendor.
#[derive(Clone, Copy, Debug, PartialEq, Eq)]
pub struct VendorSpan {
    /// The vendor.
    pub vid: Vid,
    /// The product IDs.
    pub span: Span,
}

// The span of one number.
fn only(pid: Pid) -> Span
    ensures first { result.first ≡ pid }
    ensures last { result.last ≡ pid }
{
    match Span::new(pid, pid) {
        Some(span) => span,
        None => unreachable!(),
    }
}

/// Returns the number of the petition that the order names.
#[tactic(auto, unfolding(crate::specs::FactsOf::petition_named))]
pub fn petition_concerned(order: &Order) -> Option<u32>
    ensures { (h : History) → petition_named h order.now ≡ option_and_then (petition_of h) result }
{
    match order {
        Order::Grant(Grant { petition, .. })
        | Order::Decline(Decline { petition, .. })
        | Order::Withdraw(Withdraw { petition }) => Some(*petition),
        _ => None,
    }
}

/// Returns the vendor that the order concerns: the one that it names, or its petition's, otherwise
/// the founding vendor. An order that adds a vendor concerns the founding one. `petition` is the
/// petition that the order names.
#[tactic(auto, unfolding(crate::specs::FactsOf::vendor_concerned, crate::specs::FactsOf::petition_named))]
pub fn vid_concerned(order: &Order, founding: Vid, petition: Option<&Petition>) -> Vid
    ensures { (h : History) → founding ≡ h.founding.vendor → option_copied petition.entry ≡ petition_named h order.now → result ≡ vendor_concerned h order.now }
{
    match order {
        Order::Ask(Ask { vendor, .. })
        | Order::Amend(Amend { vendor, .. })
        | Order::Return(Return { vendor, .. })
        | Order::Reserve(Reserve { vendor, .. })
        | Order::Release(Release { vendor, .. })
        | Order::Import(Import { vendor, .. })
        | Order::Correct(Correct { vendor, .. })
        | Order::Revoke(Revoke { vendor, .. }) => vendor.unwrap_or(founding),
        Order::Grant(_) | Order::Decline(_) | Order::Withdraw(_) => match petition {
            Some(petition) => petition.vid,
            None => founding,
        },
        _ => founding,
    }
}

/// Returns the span of the numbers that the order concerns, and no others, with their vendor, or
/// None if it concerns no number. An order on a span and an import concern none by itself. `vid` is
/// the vendor that the order concerns, `petition` the petition that it names, and `least` the least
/// free product ID of that petition's vendor.
#[tactic(auto, unfolding(crate::specs::FactsOf::concerns, crate::specs::FactsOf::petition_named, crate::specs::FactsOf::vendor_concerned))]
pub fn numbers_concerned(
    order: &Order,
    vid: Vid,
    petition: Option<&Petition>,
    least: Option<Pid>,
) -> Option<VendorSpan>
    ensures all { (h : History) → vid ≡ vendor_concerned h order.now → option_copied petition.entry ≡ petition_named h order.now → least ≡ least_for h (petition_named h order.now) →
        (n : Number) → concerns h order.now n ≡ true → IsSomeAnd result (λ range. (range.vid ≡ n.vid) × (span_has range.span n.pid ≡ true)) }
    ensures only { (h : History) → vid ≡ vendor_concerned h order.now → option_copied petition.entry ≡ petition_named h order.now → least ≡ least_for h (petition_named h order.now) →
        (n : Number) → IfSome result (λ range. range.vid ≡ n.vid → span_has range.span n.pid ≡ true → concerns h order.now n ≡ true) }
{
    let span = match order {
        Order::Ask(it) => only(it.want?),
        Order::Grant(it) => only(it.number.or(petition?.want).or(least)?),
        Order::Amend(Amend { number, .. })
        | Order::Return(Return { number, .. })
        | Order::Correct(Correct { number, .. })
        | Order::Revoke(Revoke { number, .. }) => only(*number),
        _ => return None,
    };
    Some(VendorSpan { vid, span })
}

// The owner of the number, by its holding.
fn owner_in(holdings: &Holdings, number: Number) -> Option<&Slug>
    ensures { option_copied result ≡ option_map (λ holding. holding.org) (holding_in holdings.now number) }
{
    match holdings.of(number) {
        Some(holding) => Some(&holding.org),
        None => None,
    }
}

/// Returns the organisation that the order names, its petition's, or the owner of its number. A
/// curator's order on a petition or a number concerns none. `vid` is the vendor that the order
/// concerns, and `petition` the petition that it names; `holdings` has the holding of each number
/// that it concerns.
#[tactic(auto, unfolding(crate::specs::FactsOf::concerns, crate::specs::FactsOf::petition_named, crate::specs::FactsOf::slug_concerned, crate::specs::FactsOf::vendor_concerned))]
pub fn slug_concerned<'a>(
    order: &'a Order,
    vid: Vid,
    petition: Option<&'a Petition>,
    holdings: &'a Holdings,
) -> Option<&'a Slug>
    ensures { (h : History) → vid ≡ vendor_concerned h order.now → option_copied petition.entry ≡ petition_named h order.now →
        ((n : Number) → concerns h order.now n ≡ true → holding_in holdings.now n ≡ holding_of h n) → option_copied result ≡ slug_concerned h order.now }
{
    match order {
        Order::Enrol(Enrol { org, .. })
        | Order::AmendOrg(AmendOrg { org, .. })
        | Order::Ask(Ask { org, .. })
        | Order::Import(Import { org, .. })
        | Order::HandOver(HandOver { org, .. })
        | Order::CorrectOrg(CorrectOrg { org, .. }) => Some(org),
        Order::Amend(Amend { number, .. }) | Order::Return(Return { number, .. }) => {
            owner_in(holdings, Number { vid, pid: *number })
        }
        Order::Withdraw(_) => Some(&petition?.org),
        _ => None,
    }
}
