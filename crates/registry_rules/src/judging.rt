//! The verdict on a request.

ghost use Rattle.std.specs.Prelude.{◌≡◌, Result, IfOk, IfSome, is_some, not, ◌&&◌, ◌||◌};
ghost use Rattle.std.specs.List.{list_any};
ghost use Rattle.std.specs.Option.{option_copied};
ghost use Rattle.std.specs.Str.{bytes_eq};
ghost use Rattle.registry_rules.specs.FactsOf.{AreFactsOf, IsCurrentFounding};
ghost use Rattle.registry_rules.specs.History.{History};
ghost use Rattle.registry_rules.specs.Verdict.{verdict, verdict_by, deed_for, kept_under, is_for_curators};

use crate::order_checks::act_of;
use crate::{
    Act, Deed, Facts, Founding, KeptReply, Order, Refusal, Rejection, Request, Verdict,
    request_bytes,
};
use std::alloc::{AllocError, Global};
use usbnum_core::{NoMemory, Time};

fn copy_of(time: &Option<Time>) -> Result<Option<Time>, AllocError>
    ensures { IfOk result (λ copy. copy ≡ time.now) }
{
    match time {
        Some(time) => Ok(Some(time.clone()?)),
        None => Ok(None),
    }
}

fn deed_of(request: &Request, act: Act) -> Result<Deed, AllocError>
    ensures { IfOk result (λ deed. deed ≡ deed_for request.now act) }
{
    Ok(Deed {
        caller: request.caller.clone()?,
        key: request.key.clone()?,
        order: request.order.clone()?,
        time: copy_of(&request.time)?,
        act,
    })
}

// The verdict on a request whose caller had one accepted under the same key.
fn repeated(alloc: Global, kept: &KeptReply, request: &Request) -> Result<Verdict, NoMemory>
    ensures { IfOk result (λ found. (outcome : Result Act Refusal) → found ≡ verdict_by (Some kept.now) request.now outcome) }
{
    let order = request_bytes(alloc, request)?;
    if kept.order.as_bytes() == order.as_bytes() {
        Ok(Verdict::Kept(kept.reply.clone()?))
    } else {
        Ok(Verdict::Refused(Refusal::KeyReused))
    }
}

// Whether only a curator may give the order.
fn is_for_curators(order: &Order) -> bool
    ensures { result ≡ is_for_curators order.now }
{
    match order {
        Order::Enrol(_) | Order::AmendOrg(_) | Order::Ask(_) => false,
        Order::Withdraw(_) | Order::Amend(_) | Order::Return(_) | Order::HandOver(_) => false,
        Order::Grant(_) | Order::Decline(_) | Order::Reserve(_) | Order::Release(_) => true,
        Order::Import(_) | Order::AddVendor(_) | Order::AddLicence(_) => true,
        Order::Correct(_) | Order::CorrectOrg(_) | Order::Revoke(_) => true,
    }
}

/// Returns the verdict on a request if its key or its caller alone decides it: if something is
/// `kept` under its caller and key, or if its order is one for curators and its caller is none.
/// Otherwise returns None, and the verdict needs more facts of the history.
///
/// # Errors
///
/// `NoMemory` if out of memory for the canonical form of the order or the kept reply.
pub fn settled(
    alloc: Global,
    kept: Option<&KeptReply>,
    founding: &Founding,
    request: &Request,
) -> Result<Option<Verdict>, NoMemory>
    ensures when { IfOk result (λ found. is_some found ≡ (is_some kept.entry
        || (is_for_curators request.now.order && not (list_any (bytes_eq request.now.caller) founding.now.curators)))) }
    ensures verdict { (h : History) → IsCurrentFounding h founding.now → option_copied kept.entry ≡ kept_under h request.now.caller request.now.key
        → IfOk result (λ found. IfSome found (λ verdict_found. verdict_found ≡ verdict h request.now)) }
{
    if let Some(kept) = kept {
        return Ok(Some(repeated(alloc, kept, request)?));
    }
    if is_for_curators(&request.order) && !founding.curators.contains(&request.caller) {
        return Ok(Some(Verdict::Refused(Refusal::NotCurator)));
    }
    Ok(None)
}

/// Returns the verdict on a request, by the facts of a history. With facts that are not those of a
/// history, the verdict may be any.
///
/// # Examples
///
/// Here `rt` is the runtime that `main` gets, `founding` founds a registry, and `request` enrols
/// the organisation `acme`. It is new: nothing is kept under its key, and there is no `acme` yet.
///
/// ```
/// let totals = Totals::founded(rt.alloc(), &founding).expect(&rt, "memory");
/// let holdings = Holdings::new(Vec::new(rt.alloc()));
/// let vid = vid_concerned(&request.order, founding.vendor, None);
/// let facts = totals.facts(&request, vid, None, None, None, holdings);
/// let verdict = judge(rt.alloc(), &facts, &request).expect(&rt, "memory");
/// let Verdict::New(deed) = verdict else {
///     panic!(rt; "no deed");
/// };
/// let reply = reply_text(rt.alloc(), &deed).expect(&rt, "memory");
/// assert_eq!(rt; reply.as_str(), "enrolled acme");
/// ```
pub fn judge(alloc: Global, facts: &Facts<'_>, request: &Request) -> Result<Verdict, NoMemory>
    ensures { (h : History) → AreFactsOf h request.now facts.now → IfOk result (λ found. found ≡ verdict h request.now) }
{
    if let Some(kept) = &facts.kept {
        return repeated(alloc, kept, request);
    }
    match act_of(alloc, facts, &request.caller, &request.order) {
        Ok(act) => Ok(Verdict::New(deed_of(request, act)?)),
        Err(Rejection::Refused(refusal)) => Ok(Verdict::Refused(refusal)),
        Err(Rejection::NoMemory) => Err(NoMemory),
    }
}
