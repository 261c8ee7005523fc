//! Reads canonical forms back as orders.

ghost use Rattle.std.specs.Prelude.{◌≡◌, Some, IfOk, IfSome};
ghost use Rattle.registry_rules.specs.Orders.{canonical_form, IsOrder};
ghost use Rattle.registry_rules.specs.Reading.{kind_of, ReadsBack};
ghost use Rattle.registry_rules.specs.declared.order.Order.{Order as OrderValue};
ghost use Rattle.registry_rules.specs.declared.order.Order.TheVariants as orders;
ghost use Rattle.registry_rules.specs.declared.order.Enrol.{Enrol as EnrolValue};
ghost use Rattle.registry_rules.specs.declared.order.AmendOrg.{AmendOrg as AmendOrgValue};
ghost use Rattle.registry_rules.specs.declared.order.Ask.{Ask as AskValue};
ghost use Rattle.registry_rules.specs.declared.order.Grant.{Grant as GrantValue};
ghost use Rattle.registry_rules.specs.declared.order.Decline.{Decline as DeclineValue};
ghost use Rattle.registry_rules.specs.declared.order.Withdraw.{Withdraw as WithdrawValue};
ghost use Rattle.registry_rules.specs.declared.order.Amend.{Amend as AmendValue};
ghost use Rattle.registry_rules.specs.declared.order.Return.{Return as ReturnValue};
ghost use Rattle.registry_rules.specs.declared.order.Reserve.{Reserve as ReserveValue};
ghost use Rattle.registry_rules.specs.declared.order.Release.{Release as ReleaseValue};
ghost use Rattle.registry_rules.specs.declared.order.Import.{Import as ImportValue};
ghost use Rattle.registry_rules.specs.declared.order.AddVendor.{AddVendor as AddVendorValue};
ghost use Rattle.registry_rules.specs.declared.order.AddLicence.{AddLicence as AddLicenceValue};
ghost use Rattle.registry_rules.specs.declared.order.HandOver.{HandOver as HandOverValue};
ghost use Rattle.registry_rules.specs.declared.order.Correct.{Correct as CorrectValue};
ghost use Rattle.registry_rules.specs.declared.order.CorrectOrg.{CorrectOrg as CorrectOrgValue};
ghost use Rattle.registry_rules.specs.declared.order.Revoke.{Revoke as RevokeValue};

use crate::canonical_form::order_text;
use crate::form_fields::{Fields, Unread, VendorAndItems, tab_at};
use crate::{
    AddLicence, AddVendor, Amend, AmendOrg, Ask, CanonicalForm, Correct, CorrectOrg, Decline,
    Enrol, Grant, HandOver, Import, Order, Release, Reserve, Return, Revoke, Terms, Withdraw,
};
use std::alloc::Global;
use usbnum_core::{Link, NoMemory, Pid, Slug, Span, Title, Vid};

// The title, the terms and the vendor of an order.
type CardFields = (Title, (Title, (Link, (Link, Option<Vid>))));

// A span, its two ends, and the vendor of its numbers.
type SpanFields = (Pid, (Pid, Option<Vid>));

fn enrol(alloc: Global, text: &[u8]) -> Result<Order, Unread>
    ensures { (it : EnrolValue) → ReadsBack text.now result (orders.Enrol it) }
{
    let (org, (title, (site, ()))) = <(Slug, (Title, (Link, ())))>::from_fields(alloc, text)?;
    Ok(Order::Enrol(Enrol { org, title, site }))
}

fn amend_org(alloc: Global, text: &[u8]) -> Result<Order, Unread>
    ensures { (it : AmendOrgValue) → ReadsBack text.now result (orders.AmendOrg it) }
{
    let (org, (title, (site, ()))) = <(Slug, (Title, (Link, ())))>::from_fields(alloc, text)?;
    Ok(Order::AmendOrg(AmendOrg { org, title, site }))
}

fn ask(alloc: Global, text: &[u8]) -> Result<Order, Unread>
    ensures { (it : AskValue) → ReadsBack text.now result (orders.Ask it) }
{
    let (org, (want, (title, (licence, (site, (source, vendor)))))) = <(
        Slug,
        (Option<Pid>, CardFields),
    )>::from_fields(alloc, text)?;
    Ok(Order::Ask(Ask {
        org,
        want,
        title,
        terms: Terms {
            licence,
            site,
            source,
        },
        vendor,
    }))
}

fn grant(alloc: Global, text: &[u8]) -> Result<Order, Unread>
    ensures { (it : GrantValue) → ReadsBack text.now result (orders.Grant it) }
{
    let (petition, (number, ())) = <(u32, (Option<Pid>, ()))>::from_fields(alloc, text)?;
    Ok(Order::Grant(Grant { petition, number }))
}

fn decline(alloc: Global, text: &[u8]) -> Result<Order, Unread>
    ensures { (it : DeclineValue) → ReadsBack text.now result (orders.Decline it) }
{
    let (petition, reason) = <(u32, Option<Title>)>::from_fields(alloc, text)?;
    Ok(Order::Decline(Decline { petition, reason }))
}

fn withdraw(alloc: Global, text: &[u8]) -> Result<Order, Unread>
    ensures { (it : WithdrawValue) → ReadsBack text.now result (orders.Withdraw it) }
{
    let (petition, ()) = <(u32, ())>::from_fields(alloc, text)?;
    Ok(Order::Withdraw(Withdraw { petition }))
}

fn amend(alloc: Global, text: &[u8]) -> Result<Order, Unread>
    ensures { (it : AmendValue) → ReadsBack text.now result (orders.Amend it) }
{
    let (number, (title, (licence, (site, (source, vendor))))) = <(Pid, CardFields)>::from_fields(
        alloc, text,
    )?;
    Ok(Order::Amend(Amend {
        number,
        title,
        terms: Terms {
            licence,
            site,
            source,
        },
        vendor,
    }))
}

fn return_number(alloc: Global, text: &[u8]) -> Result<Order, Unread>
    ensures { (it : ReturnValue) → ReadsBack text.now result (orders.Return it) }
{
    let (number, vendor) = <(Pid, Option<Vid>)>::from_fields(alloc, text)?;
    Ok(Order::Return(Return { number, vendor }))
}

fn reserve(alloc: Global, text: &[u8]) -> Result<Order, Unread>
    ensures { (it : ReserveValue) → ReadsBack text.now result (orders.Reserve it) }
{
    let (first, (last, vendor)) = SpanFields::from_fields(alloc, text)?;
    match Span::new(first, last) {
        Some(span) => Ok(Order::Reserve(Reserve { span, vendor })),
        None => Err(Unread::NoOrder),
    }
}

fn release(alloc: Global, text: &[u8]) -> Result<Order, Unread>
    ensures { (it : ReleaseValue) → ReadsBack text.now result (orders.Release it) }
{
    let (first, (last, vendor)) = SpanFields::from_fields(alloc, text)?;
    match Span::new(first, last) {
        Some(span) => Ok(Order::Release(Release { span, vendor })),
        None => Err(Unread::NoOrder),
    }
}

fn import(alloc: Global, text: &[u8]) -> Result<Order, Unread>
    ensures { (it : ImportValue) → ReadsBack text.now result (orders.Import it) }
{
    let (org, VendorAndItems { vendor, items }) = <(Slug, VendorAndItems)>::from_fields(
        alloc, text,
    )?;
    Ok(Order::Import(Import { org, items, vendor }))
}

fn add_vendor(alloc: Global, text: &[u8]) -> Result<Order, Unread>
    ensures { (it : AddVendorValue) → ReadsBack text.now result (orders.AddVendor it) }
{
    let (vendor, (name, ())) = <(Vid, (Title, ()))>::from_fields(alloc, text)?;
    Ok(Order::AddVendor(AddVendor { vendor, name }))
}

fn add_licence(alloc: Global, text: &[u8]) -> Result<Order, Unread>
    ensures { (it : AddLicenceValue) → ReadsBack text.now result (orders.AddLicence it) }
{
    let (licence, ()) = <(Title, ())>::from_fields(alloc, text)?;
    Ok(Order::AddLicence(AddLicence { licence }))
}

fn hand_over(alloc: Global, text: &[u8]) -> Result<Order, Unread>
    ensures { (it : HandOverValue) → ReadsBack text.now result (orders.HandOver it) }
{
    let (org, (keeper, ())) = <(Slug, (Slug, ()))>::from_fields(alloc, text)?;
    Ok(Order::HandOver(HandOver { org, keeper }))
}

fn correct(alloc: Global, text: &[u8]) -> Result<Order, Unread>
    ensures { (it : CorrectValue) → ReadsBack text.now result (orders.Correct it) }
{
    let (number, (title, (licence, (site, (source, vendor))))) = <(Pid, CardFields)>::from_fields(
        alloc, text,
    )?;
    Ok(Order::Correct(Correct {
        number,
        title,
        terms: Terms {
            licence,
            site,
            source,
        },
        vendor,
    }))
}

fn correct_org(alloc: Global, text: &[u8]) -> Result<Order, Unread>
    ensures { (it : CorrectOrgValue) → ReadsBack text.now result (orders.CorrectOrg it) }
{
    let (org, (title, (site, ()))) = <(Slug, (Title, (Link, ())))>::from_fields(alloc, text)?;
    Ok(Order::CorrectOrg(CorrectOrg { org, title, site }))
}

fn revoke(alloc: Global, text: &[u8]) -> Result<Order, Unread>
    ensures { (it : RevokeValue) → ReadsBack text.now result (orders.Revoke it) }
{
    let (number, (reason, vendor)) = <(Pid, (Title, Option<Vid>))>::from_fields(alloc, text)?;
    Ok(Order::Revoke(Revoke {
        number,
        vendor,
        reason,
    }))
}

// The order of this kind with these fields.
fn order_from(alloc: Global, kind: &str, text: &[u8]) -> Result<Order, Unread>
    ensures { (order : OrderValue) → kind.now ≡ kind_of order → ReadsBack text.now result order }
{
    match kind {
        "enrol" => enrol(alloc, text),
        "amend-org" => amend_org(alloc, text),
        "ask" => ask(alloc, text),
        "grant" => grant(alloc, text),
        "decline" => decline(alloc, text),
        "withdraw" => withdraw(alloc, text),
        "amend" => amend(alloc, text),
        "return" => return_number(alloc, text),
        "reserve" => reserve(alloc, text),
        "release" => release(alloc, text),
        "import" => import(alloc, text),
        "add-vendor" => add_vendor(alloc, text),
        "add-licence" => add_licence(alloc, text),
        "hand-over" => hand_over(alloc, text),
        "correct" => correct(alloc, text),
        "correct-org" => correct_org(alloc, text),
        "revoke" => revoke(alloc, text),
        _ => Err(Unread::NoOrder),
    }
}

/// Reads the order whose canonical form this is, or returns None if it is that of no order. A valid
/// order is read back from its own form. The time grows with the length of the form.
pub fn order_of_form(alloc: Global, form: &CanonicalForm) -> Result<Option<Order>, NoMemory>
    ensures complete { (order : OrderValue) → IsOrder order → canonical_form order ≡ form.now → IfOk result (λ read. read ≡ Some order) }
    ensures sound { IfOk result (λ read. IfSome read (λ order. canonical_form order ≡ form.now)) }
{
    let bytes = form.as_bytes();
    let (kind, fields) = bytes.split_at(tab_at(bytes));
    let Ok(kind) = std::str::from_utf8(kind) else {
        return Ok(None);
    };
    let order = match order_from(alloc, kind, fields) {
        Ok(order) => order,
        Err(Unread::NoOrder) => return Ok(None),
        Err(Unread::NoMemory) => return Err(NoMemory),
    };
    // Other forms of the fields are read too, for example digits in upper case.
    let text = order_text(alloc, &order)?;
    if text.as_bytes() == bytes {
        Ok(Some(order))
    } else {
        Ok(None)
    }
}
