//! The canonical form of an order, by which two orders are compared.

ghost use Rattle.std.specs.Prelude.{◌≡◌, ◌++◌, ◌∷◌, Some, IfOk, map, codes};
ghost use Rattle.std.specs.List.{join_with_byte};
ghost use Rattle.std.specs.String.{string_bytes};
ghost use Rattle.usbnum_core.specs.Number.{digits_of};
ghost use Rattle.registry_rules.specs.Orders.{canonical_form, fields_of, number_field, vendor_fields, terms_fields, item_field, after_tabs};
ghost use Rattle.registry_rules.specs.declared.order.Order.TheVariants as orders;

use crate::{
    AddLicence, AddVendor, Amend, AmendOrg, Ask, CanonicalForm, Correct, CorrectOrg, Decline,
    Enrol, Grant, HandOver, Item, Order, Release, Request, Reserve, Return, Revoke, Terms,
    Withdraw,
};
use std::alloc::{AllocError, Global};
use std::fmt::{self, Write};
use usbnum_core::{NoMemory, Pid, Slug, Span, Title, Vid};

/// Returns the canonical form of the request's order: its fields, separated by tabs. Two orders are
/// equal if their canonical forms are.
pub fn request_bytes(alloc: Global, request: &Request) -> Result<CanonicalForm, NoMemory>
    ensures { IfOk result (λ bytes. bytes ≡ canonical_form request.now.order) }
{
    Ok(CanonicalForm::new(order_text(alloc, &request.order)?.into_bytes()))
}

#[tactic(auto, unfolding(crate::specs::Orders::canonical_form))]
pub(crate) fn order_text(alloc: Global, order: &Order) -> Result<String, AllocError>
    ensures { IfOk result (λ text. string_bytes text ≡ canonical_form order.now) }
{
    match order {
        Order::Enrol(Enrol { org, title, site }) => {
            format!(in alloc; "enrol\t{org}\t{title}\t{site}")
        }
        Order::AmendOrg(AmendOrg { org, title, site }) => {
            format!(in alloc; "amend-org\t{org}\t{title}\t{site}")
        }
        Order::Ask(it) => ask_text(alloc, it),
        Order::Grant(Grant { petition, number }) => {
            let number = NumberField { number: *number };
            format!(in alloc; "grant\t{petition}\t{number}")
        }
        Order::Decline(it) => decline_text(alloc, it),
        Order::Withdraw(Withdraw { petition }) => format!(in alloc; "withdraw\t{petition}"),
        Order::Amend(it) => amend_text(alloc, it),
        Order::Return(Return { number, vendor }) => {
            let vendor = VendorField { vendor: *vendor };
            format!(in alloc; "return\t{number}{vendor}")
        }
        Order::Reserve(Reserve { span, vendor }) => span_text(alloc, "reserve", span, *vendor),
        Order::Release(Release { span, vendor }) => span_text(alloc, "release", span, *vendor),
        Order::Import(it) => import_text(alloc, &it.org, it.items.as_slice(), it.vendor),
        Order::AddVendor(AddVendor { vendor, name }) => {
            format!(in alloc; "add-vendor\t{vendor}\t{name}")
        }
        Order::AddLicence(AddLicence { licence }) => format!(in alloc; "add-licence\t{licence}"),
        Order::HandOver(HandOver { org, keeper }) => format!(in alloc;
            "hand-over\t{org}\t{keeper}"
        ),
        Order::Correct(it) => correct_text(alloc, it),
        Order::CorrectOrg(CorrectOrg { org, title, site }) => {
            format!(in alloc; "correct-org\t{org}\t{title}\t{site}")
        }
        Order::Revoke(it) => revoke_text(alloc, it),
    }
}

fn ask_text(alloc: Global, it: &Ask) -> Result<String, AllocError>
    ensures { IfOk result (λ text. string_bytes text ≡ join_with_byte 9 (fields_of (orders.Ask it.now))) }
{
    let org = &it.org;
    let want = NumberField { number: it.want };
    let card = card_text(alloc, &it.title, &it.terms, it.vendor)?;
    format!(in alloc; "ask\t{org}\t{want}\t{card}")
}

fn decline_text(alloc: Global, it: &Decline) -> Result<String, AllocError>
    ensures { IfOk result (λ text. string_bytes text ≡ join_with_byte 9 (fields_of (orders.Decline it.now))) }
{
    let petition = it.petition;
    match &it.reason {
        Some(reason) => format!(in alloc; "decline\t{petition}\t{reason}"),
        None => format!(in alloc; "decline\t{petition}"),
    }
}

fn amend_text(alloc: Global, it: &Amend) -> Result<String, AllocError>
    ensures { IfOk result (λ text. string_bytes text ≡ join_with_byte 9 (fields_of (orders.Amend it.now))) }
{
    let number = it.number;
    let card = card_text(alloc, &it.title, &it.terms, it.vendor)?;
    format!(in alloc; "amend\t{number}\t{card}")
}

fn correct_text(alloc: Global, it: &Correct) -> Result<String, AllocError>
    ensures { IfOk result (λ text. string_bytes text ≡ join_with_byte 9 (fields_of (orders.Correct it.now))) }
{
    let number = it.number;
    let card = card_text(alloc, &it.title, &it.terms, it.vendor)?;
    format!(in alloc; "correct\t{number}\t{card}")
}

fn revoke_text(alloc: Global, it: &Revoke) -> Result<String, AllocError>
    ensures { IfOk result (λ text. string_bytes text ≡ join_with_byte 9 (fields_of (orders.Revoke it.now))) }
{
    let number = it.number;
    let reason = &it.reason;
    let vendor = VendorField { vendor: it.vendor };
    format!(in alloc; "revoke\t{number}\t{reason}{vendor}")
}

// The order with this word on a span of numbers.
fn span_text(
    alloc: Global,
    word: &str,
    span: &Span,
    vendor: Option<Vid>,
) -> Result<String, AllocError>
    ensures { IfOk result (λ text. string_bytes text ≡ join_with_byte 9 (word.now ∷ digits_of span.now.first ∷ digits_of span.now.last ∷ vendor_fields vendor)) }
{
    let first = span.first();
    let last = span.last();
    let vendor = VendorField { vendor };
    format!(in alloc; "{word}\t{first}\t{last}{vendor}")
}

// The fields of the title, the terms and the vendor of an order.
fn card_text(
    alloc: Global,
    title: &Title,
    terms: &Terms,
    vendor: Option<Vid>,
) -> Result<String, AllocError>
    ensures { IfOk result (λ text. string_bytes text ≡ join_with_byte 9 (title.now ∷ terms_fields terms.now ++ vendor_fields vendor)) }
{
    let licence = &terms.licence;
    let site = &terms.site;
    let source = &terms.source;
    let vendor = VendorField { vendor };
    format!(in alloc; "{title}\t{licence}\t{site}\t{source}{vendor}")
}

fn import_text(
    alloc: Global,
    org: &Slug,
    items: &[Item],
    vendor: Option<Vid>,
) -> Result<String, AllocError>
    ensures { IfOk result (λ text. string_bytes text ≡ join_with_byte 9 (codes "import" ∷ org.now ∷ vendor_fields vendor ++ map item_field items.now)) }
{
    let vendor = VendorField { vendor };
    let mut text = format!(in alloc; "import\t{org}{vendor}")?;
    for item in items {
        push_item(&mut text, item)?;
    }
    Ok(text)
}

fn push_item(text: &mut String, item: &Item) -> Result<(), AllocError>
    ensures { IfOk result (λ _. string_bytes text.new ≡ string_bytes text.old ++ 9 ∷ item_field item.now) }
{
    let code = CodeField { code: item.code };
    match &item.title {
        Some(title) => write!(text, "\t{code}={title}"),
        None => write!(text, "\t{code}="),
    }
}

// The code of an item: four digits, also for 0.
#[derive(Drop)]
struct CodeField {
    code: u16,
}

impl fmt::Display for CodeField {
    ghost output = { λ field. Some (digits_of field.code) };

    fn fmt<W: fmt::Write>(&self, f: &mut fmt::Formatter<W>) -> fmt::Result {
        match Pid::new(self.code) {
            None => f.write_str("0000"),
            Some(pid) => write!(f, "{pid}"),
        }
    }
}

// A product ID that an order may name: four digits, or `-`.
#[derive(Drop)]
struct NumberField {
    number: Option<Pid>,
}

impl fmt::Display for NumberField {
    ghost output = { λ field. Some (number_field field.number) };

    fn fmt<W: fmt::Write>(&self, f: &mut fmt::Formatter<W>) -> fmt::Result {
        match self.number {
            None => f.write_str("-"),
            Some(number) => write!(f, "{number}"),
        }
    }
}

// A vendor that an order may name: a tab and four digits, or nothing.
#[derive(Drop)]
struct VendorField {
    vendor: Option<Vid>,
}

impl fmt::Display for VendorField {
    ghost output = { λ field. Some (after_tabs (vendor_fields field.vendor)) };

    fn fmt<W: fmt::Write>(&self, f: &mut fmt::Formatter<W>) -> fmt::Result {
        match self.vendor {
            None => Ok(()),
            Some(vendor) => write!(f, "\t{vendor}"),
        }
    }
}
