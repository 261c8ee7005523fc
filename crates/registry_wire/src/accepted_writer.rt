//! Writes accepted requests as lines of a record.

ghost use Rattle.std.specs.Prelude.{◌≡◌, [], ◌∷◌, map, IfOk, OnOk};
ghost use Rattle.std.specs.String.{string_bytes};
ghost use Rattle.serde_json.specs.Data.{string, array, no_members, put};
ghost use Rattle.serde_json.specs.View.{view, items_of, members_view};
ghost use Rattle.usbnum_core.specs.Number.{digits_of};
ghost use Rattle.registry_rules.specs.declared.order.Order.TheVariants as orders;
ghost use Rattle.registry_wire.specs.declared.field.Field.TheVariants as fields;
ghost use Rattle.registry_wire.specs.Reading.{field_name};
ghost use Rattle.registry_wire.specs.Record.{title_data, item_data, digits_if_named, text_if_given, fields_of_terms, petition_field, order_fields, accepted_fields, with_fields, accepted_line};

use crate::Field;
use crate::json_object::{Members, object_text, put, text_value};
use registry_rules::{
    Accepted, AddLicence, AddVendor, Amend, AmendOrg, Ask, Correct, CorrectOrg, Decline, Enrol,
    Grant, HandOver, Import, Item, Order, Release, ReplyText, Request, Reserve, Return, Revoke,
    Terms, Withdraw,
};
use serde_json::{Map, Number, Value};
use std::alloc::Global;
use usbnum_core::{NoMemory, Pid, Time, Title, Vid};

fn put_text(alloc: Global, members: &mut Members, field: Field, text: &str) -> Result<(), NoMemory>
    ensures { OnOk result (members_view members.new.entries ≡ put (field_name field) (string text.now) (members_view members.old.entries)) }
{
    let value = text_value(alloc, text)?;
    put(alloc, members, field.name(), value)
}

fn put_pid(alloc: Global, members: &mut Members, field: Field, pid: Pid) -> Result<(), NoMemory>
    ensures { OnOk result (members_view members.new.entries ≡ put (field_name field) (string (digits_of pid)) (members_view members.old.entries)) }
{
    let digits = format!(in alloc; "{pid}")?;
    put_text(alloc, members, field, digits.as_str())
}

fn put_vid(alloc: Global, members: &mut Members, vid: Vid) -> Result<(), NoMemory>
    ensures { OnOk result (members_view members.new.entries ≡ put (field_name fields.Vendor) (string (digits_of vid)) (members_view members.old.entries)) }
{
    let digits = format!(in alloc; "{vid}")?;
    put_text(alloc, members, Field::Vendor, digits.as_str())
}

// The reason of an order, if it gives one.
fn put_reason_if_given(
    alloc: Global,
    members: &mut Members,
    reason: &Option<Title>,
) -> Result<(), NoMemory>
    ensures { OnOk result (members_view members.new.entries ≡ with_fields (text_if_given fields.Reason reason.now) (members_view members.old.entries)) }
{
    match reason {
        Some(reason) => put_text(alloc, members, Field::Reason, reason.as_str()),
        None => Ok(()),
    }
}

// The time of a request, if it has one.
fn put_time_if_given(
    alloc: Global,
    members: &mut Members,
    time: &Option<Time>,
) -> Result<(), NoMemory>
    ensures { OnOk result (members_view members.new.entries ≡ with_fields (text_if_given fields.At time.now) (members_view members.old.entries)) }
{
    match time {
        Some(time) => put_text(alloc, members, Field::At, time.as_str()),
        None => Ok(()),
    }
}

fn put_petition(alloc: Global, members: &mut Members, petition: u32) -> Result<(), NoMemory>
    ensures { OnOk result (members_view members.new.entries ≡ with_fields (petition_field petition ∷ []) (members_view members.old.entries)) }
{
    let value = Value::Number(Number::from(petition));
    put(alloc, members, Field::Petition.name(), value)
}

// The number of an order, if the order names one.
fn put_number_if_named(
    alloc: Global,
    members: &mut Members,
    number: Option<Pid>,
) -> Result<(), NoMemory>
    ensures { OnOk result (members_view members.new.entries ≡ with_fields (digits_if_named fields.Number number) (members_view members.old.entries)) }
{
    match number {
        Some(pid) => put_pid(alloc, members, Field::Number, pid),
        None => Ok(()),
    }
}

// The vendor of an order, if the order names one.
fn put_vendor_if_named(
    alloc: Global,
    members: &mut Members,
    vendor: Option<Vid>,
) -> Result<(), NoMemory>
    ensures { OnOk result (members_view members.new.entries ≡ with_fields (digits_if_named fields.Vendor vendor) (members_view members.old.entries)) }
{
    match vendor {
        Some(vid) => put_vid(alloc, members, vid),
        None => Ok(()),
    }
}

fn put_terms(alloc: Global, members: &mut Members, terms: &Terms) -> Result<(), NoMemory>
    ensures { OnOk result (members_view members.new.entries ≡ with_fields (fields_of_terms terms.now) (members_view members.old.entries)) }
{
    put_text(alloc, members, Field::Licence, terms.licence.as_str())?;
    put_text(alloc, members, Field::Site, terms.site.as_str())?;
    put_text(alloc, members, Field::Source, terms.source.as_str())
}

// The four digits of a code, which may be 0.
fn code_value(alloc: Global, code: u16) -> Result<Value, NoMemory>
    ensures { IfOk result (λ value. view value ≡ string (digits_of code)) }
{
    match Pid::new(code) {
        Some(pid) => text_value(alloc, format!(in alloc; "{pid}")?.as_str()),
        None => text_value(alloc, "0000"),
    }
}

fn title_value(alloc: Global, title: &Option<Title>) -> Result<Value, NoMemory>
    ensures { IfOk result (λ value. view value ≡ title_data title.now) }
{
    match title {
        Some(title) => text_value(alloc, title.as_str()),
        None => Ok(Value::Null),
    }
}

fn item_value(alloc: Global, item: &Item) -> Result<Value, NoMemory>
    ensures { IfOk result (λ value. view value ≡ item_data item.now) }
{
    let mut pair = Vec::new(alloc);
    pair.push(code_value(alloc, item.code)?)?;
    pair.push(title_value(alloc, &item.title)?)?;
    Ok(Value::Array(pair))
}

fn items_value(alloc: Global, items: &[Item]) -> Result<Value, NoMemory>
    ensures { IfOk result (λ value. view value ≡ array (items_of (map item_data items.now))) }
{
    let mut values = Vec::new(alloc);
    for item in items {
        values.push(item_value(alloc, item)?)?;
    }
    Ok(Value::Array(values))
}

fn put_items(alloc: Global, members: &mut Members, items: &[Item]) -> Result<(), NoMemory>
    ensures { OnOk result (members_view members.new.entries ≡ put (field_name fields.Items) (array (items_of (map item_data items.now))) (members_view members.old.entries)) }
{
    let value = items_value(alloc, items)?;
    put(alloc, members, Field::Items.name(), value)
}

fn put_enrol(alloc: Global, members: &mut Members, it: &Enrol) -> Result<(), NoMemory>
    ensures { OnOk result (members_view members.new.entries ≡ with_fields (order_fields (orders.Enrol it.now)) (members_view members.old.entries)) }
{
    put_text(alloc, members, Field::Order, "enrol")?;
    put_text(alloc, members, Field::Org, it.org.as_str())?;
    put_text(alloc, members, Field::Title, it.title.as_str())?;
    put_text(alloc, members, Field::Site, it.site.as_str())
}

fn put_amend_org(alloc: Global, members: &mut Members, it: &AmendOrg) -> Result<(), NoMemory>
    ensures { OnOk result (members_view members.new.entries ≡ with_fields (order_fields (orders.AmendOrg it.now)) (members_view members.old.entries)) }
{
    put_text(alloc, members, Field::Order, "amend-org")?;
    put_text(alloc, members, Field::Org, it.org.as_str())?;
    put_text(alloc, members, Field::Title, it.title.as_str())?;
    put_text(alloc, members, Field::Site, it.site.as_str())
}

fn put_hand_over(alloc: Global, members: &mut Members, it: &HandOver) -> Result<(), NoMemory>
    ensures { OnOk result (members_view members.new.entries ≡ with_fields (order_fields (orders.HandOver it.now)) (members_view members.old.entries)) }
{
    put_text(alloc, members, Field::Order, "hand-over")?;
    put_text(alloc, members, Field::Org, it.org.as_str())?;
    put_text(alloc, members, Field::Keeper, it.keeper.as_str())
}

fn put_correct_org(alloc: Global, members: &mut Members, it: &CorrectOrg) -> Result<(), NoMemory>
    ensures { OnOk result (members_view members.new.entries ≡ with_fields (order_fields (orders.CorrectOrg it.now)) (members_view members.old.entries)) }
{
    put_text(alloc, members, Field::Order, "correct-org")?;
    put_text(alloc, members, Field::Org, it.org.as_str())?;
    put_text(alloc, members, Field::Title, it.title.as_str())?;
    put_text(alloc, members, Field::Site, it.site.as_str())
}

#[tactic(auto, using(crate::proofs::FieldLemmas::with_fields_append))]
fn put_ask(alloc: Global, members: &mut Members, it: &Ask) -> Result<(), NoMemory>
    ensures { OnOk result (members_view members.new.entries ≡ with_fields (order_fields (orders.Ask it.now)) (members_view members.old.entries)) }
{
    put_text(alloc, members, Field::Order, "ask")?;
    put_text(alloc, members, Field::Org, it.org.as_str())?;
    put_text(alloc, members, Field::Title, it.title.as_str())?;
    put_terms(alloc, members, &it.terms)?;
    put_number_if_named(alloc, members, it.want)?;
    put_vendor_if_named(alloc, members, it.vendor)
}

fn put_grant(alloc: Global, members: &mut Members, it: &Grant) -> Result<(), NoMemory>
    ensures { OnOk result (members_view members.new.entries ≡ with_fields (order_fields (orders.Grant it.now)) (members_view members.old.entries)) }
{
    put_text(alloc, members, Field::Order, "grant")?;
    put_petition(alloc, members, it.petition)?;
    put_number_if_named(alloc, members, it.number)
}

fn put_decline(alloc: Global, members: &mut Members, it: &Decline) -> Result<(), NoMemory>
    ensures { OnOk result (members_view members.new.entries ≡ with_fields (order_fields (orders.Decline it.now)) (members_view members.old.entries)) }
{
    put_text(alloc, members, Field::Order, "decline")?;
    put_petition(alloc, members, it.petition)?;
    put_reason_if_given(alloc, members, &it.reason)
}

fn put_withdraw(alloc: Global, members: &mut Members, it: &Withdraw) -> Result<(), NoMemory>
    ensures { OnOk result (members_view members.new.entries ≡ with_fields (order_fields (orders.Withdraw it.now)) (members_view members.old.entries)) }
{
    put_text(alloc, members, Field::Order, "withdraw")?;
    put_petition(alloc, members, it.petition)
}

fn put_amend(alloc: Global, members: &mut Members, it: &Amend) -> Result<(), NoMemory>
    ensures { OnOk result (members_view members.new.entries ≡ with_fields (order_fields (orders.Amend it.now)) (members_view members.old.entries)) }
{
    put_text(alloc, members, Field::Order, "amend")?;
    put_pid(alloc, members, Field::Number, it.number)?;
    put_text(alloc, members, Field::Title, it.title.as_str())?;
    put_terms(alloc, members, &it.terms)?;
    put_vendor_if_named(alloc, members, it.vendor)
}

fn put_return(alloc: Global, members: &mut Members, it: &Return) -> Result<(), NoMemory>
    ensures { OnOk result (members_view members.new.entries ≡ with_fields (order_fields (orders.Return it.now)) (members_view members.old.entries)) }
{
    put_text(alloc, members, Field::Order, "return")?;
    put_pid(alloc, members, Field::Number, it.number)?;
    put_vendor_if_named(alloc, members, it.vendor)
}

fn put_correct(alloc: Global, members: &mut Members, it: &Correct) -> Result<(), NoMemory>
    ensures { OnOk result (members_view members.new.entries ≡ with_fields (order_fields (orders.Correct it.now)) (members_view members.old.entries)) }
{
    put_text(alloc, members, Field::Order, "correct")?;
    put_pid(alloc, members, Field::Number, it.number)?;
    put_text(alloc, members, Field::Title, it.title.as_str())?;
    put_terms(alloc, members, &it.terms)?;
    put_vendor_if_named(alloc, members, it.vendor)
}

fn put_revoke(alloc: Global, members: &mut Members, it: &Revoke) -> Result<(), NoMemory>
    ensures { OnOk result (members_view members.new.entries ≡ with_fields (order_fields (orders.Revoke it.now)) (members_view members.old.entries)) }
{
    put_text(alloc, members, Field::Order, "revoke")?;
    put_pid(alloc, members, Field::Number, it.number)?;
    put_text(alloc, members, Field::Reason, it.reason.as_str())?;
    put_vendor_if_named(alloc, members, it.vendor)
}

fn put_reserve(alloc: Global, members: &mut Members, it: &Reserve) -> Result<(), NoMemory>
    ensures { OnOk result (members_view members.new.entries ≡ with_fields (order_fields (orders.Reserve it.now)) (members_view members.old.entries)) }
{
    put_text(alloc, members, Field::Order, "reserve")?;
    put_pid(alloc, members, Field::First, it.span.first())?;
    put_pid(alloc, members, Field::Last, it.span.last())?;
    put_vendor_if_named(alloc, members, it.vendor)
}

fn put_release(alloc: Global, members: &mut Members, it: &Release) -> Result<(), NoMemory>
    ensures { OnOk result (members_view members.new.entries ≡ with_fields (order_fields (orders.Release it.now)) (members_view members.old.entries)) }
{
    put_text(alloc, members, Field::Order, "release")?;
    put_pid(alloc, members, Field::First, it.span.first())?;
    put_pid(alloc, members, Field::Last, it.span.last())?;
    put_vendor_if_named(alloc, members, it.vendor)
}

fn put_import(alloc: Global, members: &mut Members, it: &Import) -> Result<(), NoMemory>
    ensures { OnOk result (members_view members.new.entries ≡ with_fields (order_fields (orders.Import it.now)) (members_view members.old.entries)) }
{
    put_text(alloc, members, Field::Order, "import")?;
    put_text(alloc, members, Field::Org, it.org.as_str())?;
    put_items(alloc, members, it.items.as_slice())?;
    put_vendor_if_named(alloc, members, it.vendor)
}

fn put_add_vendor(alloc: Global, members: &mut Members, it: &AddVendor) -> Result<(), NoMemory>
    ensures { OnOk result (members_view members.new.entries ≡ with_fields (order_fields (orders.AddVendor it.now)) (members_view members.old.entries)) }
{
    put_text(alloc, members, Field::Order, "add-vendor")?;
    put_vid(alloc, members, it.vendor)?;
    put_text(alloc, members, Field::Name, it.name.as_str())
}

fn put_add_licence(alloc: Global, members: &mut Members, it: &AddLicence) -> Result<(), NoMemory>
    ensures { OnOk result (members_view members.new.entries ≡ with_fields (order_fields (orders.AddLicence it.now)) (members_view members.old.entries)) }
{
    put_text(alloc, members, Field::Order, "add-licence")?;
    put_text(alloc, members, Field::Licence, it.licence.as_str())
}

fn put_order(alloc: Global, members: &mut Members, order: &Order) -> Result<(), NoMemory>
    ensures { OnOk result (members_view members.new.entries ≡ with_fields (order_fields order.now) (members_view members.old.entries)) }
{
    match order {
        Order::Enrol(it) => put_enrol(alloc, members, it),
        Order::AmendOrg(it) => put_amend_org(alloc, members, it),
        Order::HandOver(it) => put_hand_over(alloc, members, it),
        Order::CorrectOrg(it) => put_correct_org(alloc, members, it),
        Order::Ask(it) => put_ask(alloc, members, it),
        Order::Grant(it) => put_grant(alloc, members, it),
        Order::Decline(it) => put_decline(alloc, members, it),
        Order::Withdraw(it) => put_withdraw(alloc, members, it),
        Order::Amend(it) => put_amend(alloc, members, it),
        Order::Return(it) => put_return(alloc, members, it),
        Order::Correct(it) => put_correct(alloc, members, it),
        Order::Revoke(it) => put_revoke(alloc, members, it),
        Order::Reserve(it) => put_reserve(alloc, members, it),
        Order::Release(it) => put_release(alloc, members, it),
        Order::Import(it) => put_import(alloc, members, it),
        Order::AddVendor(it) => put_add_vendor(alloc, members, it),
        Order::AddLicence(it) => put_add_licence(alloc, members, it),
    }
}

#[tactic(auto, using(crate::proofs::FieldLemmas::with_fields_append))]
fn accepted_members(
    alloc: Global,
    request: &Request,
    reply: &ReplyText,
) -> Result<Members, NoMemory>
    ensures { IfOk result (λ members. members_view members.entries ≡ with_fields (accepted_fields (record { request = request.now; reply = reply.now })) no_members) }
{
    let mut members = Map::new(alloc);
    put_text(alloc, &mut members, Field::Caller, request.caller.as_str())?;
    put_text(alloc, &mut members, Field::Key, request.key.as_str())?;
    put_text(alloc, &mut members, Field::Done, reply.as_str())?;
    put_time_if_given(alloc, &mut members, &request.time)?;
    put_order(alloc, &mut members, &request.order)?;
    Ok(members)
}

// The line of an accepted request and its reply.
#[tactic(auto, unfolding(crate::specs::Record::accepted_data))]
pub(crate) fn line_of(
    alloc: Global,
    request: &Request,
    reply: &ReplyText,
) -> Result<String, NoMemory>
    ensures { IfOk result (λ line. string_bytes line ≡ accepted_line (record { request = request.now; reply = reply.now })) }
{
    object_text(alloc, accepted_members(alloc, request, reply)?)
}

/// Returns an accepted request with its reply as one line of JSON, without a line feed: the fields
/// of the request as a caller gives them, and the reply as `done`. A number, a vendor, a reason or a
/// time is left out if there is none. An import has the field `items`, with the code and the title of
/// each, or null for an item without a title.
pub fn accepted_line(alloc: Global, accepted: &Accepted) -> Result<String, NoMemory>
    ensures { IfOk result (λ line. string_bytes line ≡ accepted_line accepted.now) }
{
    line_of(alloc, &accepted.request, &accepted.reply)
}
