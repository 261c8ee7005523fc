//! That the types of a request keep its fields valid.

ghost use Rattle.std.specs.Prelude.{◌<◌, ◌^◌, All, IfSome};
ghost use Rattle.usbnum_core.specs.Number.{IsId};
ghost use Rattle.usbnum_core.specs.Text.{IsSlug, IsKey, IsLink, IsTime, IsTitle};
ghost use Rattle.registry_rules.specs.Orders.{IsIdIfAny, IsItem, IsOrder, IsTerms};
ghost use Rattle.registry_laws.specs.Records.{IsValidRequest};

use registry_rules::{Item, Order, Request, Terms};
use usbnum_core::{Key, Link, Pid, Slug, Span, Time, Title, Vid};

fn has_slug(slug: &Slug)
    ensures { IsSlug slug.now }
{
    let _text = slug.as_str();
}

fn has_title(title: &Title)
    ensures { IsTitle title.now }
{
    let _text = title.as_str();
}

fn has_link(link: &Link)
    ensures { IsLink link.now }
{
    let _text = link.as_str();
}

fn has_key(key: &Key)
    ensures { IsKey key.now }
{
    let _text = key.as_str();
}

fn has_time(time: &Option<Time>)
    ensures { IfSome time.now IsTime }
{
    if let Some(time) = time {
        let _text = time.as_str();
    }
}

fn has_title_if_any(title: &Option<Title>)
    ensures { IfSome title.now IsTitle }
{
    if let Some(title) = title {
        has_title(title);
    }
}

fn has_pid(pid: &Pid)
    ensures { IsId pid.now }
{
    let _number = pid.get();
}

fn has_pid_if_any(pid: &Option<Pid>)
    ensures { IsIdIfAny pid.now }
{
    if let Some(pid) = pid {
        has_pid(pid);
    }
}

fn has_vid(vid: &Vid)
    ensures { IsId vid.now }
{
    let _number = vid.get();
}

fn has_vid_if_any(vid: &Option<Vid>)
    ensures { IsIdIfAny vid.now }
{
    if let Some(vid) = vid {
        has_vid(vid);
    }
}

fn has_petition(petition: u32)
    ensures { petition < 2 ^ 32 }
{}

fn has_terms(terms: &Terms)
    ensures { IsTerms terms.now }
{
    has_title(&terms.licence);
    has_link(&terms.site);
    has_link(&terms.source);
}

fn has_item(item: &Item)
    ensures { IsItem item.now }
{
    let _code = item.code;
    has_title_if_any(&item.title);
}

fn has_items(items: &[Item])
    ensures { All IsItem items.now }
{
    for item in items {
        has_item(item);
    }
}

fn has_span(span: &Span)
    ensures first { IsId span.now.first }
    ensures last { IsId span.now.last }
{
    let _first = span.first().get();
    let _last = span.last().get();
}

fn has_order_fields(order: &Order)
    ensures { IsOrder order.now }
{
    match order {
        Order::Enrol(it) => {
            has_slug(&it.org);
            has_title(&it.title);
            has_link(&it.site);
        }
        Order::AmendOrg(it) => {
            has_slug(&it.org);
            has_title(&it.title);
            has_link(&it.site);
        }
        Order::CorrectOrg(it) => {
            has_slug(&it.org);
            has_title(&it.title);
            has_link(&it.site);
        }
        Order::HandOver(it) => {
            has_slug(&it.org);
            has_slug(&it.keeper);
        }
        Order::Ask(it) => {
            has_slug(&it.org);
            has_pid_if_any(&it.want);
            has_title(&it.title);
            has_terms(&it.terms);
            has_vid_if_any(&it.vendor);
        }
        Order::Grant(it) => {
            has_petition(it.petition);
            has_pid_if_any(&it.number);
        }
        Order::Decline(it) => {
            has_petition(it.petition);
            has_title_if_any(&it.reason);
        }
        Order::Withdraw(it) => has_petition(it.petition),
        Order::Amend(it) => {
            has_pid(&it.number);
            has_title(&it.title);
            has_terms(&it.terms);
            has_vid_if_any(&it.vendor);
        }
        Order::Correct(it) => {
            has_pid(&it.number);
            has_title(&it.title);
            has_terms(&it.terms);
            has_vid_if_any(&it.vendor);
        }
        Order::Return(it) => {
            has_pid(&it.number);
            has_vid_if_any(&it.vendor);
        }
        Order::Revoke(it) => {
            has_pid(&it.number);
            has_vid_if_any(&it.vendor);
            has_title(&it.reason);
        }
        Order::Reserve(it) => {
            has_span(&it.span);
            has_vid_if_any(&it.vendor);
        }
        Order::Release(it) => {
            has_span(&it.span);
            has_vid_if_any(&it.vendor);
        }
        Order::Import(it) => {
            has_slug(&it.org);
            has_items(it.items.as_slice());
            has_vid_if_any(&it.vendor);
        }
        Order::AddVendor(it) => {
            has_vid(&it.vendor);
            has_title(&it.name);
        }
        Order::AddLicence(it) => has_title(&it.licence),
    }
}

/// Does nothing. Its contract says that the types of a request keep its fields valid.
pub fn has_valid_fields(request: &Request)
    ensures { IsValidRequest request.now }
{
    has_slug(&request.caller);
    has_key(&request.key);
    has_order_fields(&request.order);
    has_time(&request.time);
}
