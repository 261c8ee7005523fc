//! The founding, records and requests of the tests, from plain data.

use registry_rules::{
    Act, Card, Change, Curators, Entry, Founding, Licences, NumberName, Order, Org, Petition,
    PetitionState, Request, Return, Terms, Withdraw,
};
use std::alloc::Global;
use usbnum_core::{Key, Link, Number, Pid, Slug, Span, Spans, Time, Title, Vid};

fn slug(alloc: Global, text: &str) -> Option<Slug> {
    Slug::new(alloc, text.as_bytes()).ok()?
}

fn title(alloc: Global, text: &str) -> Option<Title> {
    Title::new(alloc, text.as_bytes()).ok()?
}

fn site(alloc: Global) -> Option<Link> {
    Link::new(alloc, b"https://acme.example/").ok()?
}

fn span(first: u16, last: u16) -> Option<Span> {
    Span::new(Pid::new(first)?, Pid::new(last)?)
}

/// Returns the number 0011 of the vendor.
fn a_number(vid: u16) -> Option<Number> {
    Some(Number {
        vid: Vid::new(vid)?,
        pid: Pid::new(0x11)?,
    })
}

fn curators(alloc: Global) -> Option<Curators> {
    let slugs = vec![in alloc; slug(alloc, "cora")?].ok()?;
    Curators::new(slugs)
}

fn licences(alloc: Global) -> Option<Licences> {
    let titles = vec![in alloc; title(alloc, "MIT")?].ok()?;
    Licences::new(titles)
}

fn fixed(alloc: Global) -> Option<Spans> {
    let mut fixed = Spans::new(alloc);
    fixed.add(span(1, 16)?).ok()?;
    Some(fixed)
}

/// Returns a founding of the vendor 1209, with the numbers up to 0010 fixed.
pub fn founding(alloc: Global) -> Option<Founding> {
    Some(Founding {
        vendor: Vid::new(0x1209)?,
        name: title(alloc, "InterBiometrics")?,
        curators: curators(alloc)?,
        licences: licences(alloc)?,
        fixed: fixed(alloc)?,
    })
}

fn terms(alloc: Global) -> Option<Terms> {
    Some(Terms {
        licence: title(alloc, "MIT")?,
        site: site(alloc)?,
        source: site(alloc)?,
    })
}

fn card(alloc: Global, text: &str) -> Option<Card> {
    Some(Card {
        title: title(alloc, text)?,
        terms: Some(terms(alloc)?),
    })
}

/// The state of a petition. A granted one has the number 0011.
#[derive(Clone, Copy)]
pub enum State {
    Open,
    Granted,
    Declined,
    Withdrawn,
}

fn state_of(state: State) -> Option<PetitionState> {
    match state {
        State::Open => Some(PetitionState::Open),
        State::Granted => Some(PetitionState::Granted(Pid::new(0x11)?)),
        State::Declined => Some(PetitionState::Declined),
        State::Withdrawn => Some(PetitionState::Withdrawn),
    }
}

/// A change. The organisation is acme, the vendor of petitions and spans 1209, and the number of
/// an entry 0011 of the vendor.
#[derive(Clone, Copy)]
pub enum Put<'a> {
    Vendor(u16, &'a str),
    Licence(&'a str),
    Reserve(u16, u16),
    Release(u16, u16),
    Org(&'a str),
    Petition(u32, Option<u16>, State),
    Reason(u32, &'a str),
    Entry(u16, &'a str),
    Returned(u16),
    Card(u16, &'a str),
}

fn put_org(alloc: Global, text: &str) -> Option<Change> {
    Some(Change::PutOrg(Org {
        slug: slug(alloc, "acme")?,
        title: title(alloc, text)?,
        site: site(alloc)?,
        keeper: slug(alloc, "ann")?,
    }))
}

fn petition(alloc: Global, want: Option<u16>, state: State) -> Option<Petition> {
    Some(Petition {
        vid: Vid::new(0x1209)?,
        want: want.and_then(Pid::new),
        state: state_of(state)?,
        org: slug(alloc, "acme")?,
        title: title(alloc, "Probe")?,
        terms: terms(alloc)?,
    })
}

fn put_petition(alloc: Global, id: u32, want: Option<u16>, state: State) -> Option<Change> {
    let petition = petition(alloc, want, state)?;
    Some(Change::PutPetition { id, petition })
}

fn put_entry(alloc: Global, vid: u16, text: &str) -> Option<Change> {
    let number = a_number(vid)?;
    let entry = Entry {
        org: slug(alloc, "acme")?,
        held: true,
        card: card(alloc, text)?,
    };
    Some(Change::PutEntry { number, entry })
}

fn set_card(alloc: Global, vid: u16, text: &str) -> Option<Change> {
    Some(Change::SetCard {
        number: a_number(vid)?,
        card: card(alloc, text)?,
    })
}

fn put_vendor(alloc: Global, vid: u16, text: &str) -> Option<Change> {
    Some(Change::PutVendor {
        vid: Vid::new(vid)?,
        name: title(alloc, text)?,
    })
}

fn change_span(first: u16, last: u16, reserved: bool) -> Option<Change> {
    let vid = Vid::new(0x1209)?;
    let span = span(first, last)?;
    if reserved {
        Some(Change::ReserveSpan { vid, span })
    } else {
        Some(Change::ReleaseSpan { vid, span })
    }
}

fn set_returned(vid: u16) -> Option<Change> {
    Some(Change::SetHeld {
        number: a_number(vid)?,
        held: false,
    })
}

fn change_of(alloc: Global, put: Put<'_>) -> Option<Change> {
    match put {
        Put::Vendor(vid, name) => put_vendor(alloc, vid, name),
        Put::Licence(name) => Some(Change::PutLicence(title(alloc, name)?)),
        Put::Reserve(first, last) => change_span(first, last, true),
        Put::Release(first, last) => change_span(first, last, false),
        Put::Org(name) => put_org(alloc, name),
        Put::Petition(id, want, state) => put_petition(alloc, id, want, state),
        Put::Reason(id, text) => Some(Change::PutReason {
            id,
            reason: title(alloc, text)?,
        }),
        Put::Entry(vid, name) => put_entry(alloc, vid, name),
        Put::Returned(vid) => set_returned(vid),
        Put::Card(vid, name) => set_card(alloc, vid, name),
    }
}

pub fn changes(alloc: Global, puts: &[Put<'_>]) -> Option<Vec<Change>> {
    let mut all = Vec::new(alloc);
    for put in puts {
        all.push(change_of(alloc, *put)?).ok()?;
    }
    Some(all)
}

/// An order of a caller: to withdraw petition 1, without a time or at one, or to return the number
/// 0011.
#[derive(Clone, Copy)]
pub enum Asked<'a> {
    Withdraw(&'a str),
    WithdrawAt(&'a str, &'a str),
    Return(&'a str),
}

fn return_order() -> Option<Order> {
    Some(Order::Return(Return {
        number: Pid::new(0x11)?,
        vendor: None,
    }))
}

fn withdraw_order() -> Order {
    Order::Withdraw(Withdraw { petition: 1 })
}

fn request(alloc: Global, caller: &str, order: Order) -> Option<Request> {
    Some(Request {
        caller: slug(alloc, caller)?,
        key: Key::new(alloc, b"k1").ok()??,
        order,
        time: None,
    })
}

fn request_at(alloc: Global, caller: &str, order: Order, time: &str) -> Option<Request> {
    let mut timed = request(alloc, caller, order)?;
    timed.time = Some(Time::new(alloc, time.as_bytes()).ok()??);
    Some(timed)
}

pub fn request_of(alloc: Global, asked: Asked<'_>) -> Option<Request> {
    match asked {
        Asked::Withdraw(caller) => request(alloc, caller, withdraw_order()),
        Asked::WithdrawAt(caller, time) => request_at(alloc, caller, withdraw_order(), time),
        Asked::Return(caller) => request(alloc, caller, return_order()?),
    }
}

fn returned() -> Option<Act> {
    let name = NumberName {
        number: a_number(0x1209)?,
        foreign: false,
    };
    Some(Act::Returned { name })
}

fn withdrawn(alloc: Global) -> Option<Act> {
    let petition = petition(alloc, None, State::Open)?;
    Some(Act::Withdrawn { id: 1, petition })
}

/// Returns the effect of the order.
pub fn act_of(alloc: Global, asked: Asked<'_>) -> Option<Act> {
    match asked {
        Asked::Withdraw(_) | Asked::WithdrawAt(_, _) => withdrawn(alloc),
        Asked::Return(_) => returned(),
    }
}
