//! Requests and their orders, with a struct for each kind of order.

ghost use Rattle.std.specs.Prelude.{◌≡◌};

use crate::{Items, Terms};
use std::alloc::AllocError;
use usbnum_core::{Key, Link, Pid, Slug, Span, Time, Title, Vid};

/// Enrols a new organisation, whose keeper is the caller.
#[derive(Clone, Debug, Drop)]
pub struct Enrol {
    /// The slug of the organisation, which never changes.
    pub org: Slug,
    /// Its title.
    pub title: Title,
    /// Its site.
    pub site: Link,
}

/// Changes the title and the site of an organisation.
#[derive(Clone, Debug, Drop)]
pub struct AmendOrg {
    /// The organisation.
    pub org: Slug,
    /// Its new title.
    pub title: Title,
    /// Its new site.
    pub site: Link,
}

/// Opens a petition, for a certain number or for any.
#[derive(Clone, Debug, Drop)]
pub struct Ask {
    /// The organisation that asks.
    pub org: Slug,
    /// The product ID that it wants; None for any.
    pub want: Option<Pid>,
    /// The title for the number's card.
    pub title: Title,
    /// The terms for the card.
    pub terms: Terms,
    /// The vendor of the number, if the order names it.
    pub vendor: Option<Vid>,
}

/// Gives the petition's organisation the number named, otherwise the one that the petition wants,
/// otherwise the least free one.
#[derive(Clone, Debug, Drop)]
pub struct Grant {
    /// The petition.
    pub petition: u32,
    /// The product ID to grant, if the order names it.
    pub number: Option<Pid>,
}

/// Closes a petition without a grant, by a curator.
#[derive(Clone, Debug, Drop)]
pub struct Decline {
    /// The petition.
    pub petition: u32,
    /// The reason, if the order gives one.
    pub reason: Option<Title>,
}

/// Closes a petition without a grant, by the keeper of its organisation.
#[derive(Clone, Debug, Drop)]
pub struct Withdraw {
    /// The petition.
    pub petition: u32,
}

/// Changes the card of a held number.
#[derive(Clone, Debug, Drop)]
pub struct Amend {
    /// The number.
    pub number: Pid,
    /// The new title.
    pub title: Title,
    /// The new terms.
    pub terms: Terms,
    /// The number's vendor, where it is named.
    pub vendor: Option<Vid>,
}

/// Returns a held number, which keeps its owner.
#[derive(Clone, Debug, Drop)]
pub struct Return {
    /// The number.
    pub number: Pid,
    /// The number's vendor, where it is named.
    pub vendor: Option<Vid>,
}

/// Reserves all numbers of a span.
#[derive(Clone, Debug, Drop)]
pub struct Reserve {
    /// The span.
    pub span: Span,
    /// The vendor of the numbers, where it is named.
    pub vendor: Option<Vid>,
}

/// Releases all numbers of a span.
#[derive(Clone, Debug, Drop)]
pub struct Release {
    /// The span.
    pub span: Span,
    /// The vendor of the numbers, where it is named.
    pub vendor: Option<Vid>,
}

/// Gives an organisation the numbers of the fresh items of a list.
#[derive(Clone, Debug, Drop)]
pub struct Import {
    /// The organisation.
    pub org: Slug,
    /// The items.
    pub items: Items,
    /// The vendor of the numbers, where it is named.
    pub vendor: Option<Vid>,
}

/// Adds a vendor.
#[derive(Clone, Debug, Drop)]
pub struct AddVendor {
    /// The vendor.
    pub vendor: Vid,
    /// Its name.
    pub name: Title,
}

/// Allows a further licence.
#[derive(Clone, Debug, Drop)]
pub struct AddLicence {
    /// The licence.
    pub licence: Title,
}

/// Gives an organisation another keeper. Its numbers and its petitions stay.
#[derive(Clone, Debug, Drop)]
pub struct HandOver {
    /// The organisation.
    pub org: Slug,
    /// Its new keeper.
    pub keeper: Slug,
}

/// Changes the card of an owned number, held or returned, by a curator.
#[derive(Clone, Debug, Drop)]
pub struct Correct {
    /// The number.
    pub number: Pid,
    /// The new title.
    pub title: Title,
    /// The new terms.
    pub terms: Terms,
    /// The number's vendor, where it is named.
    pub vendor: Option<Vid>,
}

/// Changes the title and the site of an organisation, by a curator.
#[derive(Clone, Debug, Drop)]
pub struct CorrectOrg {
    /// The organisation.
    pub org: Slug,
    /// Its new title.
    pub title: Title,
    /// Its new site.
    pub site: Link,
}

/// Takes a held number back, by a curator. It is then returned, and keeps its owner.
#[derive(Clone, Debug, Drop)]
pub struct Revoke {
    /// The number.
    pub number: Pid,
    /// The number's vendor, where it is named.
    pub vendor: Option<Vid>,
    /// The reason, which only the order has.
    pub reason: Title,
}

/// The order of a request. An order that may name a vendor and does not means the founding vendor.
/// `Enrol` is for any caller, `AmendOrg`, `Ask`, `Withdraw`, `Amend` and `Return` for the keeper of
/// the organisation concerned, `HandOver` for its keeper or a curator, and all other orders for
/// curators.
#[derive(Debug, Drop)]
pub enum Order {
    /// Enrols an organisation.
    Enrol(Enrol),
    /// Amends an organisation.
    AmendOrg(AmendOrg),
    /// Asks for a number.
    Ask(Ask),
    /// Grants a petition.
    Grant(Grant),
    /// Declines a petition.
    Decline(Decline),
    /// Withdraws a petition.
    Withdraw(Withdraw),
    /// Amends a number's card.
    Amend(Amend),
    /// Returns a number.
    Return(Return),
    /// Reserves numbers.
    Reserve(Reserve),
    /// Releases reserved numbers.
    Release(Release),
    /// Imports a list.
    Import(Import),
    /// Adds a vendor.
    AddVendor(AddVendor),
    /// Adds a licence.
    AddLicence(AddLicence),
    /// Hands an organisation over.
    HandOver(HandOver),
    /// Corrects a number's card.
    Correct(Correct),
    /// Corrects an organisation.
    CorrectOrg(CorrectOrg),
    /// Revokes a number.
    Revoke(Revoke),
}

// By hand, so that a copy is equal to the order it is of.
impl Clone for Order {
    ghost is_clone = { λ order copy. copy ≡ order };

    fn clone(&self) -> Result<Order, AllocError> {
        match self {
            Order::Enrol(it) => Ok(Order::Enrol(it.clone()?)),
            Order::AmendOrg(it) => Ok(Order::AmendOrg(it.clone()?)),
            Order::Ask(it) => Ok(Order::Ask(it.clone()?)),
            Order::Grant(it) => Ok(Order::Grant(it.clone()?)),
            Order::Decline(it) => Ok(Order::Decline(it.clone()?)),
            Order::Withdraw(it) => Ok(Order::Withdraw(it.clone()?)),
            Order::Amend(it) => Ok(Order::Amend(it.clone()?)),
            Order::Return(it) => Ok(Order::Return(it.clone()?)),
            Order::Reserve(it) => Ok(Order::Reserve(it.clone()?)),
            Order::Release(it) => Ok(Order::Release(it.clone()?)),
            Order::Import(it) => Ok(Order::Import(it.clone()?)),
            Order::AddVendor(it) => Ok(Order::AddVendor(it.clone()?)),
            Order::AddLicence(it) => Ok(Order::AddLicence(it.clone()?)),
            Order::HandOver(it) => Ok(Order::HandOver(it.clone()?)),
            Order::Correct(it) => Ok(Order::Correct(it.clone()?)),
            Order::CorrectOrg(it) => Ok(Order::CorrectOrg(it.clone()?)),
            Order::Revoke(it) => Ok(Order::Revoke(it.clone()?)),
        }
    }
}

/// An order of a caller, under a key that the caller chooses. The same order under the same key is
/// acted on once.
#[derive(Clone, Debug, Drop)]
pub struct Request {
    /// The caller.
    pub caller: Slug,
    /// The caller's key for the request.
    pub key: Key,
    /// The order.
    pub order: Order,
    /// The time of the request, if whoever hands it in gives one. No verdict depends on it, and a
    /// repeat may have another.
    pub time: Option<Time>,
}
