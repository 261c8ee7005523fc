//! Deeds: accepted requests with their effects.

use crate::{Card, Items, NumberName, Order, Org, Petition, SpanName, Tally};
use usbnum_core::{Key, Slug, Time, Title, Vid};

/// The effect of an accepted request. Each name in it has the vendor, also the founding vendor,
/// which replies leave out.
#[derive(Debug)]
pub enum Act {
    /// An organisation was enrolled.
    Enrolled(Org),
    /// An organisation got this title and site.
    OrgAmended(Org),
    /// The petition was opened under this number.
    Asked {
        id: u32,
        petition: Petition,
    },
    /// The petition, as it was while open, was granted the number.
    Granted {
        id: u32,
        petition: Petition,
        name: NumberName,
    },
    /// The petition, as it was while open, was declined, perhaps for a reason.
    Declined {
        id: u32,
        petition: Petition,
        reason: Option<Title>,
    },
    /// The petition, as it was while open, was withdrawn.
    Withdrawn {
        id: u32,
        petition: Petition,
    },
    /// A held number got this card.
    CardAmended {
        name: NumberName,
        card: Card,
    },
    /// A held number was returned.
    Returned {
        name: NumberName,
    },
    /// The numbers of a span were reserved.
    Reserved {
        name: SpanName,
    },
    /// The numbers of a span were released.
    Released {
        name: SpanName,
    },
    /// The fresh items of an import became held numbers of the organisation.
    Imported {
        vid: Vid,
        org: Slug,
        fresh: Items,
        tally: Tally,
    },
    /// A vendor was added.
    VendorAdded {
        vendor: Vid,
        name: Title,
    },
    /// A licence was added.
    LicenceAdded {
        licence: Title,
    },
    /// An organisation got this keeper.
    HandedOver(Org),
    /// An owned number got this card from a curator.
    CardCorrected {
        name: NumberName,
        card: Card,
    },
    /// An organisation got this title and site from a curator.
    OrgCorrected(Org),
    /// A held number was taken back.
    Revoked {
        name: NumberName,
    },
}

/// An accepted request with its effect.
#[derive(Debug, Drop)]
pub struct Deed {
    /// The caller of the request.
    pub caller: Slug,
    /// The key of the request.
    pub key: Key,
    /// The order of the request.
    pub order: Order,
    /// The time of the request, if it had one.
    pub time: Option<Time>,
    /// Its effect.
    pub act: Act,
}

// By hand, so that a drop is one step wherever an act goes out of scope.
impl Drop for Act {
    fn drop(self) {
        match self {
            Act::Enrolled(_) => {}
            Act::OrgAmended(_) => {}
            Act::Asked { id: _, petition: _ } => {}
            Act::Granted {
                id: _,
                petition: _,
                name: _,
            } => {}
            Act::Declined {
                id: _,
                petition: _,
                reason: _,
            } => {}
            Act::Withdrawn { id: _, petition: _ } => {}
            Act::CardAmended { name: _, card: _ } => {}
            Act::Returned { name: _ } => {}
            Act::Reserved { name: _ } => {}
            Act::Released { name: _ } => {}
            Act::Imported {
                vid: _,
                org: _,
                fresh: _,
                tally: _,
            } => {}
            Act::VendorAdded { vendor: _, name: _ } => {}
            Act::LicenceAdded { licence: _ } => {}
            Act::HandedOver(_) => {}
            Act::CardCorrected { name: _, card: _ } => {}
            Act::OrgCorrected(_) => {}
            Act::Revoked { name: _ } => {}
        }
    }
}
