//! The facts of a history for a request: the few values that decide the verdict on it.

ghost use Rattle.std.specs.Prelude.{◌≡◌, find};
ghost use Rattle.std.specs.Option.{option_copied};
ghost use Rattle.registry_rules.specs.Number.{number_eq};

use crate::{CanonicalForm, Founding, Holding, Org, Petition, ReplyText, Vendors};
use std::marker::Model;
use usbnum_core::{Number, Pid, Spans, Vid};

/// The holdings of those of some numbers that are owned.
#[derive(Debug, Drop)]
pub struct Holdings {
    items: Vec<Holding>,
}

impl Model for Holdings {
    ghost use Rattle.std.specs.Prelude.{List};
    ghost use Rattle.registry_rules.specs.declared.record.Holding.{Holding};

    ghost Value = { List Holding };

    ghost view = { λ a. a.items.items };
}

impl Holdings {
    /// Returns a list of these holdings.
    pub fn new(items: Vec<Holding>) -> Holdings
        ensures { result ≡ items.items }
    {
        Holdings { items }
    }

    /// Returns the holdings.
    pub fn as_slice(&self) -> &[Holding]
        ensures { result.now ≡ self.now }
    {
        &self.items
    }

    /// Returns the holding of the number, or None if the list has none.
    pub fn of(&self, number: Number) -> Option<&Holding>
        ensures { option_copied result ≡ find (λ holding. number_eq number holding.number) self.now }
    {
        self.items.iter().find(|holding| holding.number == number)
    }
}

/// What a registry keeps of an accepted request, by its caller and key, to recognise a repeat.
#[derive(Clone, Debug, Drop)]
pub struct KeptReply {
    /// The canonical form of its order.
    pub order: CanonicalForm,
    /// Its reply.
    pub reply: ReplyText,
}

/// The facts of a history for a request.
#[derive(Debug, Drop)]
pub struct Facts<'a> {
    /// The founding, with the licences that are allowed now.
    pub founding: &'a Founding,
    /// All vendors, the founding one included.
    pub vendors: &'a Vendors,
    /// The vendor concerned: the one that the order means, or its petition's, otherwise the
    /// founding vendor.
    pub vendor: Vid,
    /// What the registry keeps under the request's caller and key.
    pub kept: Option<KeptReply>,
    /// The organisation concerned: the one that the order names, its petition's, or its number's
    /// owner.
    pub org: Option<Org>,
    /// The number of organisations.
    pub orgs: u32,
    /// The number of open petitions of the organisation concerned.
    pub open_count: u32,
    /// The petition that the order names.
    pub petition: Option<Petition>,
    /// The number of petitions.
    pub petitions: u32,
    /// The holdings of the numbers that the order concerns, in any order. What it says of other
    /// numbers does not matter.
    pub holdings: Holdings,
    /// The numbers of the vendor concerned that are owned, and perhaps reserved ones.
    pub taken: &'a Spans,
    /// The reserved numbers of the vendor concerned, including the fixed ones. The other taken
    /// numbers are the owned ones.
    pub reserved: &'a Spans,
    /// The least free product ID of the vendor concerned.
    pub least: Option<Pid>,
}
