//! Refusals: the reasons, their numbers, names and details.

ghost use Rattle.std.specs.Prelude.{◌≡◌, IfOk, Some};
ghost use Rattle.registry_rules.specs.Reply.{refusal_number, refusal_name, refusal_detail, refusal_text};

use crate::{NumberName, ReplyText};
use std::alloc::Global;
use std::error::Error;
use std::fmt;
use usbnum_core::{NoMemory, Slug};

/// The reason why the rules refuse a request. A refused request changes nothing.
#[derive(Clone, Debug, PartialEq, Eq, Drop)]
pub enum Refusal {
    /// The caller had another order accepted under the key.
    KeyReused,
    /// The caller is not a curator.
    NotCurator,
    /// The caller is not the keeper of the organisation concerned, nor a curator who hands it over.
    NotKeeper,
    /// The organisation does not exist.
    NoOrg,
    /// An organisation with the slug exists.
    OrgTaken,
    /// The petition does not exist.
    NoPetition,
    /// The petition is not open.
    PetitionClosed,
    /// The number is reserved.
    NumberReserved,
    /// Another organisation, which the refusal names, owns the number.
    NumberOwned(Slug),
    /// The organisation holds the number already.
    NumberHeld,
    /// The number is not held.
    NumberNotHeld,
    /// No number of the vendor is free.
    NoneFree,
    /// The licence is not allowed.
    LicenceUnknown,
    /// The organisation has `MOST_OPEN` open petitions.
    TooManyOpen,
    /// A number of the span is owned; the refusal names the least one.
    RangeOwned(NumberName),
    /// A number of the span is fixed.
    RangeFixed,
    /// A number of the span is not reserved.
    RangeNotReserved,
    /// The registry has the most organisations, petitions, vendors or licences that it may have.
    Full,
    /// The import has more than `MOST_ITEMS` items.
    ImportTooLong,
    /// The registry has the vendor already.
    VendorTaken,
    /// The registry does not have the vendor.
    NoVendor,
    /// The licence is allowed already.
    LicenceTaken,
}

impl Refusal {
    /// Returns the number of the refusal.
    pub fn number(&self) -> u8
        ensures { result ≡ refusal_number self.now }
    {
        match self {
            Refusal::KeyReused => 1,
            Refusal::NotCurator => 2,
            Refusal::NotKeeper => 3,
            Refusal::NoOrg => 4,
            Refusal::OrgTaken => 5,
            Refusal::NoPetition => 6,
            Refusal::PetitionClosed => 7,
            Refusal::NumberReserved => 8,
            Refusal::NumberOwned(_) => 9,
            Refusal::NumberHeld => 10,
            Refusal::NumberNotHeld => 11,
            Refusal::NoneFree => 12,
            Refusal::LicenceUnknown => 13,
            Refusal::TooManyOpen => 14,
            Refusal::RangeOwned(_) => 15,
            Refusal::RangeFixed => 16,
            Refusal::RangeNotReserved => 17,
            Refusal::Full => 18,
            Refusal::ImportTooLong => 19,
            Refusal::VendorTaken => 33,
            Refusal::NoVendor => 34,
            Refusal::LicenceTaken => 35,
        }
    }

    /// Returns the name of the refusal, for example `NumberOwned`.
    pub fn name(&self) -> &'static str
        ensures { result.now ≡ refusal_name self.now }
    {
        match self {
            Refusal::KeyReused => "KeyReused",
            Refusal::NotCurator => "NotCurator",
            Refusal::NotKeeper => "NotKeeper",
            Refusal::NoOrg => "NoOrg",
            Refusal::OrgTaken => "OrgTaken",
            Refusal::NoPetition => "NoPetition",
            Refusal::PetitionClosed => "PetitionClosed",
            Refusal::NumberReserved => "NumberReserved",
            Refusal::NumberOwned(_) => "NumberOwned",
            Refusal::NumberHeld => "NumberHeld",
            Refusal::NumberNotHeld => "NumberNotHeld",
            Refusal::NoneFree => "NoneFree",
            Refusal::LicenceUnknown => "LicenceUnknown",
            Refusal::TooManyOpen => "TooManyOpen",
            Refusal::RangeOwned(_) => "RangeOwned",
            Refusal::RangeFixed => "RangeFixed",
            Refusal::RangeNotReserved => "RangeNotReserved",
            Refusal::Full => "Full",
            Refusal::ImportTooLong => "ImportTooLong",
            Refusal::VendorTaken => "VendorTaken",
            Refusal::NoVendor => "NoVendor",
            Refusal::LicenceTaken => "LicenceTaken",
        }
    }

    /// Returns the detail: the owner of the number, or the least owned number of the span, or None.
    pub fn detail(&self, alloc: Global) -> Result<Option<ReplyText>, NoMemory>
        ensures { IfOk result (λ detail. detail ≡ refusal_detail self.now) }
    {
        match self {
            Refusal::NumberOwned(owner) => Ok(Some(ReplyText::new(format!(in alloc; "{owner}")?))),
            Refusal::RangeOwned(name) => Ok(Some(ReplyText::new(format!(in alloc; "{name}")?))),
            _ => Ok(None),
        }
    }
}

/// Writes the name, and after a colon the detail, as in `NumberOwned: acme`.
impl fmt::Display for Refusal {
    ghost output = { λ refusal. Some (refusal_text refusal) };

    fn fmt<W: fmt::Write>(&self, f: &mut fmt::Formatter<W>) -> fmt::Result {
        let name = self.name();
        match self {
            Refusal::NumberOwned(owner) => write!(f, "{name}: {owner}"),
            Refusal::RangeOwned(number) => write!(f, "{name}: {number}"),
            _ => f.write_str(name),
        }
    }
}

impl Error for Refusal {}
