//! Makes replies and refusals by the rules.

use registry_rules::{Refusal, Reply, ReplyText};
use row_texts::RowFault;
use std::alloc::Global;

/// Returns the reply that has this text.
pub fn done(alloc: Global, text: &str) -> Result<Reply, RowFault> {
    let text = String::from_str(alloc, text)?;
    Ok(Reply::Done(ReplyText::new(text)))
}

/// Returns the refusal by the rules that has this number and no detail.
pub fn refusal_of(number: u32) -> Result<Refusal, RowFault> {
    Ok(match number {
        1 => Refusal::KeyReused,
        2 => Refusal::NotCurator,
        3 => Refusal::NotKeeper,
        4 => Refusal::NoOrg,
        5 => Refusal::OrgTaken,
        6 => Refusal::NoPetition,
        7 => Refusal::PetitionClosed,
        8 => Refusal::NumberReserved,
        10 => Refusal::NumberHeld,
        11 => Refusal::NumberNotHeld,
        12 => Refusal::NoneFree,
        13 => Refusal::LicenceUnknown,
        14 => Refusal::TooManyOpen,
        16 => Refusal::RangeFixed,
        17 => Refusal::RangeNotReserved,
        18 => Refusal::Full,
        19 => Refusal::ImportTooLong,
        33 => Refusal::VendorTaken,
        34 => Refusal::NoVendor,
        35 => Refusal::LicenceTaken,
        _ => return Err(RowFault::BadRow),
    })
}
