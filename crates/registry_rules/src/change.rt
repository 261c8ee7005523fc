//! Changes on the records of a registry.

use crate::{Card, Entry, Org, Petition};
use usbnum_core::{Number, Span, Title, Vid};

/// One step on the records. A record that is put replaces the older one under its key, if there is
/// one.
#[derive(Debug)]
pub enum Change {
    /// Puts an organisation under its slug.
    PutOrg(Org),
    /// Puts a petition under its number, from 1.
    PutPetition { id: u32, petition: Petition },
    /// Puts the data of a number: an owner got it, for the first time or again.
    PutEntry { number: Number, entry: Entry },
    /// Sets whether an owned number is held.
    SetHeld { number: Number, held: bool },
    /// Sets the product of an owned number.
    SetCard { number: Number, card: Card },
    /// Adds the numbers of the span to those that orders reserved.
    ReserveSpan { vid: Vid, span: Span },
    /// Removes the numbers of the span from those that orders reserved.
    ReleaseSpan { vid: Vid, span: Span },
    /// Puts the name of a further vendor.
    PutVendor { vid: Vid, name: Title },
    /// Adds a licence to those that are allowed.
    PutLicence(Title),
    /// Puts the reason for which a petition was declined, under the petition's number.
    PutReason { id: u32, reason: Title },
}

// By hand, so that a drop is one step wherever a change goes out of scope.
impl Drop for Change {
    fn drop(self) {
        match self {
            Change::PutOrg(_) => {}
            Change::PutPetition { id: _, petition: _ } => {}
            Change::PutEntry {
                number: _,
                entry: _,
            } => {}
            Change::SetHeld { number: _, held: _ } => {}
            Change::SetCard { number: _, card: _ } => {}
            Change::ReserveSpan { vid: _, span: _ } => {}
            Change::ReleaseSpan { vid: _, span: _ } => {}
            Change::PutVendor { vid: _, name: _ } => {}
            Change::PutLicence(_) => {}
            Change::PutReason { id: _, reason: _ } => {}
        }
    }
}
