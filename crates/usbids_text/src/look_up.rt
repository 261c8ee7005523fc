//! Looks up the name of a device.
ghost use Rattle.std.specs.Prelude.{◌≡◌, Option, Some, None, option_copied};
ghost use Rattle.usbids_text.specs.Finding.{find_mid, find_in, vendor_has, first_mid};

use crate::document::{Document, Mid, Top};
use crate::kind::Kind;
use usbnum_core::Vid;

fn mid_name(mids: &[Mid], code: u16) -> Option<&[u8]>
    ensures { option_copied result ≡ first_mid code mids.now }
{
    for mid in mids {
        if mid.code() == code {
            return Some(mid.name());
        }
    }
    None
}

fn is_vendor(top: &Top, vendor: u16) -> bool
    ensures { result ≡ vendor_has vendor top.now }
{
    match top.kind() {
        Kind::Vendor => top.code() == vendor,
        Kind::Tagged(_) => false,
    }
}

fn name_in(top: &Top, vendor: u16, code: u16) -> Option<&[u8]>
    ensures { option_copied result ≡ find_in vendor code top.now }
{
    if is_vendor(top, vendor) {
        mid_name(top.mids(), code)
    } else {
        None
    }
}

fn find_among(tops: &[Top], vendor: u16, code: u16) -> Option<&[u8]>
    ensures { option_copied result ≡ find_mid vendor code tops.now }
{
    for top in tops {
        if let Some(name) = name_in(top, vendor, code) {
            return Some(name);
        }
    }
    None
}

/// Returns the name of the first device with this code under a vendor with this ID, in the order of
/// the list, or None if the list has no such device.
pub fn find(document: &Document, vendor: Vid, code: u16) -> Option<&[u8]>
    ensures { option_copied result ≡ find_mid vendor code document.now }
{
    find_among(document.tops(), vendor.get(), code)
}
