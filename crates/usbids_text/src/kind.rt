//! The kind of a top, and the depth of an entry.

use crate::tag::Tag;

/// The kind of a top: a vendor, or an entry with a tag, for example `C` for a class and `HID` for a
/// descriptor type.
#[derive(Debug, Drop)]
pub enum Kind {
    /// A vendor.
    Vendor,
    /// An entry with a tag.
    Tagged(Tag),
}

/// The depth of an entry: a top of some kind, a mid after one tab, or a leaf after two tabs.
#[derive(Debug, Drop)]
pub enum Depth {
    /// A top of this kind.
    Zero(Kind),
    /// A mid: a device of a vendor, or an entry below a tagged one.
    One,
    /// A leaf: an interface of a device, or an entry below a mid.
    Two,
}
