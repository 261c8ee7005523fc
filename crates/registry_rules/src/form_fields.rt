//! Reads the fields of a canonical form. A field may be written otherwise than in the form, for
//! example with digits in upper case: the reader of the whole form writes the order again and
//! refuses a text that differs.

ghost use Rattle.std.specs.Prelude.{◌≡◌, ◌≤◌, ◌<◌, ◌++◌, ◌∷◌, [], List, ℕ, length, map, Option, IfOk};
ghost use Rattle.std.specs.Result.{IsOkAnd};
ghost use Rattle.std.specs.List.{AllByRecursion};
ghost use Rattle.registry_rules.specs.Orders.{after_tabs, vendor_fields, item_field, IsIdIfAny};
ghost use Rattle.registry_rules.specs.Reading.{HasNoTab, Reads, tab_at};
ghost use Rattle.registry_rules.specs.declared.item.Item.{Item as ItemValue};

use crate::{Item, Items};
use std::alloc::{AllocFailed, Global};
use usbnum_core::{Link, NoMemory, Pid, Slug, Title, Vid, parse_code, parse_pid, parse_vid};

/// Why fields are not read.
#[derive(Clone, Copy, Debug, Drop, PartialEq, Eq)]
pub(crate) enum Unread {
    /// They are not fields of an order.
    NoOrder,
    /// Out of memory.
    NoMemory,
}

impl From<NoMemory> for Unread {
    ghost use Rattle.std.specs.Prelude.{◌≡◌};
    ghost use Rattle.registry_rules.specs.declared.form_fields.Unread.TheVariants.{NoMemory as OutOfMemory};

    ghost from_gives = { λ _ unread. unread ≡ OutOfMemory };

    fn from(_error: NoMemory) -> Unread {
        Unread::NoMemory
    }
}

impl<T: Drop> From<AllocFailed<T>> for Unread {
    ghost use Rattle.std.specs.Prelude.{◌≡◌};
    ghost use Rattle.registry_rules.specs.declared.form_fields.Unread.TheVariants.{NoMemory as OutOfMemory};

    ghost from_gives = { λ _ unread. unread ≡ OutOfMemory };

    fn from(_error: AllocFailed<T>) -> Unread {
        Unread::NoMemory
    }
}

/// A value that one field holds.
pub(crate) trait Field: Sized + Drop {
    ghost is_valid: { Self → Type 0 };

    ghost text: { Self → List ℕ };

    fn from_field(alloc: Global, field: &[u8]) -> Result<Self, Unread>
        ensures { (value : Self) → is_valid value → field.now ≡ text value → Reads result value };
}

/// Values that the fields up to the end hold, each after a tab.
pub(crate) trait Fields: Sized + Drop {
    ghost are_valid: { Self → Type 0 };

    ghost fields: { Self → List (List ℕ) };

    fn from_fields(alloc: Global, text: &[u8]) -> Result<Self, Unread>
        ensures { (values : Self) → are_valid values → AllByRecursion HasNoTab (fields values) → text.now ≡ after_tabs (fields values) → Reads result values };
}

/// Returns the length of the text before its first tab, or of all of it.
pub(crate) fn tab_at(text: &[u8]) -> usize
    ensures at { result ≡ tab_at text.now }
    ensures within { result ≤ length text.now }
{
    for (at, byte) in text.iter().enumerate() {
        if *byte == b'\t' {
            return at;
        }
    }
    text.len()
}

// The field after the tab, and the text after that field.
fn first_field(text: &[u8]) -> Result<(&[u8], &[u8]), Unread>
    ensures reads { (field : List ℕ) (fields : List (List ℕ)) → HasNoTab field → text.now ≡ after_tabs (field ∷ fields)
        → IsOkAnd result (λ parts. (parts.0.now ≡ field) × (parts.1.now ≡ after_tabs fields)) }
    ensures shorter { IfOk result (λ parts. length parts.1.now < length text.now) }
{
    let Some((_tab, text)) = text.split_first() else {
        return Err(Unread::NoOrder);
    };
    Ok(text.split_at(tab_at(text)))
}

impl Field for Slug {
    ghost use Rattle.usbnum_core.specs.Text.{IsSlug};

    ghost is_valid = { IsSlug };

    ghost text = { λ slug. slug };

    fn from_field(alloc: Global, field: &[u8]) -> Result<Slug, Unread> {
        Slug::new(alloc, field)?.ok_or(Unread::NoOrder)
    }
}

impl Field for Title {
    ghost use Rattle.usbnum_core.specs.Text.{IsTitle};

    ghost is_valid = { IsTitle };

    ghost text = { λ title. title };

    fn from_field(alloc: Global, field: &[u8]) -> Result<Title, Unread> {
        Title::new(alloc, field)?.ok_or(Unread::NoOrder)
    }
}

impl Field for Link {
    ghost use Rattle.usbnum_core.specs.Text.{IsLink};

    ghost is_valid = { IsLink };

    ghost text = { λ link. link };

    fn from_field(alloc: Global, field: &[u8]) -> Result<Link, Unread> {
        Link::new(alloc, field)?.ok_or(Unread::NoOrder)
    }
}

impl Field for Pid {
    ghost use Rattle.usbnum_core.specs.Number.{IsId, digits_of};

    ghost is_valid = { IsId };

    ghost text = { digits_of };

    fn from_field(_alloc: Global, field: &[u8]) -> Result<Pid, Unread> {
        parse_pid(field).ok_or(Unread::NoOrder)
    }
}

impl Field for Vid {
    ghost use Rattle.usbnum_core.specs.Number.{IsId, digits_of};

    ghost is_valid = { IsId };

    ghost text = { digits_of };

    fn from_field(_alloc: Global, field: &[u8]) -> Result<Vid, Unread> {
        parse_vid(field).ok_or(Unread::NoOrder)
    }
}

/// A product ID that an order may name.
impl Field for Option<Pid> {
    ghost use Rattle.registry_rules.specs.Orders.{IsIdIfAny, number_field};

    ghost is_valid = { IsIdIfAny };

    ghost text = { number_field };

    fn from_field(alloc: Global, field: &[u8]) -> Result<Option<Pid>, Unread> {
        match field {
            b"-" => Ok(None),
            _ => Ok(Some(Pid::from_field(alloc, field)?)),
        }
    }
}

/// A petition.
impl Field for u32 {
    ghost use Rattle.std.specs.Prelude.{◌<◌, ◌^◌};
    ghost use Rattle.std.specs.Fmt.{decimal};

    ghost is_valid = { λ n. n < 2 ^ 32 };

    ghost text = { decimal };

    fn from_field(_alloc: Global, field: &[u8]) -> Result<u32, Unread> {
        let Ok(text) = std::str::from_utf8(field) else {
            return Err(Unread::NoOrder);
        };
        match text.parse::<u32>() {
            Ok(number) => Ok(number),
            Err(_) => Err(Unread::NoOrder),
        }
    }
}

impl Field for Item {
    ghost use Rattle.registry_rules.specs.Orders.{IsItem, item_field};

    ghost is_valid = { IsItem };

    ghost text = { item_field };

    fn from_field(alloc: Global, field: &[u8]) -> Result<Item, Unread> {
        let Some((digits, named)) = field.split_at_checked(4) else {
            return Err(Unread::NoOrder);
        };
        let Some(code) = parse_code(digits) else {
            return Err(Unread::NoOrder);
        };
        let Some((_equals, title)) = named.split_first() else {
            return Err(Unread::NoOrder);
        };
        if title.is_empty() {
            return Ok(Item { code, title: None });
        }
        let title = Title::from_field(alloc, title)?;
        Ok(Item {
            code,
            title: Some(title),
        })
    }
}

/// No further field.
impl Fields for () {
    ghost use Rattle.std.specs.Prelude.{[], ⊤};

    ghost are_valid = { λ _. ⊤ };

    ghost fields = { λ _. [] };

    fn from_fields(_alloc: Global, text: &[u8]) -> Result<(), Unread> {
        if text.is_empty() {
            Ok(())
        } else {
            Err(Unread::NoOrder)
        }
    }
}

/// One field and those after it.
impl<F: Field, R: Fields> Fields for (F, R) {
    ghost use Rattle.std.specs.Prelude.{◌∷◌};

    ghost are_valid = { λ both. F.is_valid both.0 × R.are_valid both.1 };

    ghost fields = { λ both. F.text both.0 ∷ R.fields both.1 };

    fn from_fields(alloc: Global, text: &[u8]) -> Result<(F, R), Unread> {
        let (field, text) = first_field(text)?;
        let first = F::from_field(alloc, field)?;
        let others = R::from_fields(alloc, text)?;
        Ok((first, others))
    }
}

/// A vendor that an order may name, as the last field.
impl Fields for Option<Vid> {
    ghost use Rattle.registry_rules.specs.Orders.{IsIdIfAny, vendor_fields};

    ghost are_valid = { IsIdIfAny };

    ghost fields = { vendor_fields };

    fn from_fields(alloc: Global, text: &[u8]) -> Result<Option<Vid>, Unread> {
        if text.is_empty() {
            return Ok(None);
        }
        let (vendor, ()) = <(Vid, ())>::from_fields(alloc, text)?;
        Ok(Some(vendor))
    }
}

/// The reason of an order, which may be left out, as the last field.
impl Fields for Option<Title> {
    ghost use Rattle.std.specs.Prelude.{IfSome};
    ghost use Rattle.usbnum_core.specs.Text.{IsTitle};
    ghost use Rattle.registry_rules.specs.Orders.{reason_fields};

    ghost are_valid = { λ reason. IfSome reason IsTitle };

    ghost fields = { reason_fields };

    fn from_fields(alloc: Global, text: &[u8]) -> Result<Option<Title>, Unread> {
        if text.is_empty() {
            return Ok(None);
        }
        let (reason, ()) = <(Title, ())>::from_fields(alloc, text)?;
        Ok(Some(reason))
    }
}

/// The items of an import.
impl Fields for Items {
    ghost use Rattle.std.specs.Prelude.{map};
    ghost use Rattle.std.specs.List.{AllByRecursion};
    ghost use Rattle.registry_rules.specs.Orders.{IsItem, item_field};

    ghost are_valid = { AllByRecursion IsItem };

    ghost fields = { map item_field };

    fn from_fields(alloc: Global, text: &[u8]) -> Result<Items, Unread> {
        let mut items = Vec::new(alloc);
        let mut rest = text;
        while !rest.is_empty() {
            let (field, others) = first_field(rest)?;
            items.push(Item::from_field(alloc, field)?)?;
            rest = others;
        }
        Ok(Items::new(items))
    }
}

/// The vendor of an import and its items.
#[derive(Drop)]
pub(crate) struct VendorAndItems {
    pub vendor: Option<Vid>,
    pub items: Items,
}

// The vendor, if the first field is one, and the text after it. A field of an item is longer.
fn vendor_first(text: &[u8]) -> (Option<Vid>, &[u8])
    ensures { (vendor : Option ℕ) (items : List ItemValue) → IsIdIfAny vendor → AllByRecursion HasNoTab (vendor_fields vendor ++ map item_field items)
        → text.now ≡ after_tabs (vendor_fields vendor ++ map item_field items) → (result.0 ≡ vendor) × (result.1.now ≡ after_tabs (map item_field items)) }
{
    let Ok((field, others)) = first_field(text) else {
        return (None, text);
    };
    match parse_vid(field) {
        Some(vendor) => (Some(vendor), others),
        None => (None, text),
    }
}

impl Fields for VendorAndItems {
    ghost use Rattle.std.specs.Prelude.{◌++◌, map};
    ghost use Rattle.std.specs.List.{AllByRecursion};
    ghost use Rattle.registry_rules.specs.Orders.{IsItem, IsIdIfAny, item_field, vendor_fields};

    ghost are_valid = { λ it. IsIdIfAny it.vendor × AllByRecursion IsItem it.items };

    ghost fields = { λ it. vendor_fields it.vendor ++ map item_field it.items };

    fn from_fields(alloc: Global, text: &[u8]) -> Result<VendorAndItems, Unread> {
        let (vendor, text) = vendor_first(text);
        let items = Items::from_fields(alloc, text)?;
        Ok(VendorAndItems { vendor, items })
    }
}
