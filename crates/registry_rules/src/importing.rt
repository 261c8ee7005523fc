//! The checks of an import, the classes of its items, and its act if the checks pass.

ghost use Rattle.std.specs.Prelude.{◌≡◌, ◌≤◌, List, [], ◌∷◌, ◌++◌, IfOk, length};
ghost use Rattle.registry_rules.specs.Gives.{Gives};
ghost use Rattle.registry_rules.specs.Import.{AreSeen, class_of, classes_from, fresh_of, counted, tally_of, IsTallyWithin};
ghost use Rattle.registry_rules.specs.OnFacts.{standing_in_sets, outcome_on};
ghost use Rattle.registry_rules.specs.declared.item.Item.{Item as ItemValue};
ghost use Rattle.registry_rules.specs.declared.order.Order.TheVariants as orders;

use crate::checks::{check_curator, check_vendor};
use crate::limits::MOST_ITEMS;
use crate::{Act, Facts, Import, Item, ItemClass, Items, Refusal, Rejection, Tally};
use std::alloc::{AllocError, Global};
use usbnum_core::{Pid, Slug, Vid};

// A flag for each code.
const CODES: usize = 65536;

// Returns the flags before the first item.
fn none_seen(alloc: Global) -> Result<Vec<bool>, AllocError>
    ensures counted { IfOk result (λ seen. length seen.items ≡ CODES) }
    ensures none { IfOk result (λ seen. AreSeen seen.items []) }
{
    vec![in alloc; false; CODES]
}

// Sets the flag of the item's code, if the item has a title.
fn mark(seen: &mut Vec<bool>, item: &Item)
    requires { length seen.old.items ≡ CODES }
    ensures counted { length seen.new.items ≡ CODES }
    ensures marked { (before : List ItemValue) → AreSeen seen.old.items before → AreSeen seen.new.items (before ++ item.now ∷ []) }
{
    if item.title.is_some() {
        seen[usize::from(item.code)] = true;
    }
}

// The class of the item, by the flags of the items before it.
fn class_by(facts: &Facts<'_>, vid: Vid, seen: &[bool], item: &Item) -> ItemClass
    requires { length seen.now ≡ CODES }
    ensures { (before : List ItemValue) → AreSeen seen.now before
        → result ≡ class_of (standing_in_sets facts.now.taken.now facts.now.reserved.now vid item.now.code) before item.now }
{
    let Some(pid) = Pid::new(item.code) else {
        return ItemClass::Zero;
    };
    if item.title.is_none() {
        return ItemClass::Untitled;
    }
    if seen[usize::from(item.code)] {
        return ItemClass::Doubled;
    }
    if facts.reserved.contains(pid) {
        return ItemClass::Reserved;
    }
    if facts.taken.contains(pid) {
        return ItemClass::Owned;
    }
    ItemClass::Fresh
}

// The class of each item.
fn classes(
    alloc: Global,
    facts: &Facts<'_>,
    vid: Vid,
    items: &[Item],
) -> Result<Vec<ItemClass>, AllocError>
    ensures { IfOk result (λ classes. classes.items ≡ classes_from (standing_in_sets facts.now.taken.now facts.now.reserved.now vid) [] items.now) }
{
    let mut classes = Vec::new(alloc);
    let mut seen = none_seen(alloc)?;
    for item in items {
        classes.push(class_by(facts, vid, &seen, item))?;
        mark(&mut seen, item);
    }
    Ok(classes)
}

// The items whose class is fresh.
fn fresh(alloc: Global, classes: &[ItemClass], items: &[Item]) -> Result<Vec<Item>, AllocError>
    requires { length classes.now ≡ length items.now }
    ensures { IfOk result (λ fresh. fresh.items ≡ fresh_of classes.now items.now) }
{
    let mut fresh = Vec::new(alloc);
    for (i, item) in items.iter().enumerate() {
        if classes[i] == ItemClass::Fresh {
            fresh.push(item.clone()?)?;
        }
    }
    Ok(fresh)
}

// The tally with one more item of the class.
fn count(tally: Tally, class: ItemClass) -> Tally
    requires { IsTallyWithin tally MOST_ITEMS }
    ensures { result ≡ counted class tally }
{
    match class {
        ItemClass::Fresh => Tally {
            fresh: tally.fresh + 1,
            ..tally
        },
        ItemClass::Owned => Tally {
            owned: tally.owned + 1,
            ..tally
        },
        ItemClass::Reserved => Tally {
            reserved: tally.reserved + 1,
            ..tally
        },
        ItemClass::Doubled => Tally {
            doubled: tally.doubled + 1,
            ..tally
        },
        ItemClass::Untitled => Tally {
            untitled: tally.untitled + 1,
            ..tally
        },
        ItemClass::Zero => Tally {
            zero: tally.zero + 1,
            ..tally
        },
    }
}

// The number of items of each class.
fn tally(classes: &[ItemClass]) -> Tally
    requires { length classes.now ≤ MOST_ITEMS }
    ensures { result ≡ tally_of classes.now }
{
    let mut tally = Tally {
        fresh: 0,
        owned: 0,
        reserved: 0,
        doubled: 0,
        untitled: 0,
        zero: 0,
    };
    let mut left = classes.len();
    while left > 0 {
        left -= 1;
        tally = count(tally, classes[left]);
    }
    tally
}

#[tactic(auto, unfolding(crate::specs::OnFacts::outcome_on))]
pub(crate) fn import(
    alloc: Global,
    facts: &Facts<'_>,
    caller: &Slug,
    it: &Import,
) -> Result<Act, Rejection<Refusal>>
    ensures { Gives result (outcome_on facts.now caller.now (orders.Import it.now)) }
{
    let vid = facts.vendor;
    check_curator(facts.founding, caller)?;
    if facts.org.is_none() {
        return Err(Rejection::Refused(Refusal::NoOrg));
    }
    check_vendor(facts, vid)?;
    let items = it.items.as_slice();
    if items.len() > MOST_ITEMS {
        return Err(Rejection::Refused(Refusal::ImportTooLong));
    }
    let classes = classes(alloc, facts, vid, items)?;
    Ok(Act::Imported {
        vid,
        org: it.org.clone()?,
        fresh: Items::new(fresh(alloc, &classes, items)?),
        tally: tally(&classes),
    })
}
