//! The report on the numbers that are not free, in one pass over each vendor's product IDs and over
//! all numbers with an owner.
ghost use Rattle.std.specs.Prelude.{◌≡◌, ◌+◌, ◌<◌, ◌≤◌, ◌++◌, ◌↔◌, IsTrue, IfOk, OnOk, length, codes, if◌then◌else◌, slice_index_or, option_copied};
ghost use Rattle.std.specs.String.{string_bytes};
ghost use Rattle.usbnum_core.specs.declared.number.Number.{Number};
ghost use Rattle.registry_rules.specs.Number.{number};
ghost use Rattle.registry_rules.specs.declared.record.Entry.{Entry};
ghost use Rattle.registry_reports.specs.Order.{Ascends};
ghost use Rattle.registry_reports.specs.Numbers.{owner_columns, number_line, owned_state, state_line, lines_to, line_at, listed_entry, number_lines, ComesBefore, ArePassed, IsPlace};

use crate::columns::push_left;
use registry_rules::Entry;
use std::alloc::Global;
use usbnum_core::{NoMemory, Number, Pid, Spans, Vid};

/// Appends the columns of the owner, if there is one.
fn push_owner(text: &mut String, entry: Option<&Entry>) -> Result<(), NoMemory>
    ensures { OnOk result (string_bytes text.new ≡ string_bytes text.old ++ owner_columns (option_copied entry.entry)) }
{
    if let Some(entry) = entry {
        text.push_str("  ")?;
        push_left(text, 32, entry.org.as_str())?;
        text.push_str("  ")?;
        text.push_str(entry.card.title.as_str())?;
    }
    Ok(())
}

#[tactic(auto, unfolding(crate::specs::Numbers::number_line))]
fn push_line(
    alloc: Global,
    text: &mut String,
    number: &Number,
    state: &str,
    entry: Option<&Entry>,
) -> Result<(), NoMemory>
    ensures { OnOk result (string_bytes text.new ≡ string_bytes text.old ++ number_line number.now.vid number.now.pid state.now (option_copied entry.entry)) }
{
    let Number { vid, pid } = *number;
    let columns = format!(in alloc; "{vid}  {pid}  ")?;
    text.push_str(columns.as_str())?;
    push_left(text, 8, state)?;
    push_owner(text, entry)?;
    text.push_str("\n")?;
    Ok(())
}

/// Returns the state of an owned number that is not reserved.
fn owned_state(entry: &Entry) -> &'static str
    ensures { result.now ≡ owned_state entry.now }
{
    if entry.held { "held" } else { "returned" }
}

/// Appends the line of a number, unless it is free.
fn push_number(
    alloc: Global,
    text: &mut String,
    number: &Number,
    reserved: bool,
    entry: Option<&Entry>,
) -> Result<(), NoMemory>
    ensures { OnOk result (string_bytes text.new ≡ string_bytes text.old ++ state_line number.now.vid number.now.pid reserved (option_copied entry.entry)) }
{
    if reserved {
        return push_line(alloc, text, number, "reserved", entry);
    }
    match entry {
        Some(owned) => push_line(alloc, text, number, owned_state(owned), entry),
        None => Ok(()),
    }
}

/// Returns whether the list has an entry at the index, and it comes before the number.
fn is_passed(numbers: &[(Number, Entry)], at: usize, number: &Number) -> bool
    ensures { IsTrue result ↔ ((at < length numbers.now) × ((d : Number × Entry) → ComesBefore number.now (slice_index_or numbers.now at d))) }
{
    at < numbers.len() && numbers[at].0.is_before(number)
}

/// Returns the place of the number in the list, where all entries below `at` come before it.
fn place_from(numbers: &[(Number, Entry)], at: usize, number: &Number) -> usize
    ensures { ArePassed numbers.now number.now at → IsPlace numbers.now number.now result }
{
    let mut place = at;
    while is_passed(numbers, place, number) {
        place += 1;
    }
    place
}

/// Returns the number's entry, by its place in the list.
fn entry_at<'a>(numbers: &'a [(Number, Entry)], place: usize, number: &Number) -> Option<&'a Entry>
    ensures { Ascends numbers.now → IsPlace numbers.now number.now place → option_copied result ≡ listed_entry numbers.now number.now }
{
    let pair = numbers.get(place)?;
    if *number == pair.0 {
        Some(&pair.1)
    } else {
        None
    }
}

/// Returns the vendor's number after `count` others.
fn number_after(vid: Vid, count: u16) -> Number
    requires { count < 65535 }
    ensures { result ≡ number vid (count + 1) }
{
    match Pid::new(count + 1) {
        Some(pid) => Number { vid, pid },
        None => unreachable!(),
    }
}

/// Appends the line of a vendor's number, and returns its place in the list.
fn push_next(
    alloc: Global,
    text: &mut String,
    numbers: &[(Number, Entry)],
    pair: &(Vid, Spans),
    at: usize,
    number: &Number,
) -> Result<usize, NoMemory>
    ensures place { IfOk result (λ place. ArePassed numbers.now number.now at → IsPlace numbers.now number.now place) }
    ensures line { OnOk result (Ascends numbers.now → ArePassed numbers.now number.now at → number.now.vid ≡ pair.now.0 → string_bytes text.new ≡ string_bytes text.old ++ line_at numbers.now pair.now number.now.pid) }
{
    let place = place_from(numbers, at, number);
    let reserved = pair.1.contains(number.pid);
    push_number(
        alloc,
        text,
        number,
        reserved,
        entry_at(numbers, place, number),
    )?;
    Ok(place)
}

fn push_vendor(
    alloc: Global,
    text: &mut String,
    numbers: &[(Number, Entry)],
    pair: &(Vid, Spans),
) -> Result<(), NoMemory>
    ensures { OnOk result (Ascends numbers.now → string_bytes text.new ≡ string_bytes text.old ++ lines_to (line_at numbers.now pair.now) 65535) }
{
    let mut place = 0;
    for count in 0..u16::MAX {
        let number = number_after(pair.0, count);
        place = push_next(alloc, text, numbers, pair, place, &number)?;
    }
    Ok(())
}

/// Returns a line for each number that is not free, vendor by vendor and by product ID: the vendor
/// ID, the product ID, its state (reserved, with the fixed ones, else held or returned), and its
/// organisation and title if it has an owner. The lines are right if the numbers ascend, as in the
/// lists of a registry.
pub fn taken_numbers(
    alloc: Global,
    vendors: &[(Vid, Spans)],
    numbers: &[(Number, Entry)],
) -> Result<String, NoMemory>
    ensures { IfOk result (λ text. Ascends numbers.now → string_bytes text ≡ number_lines numbers.now vendors.now) }
{
    let mut text = String::new(alloc);
    for pair in vendors {
        push_vendor(alloc, &mut text, numbers, pair)?;
    }
    Ok(text)
}
