//! A file stops at each call in turn while a registry is founded, opened, migrated or acts on
//! requests: what was replied is kept, at most one more request was acted on, and the rest goes on
//! as without a stop.

use registry_rules::{Founding, Request};
use registry_store::Fault;
use sqlite::Options;
use std::alloc::Global;
use std::process::Abort;
use std::test::Fail;
use store_visits::images::{Fate, Image, MANY, Stop, Stops, are_same};
use store_visits::listing::SPENT;
use store_visits::starts::{Plain, Start, go_on, image_at, plain_over};
use store_visits::steps::Step;
use store_visits::values::{founding, lines_of, replies_to, requests_of};
use store_visits::visits::{Entry, Seen, Visit, Visited, carry_out};

/// Which file stops, what happens to the files, and how they are opened.
#[derive(Clone, Copy)]
pub struct How {
    pub file: Stops,
    pub fate: Fate,
    pub options: Options,
}

/// A run that is stopped, and the one without stops that it is compared with.
#[derive(Clone, Copy)]
pub struct Row {
    /// What the files hold, and what those of the run without stops hold.
    pub start: Start,
    pub plain: Start,
    /// The requests: those before `first` were acted on, and the run goes to `last`.
    pub steps: &'static [Step],
    pub first: usize,
    pub last: usize,
    pub how: How,
    /// The calls after which it stops, from the first to the second, or to the first that is not
    /// reached.
    pub calls: (u64, u64),
    /// The schemas that the stops leave, without repetition.
    pub schemas: &'static str,
    /// The calls of the file in the run, after the opening, are at least so many.
    pub least: u64,
}

// The texts of a row, as values.
#[derive(Drop)]
struct Round {
    founding: Founding,
    image: Image,
    requests: Vec<Request>,
    plain: Plain,
    founds: bool,
}

fn round_of(rt: &impl Abort, alloc: Global, row: &Row) -> Result<Round, Fail> {
    let founding = founding(alloc)?;
    let before = row.steps.get(..row.first).ok_or("too few")?;
    let steps = row.steps.get(row.first..row.last).ok_or("too few")?;
    let before = requests_of(alloc, before)?;
    let requests = requests_of(alloc, steps)?;
    let image = image_at(alloc, row.start, &founding, before.as_slice())?;
    let plain = image_at(alloc, row.plain, &founding, before.as_slice())?;
    let plain = plain_over(alloc, plain, requests.as_slice())?;
    assert_eq!(rt; plain.replies.as_str(), replies_to(alloc, steps)?.as_str());
    Ok(Round {
        founding,
        image,
        requests,
        plain,
        founds: matches!(row.start, Start::Nothing),
    })
}

// What was seen of the files that a stop left, when a run went on in them.
#[derive(Drop)]
struct Left {
    image: Image,
    answered: usize,
    seen: Seen,
}

// Goes on in the files that a stop left. If they hold no registry, it founds one if the run did.
fn seen_in(alloc: Global, round: &Round, image: &Image, answered: usize) -> Result<Seen, Fail> {
    let requests = round.requests.as_slice();
    let seen = go_on(alloc, image, requests, answered)?.seen;
    if !round.founds || seen.fault != Some(Fault::Foreign) {
        return Ok(seen);
    }
    let mut founds = Visit::of(Entry::Found(&round.founding), requests);
    founds.looks = true;
    Ok(carry_out(alloc, image, Stop::NEVER, &founds)?.seen)
}

// The same, or what was seen before in files with the same contents.
fn left_after(
    alloc: Global,
    round: &Round,
    before: Option<Left>,
    image: Image,
    answered: usize,
) -> Result<Left, Fail> {
    if let Some(left) = before {
        if left.answered == answered && are_same(&left.image, &image) {
            return Ok(left);
        }
    }
    let seen = seen_in(alloc, round, &image, answered)?;
    Ok(Left {
        image,
        answered,
        seen,
    })
}

// Returns whether the registry represents the history after as many requests as have replies or,
// if it was open, after one more.
fn lists_as(plain: &Plain, first: &Seen, lists: &str) -> bool {
    let count = first.replies.len();
    let acknowledged = plain.lists.get(count);
    let one_more = plain.lists.get(count.saturating_add(1));
    acknowledged.is_some_and(|text| text.as_str() == lists)
        || first.is_open && one_more.is_some_and(|text| text.as_str() == lists)
}

// Returns what is wrong with a run and with how it went on; nothing if all is right. The fault of
// the run is the store's, and the registry was poisoned after it. A registry that was founded is
// kept. The joined replies and the rows are those of a run without a stop.
fn wrong_in(round: &Round, first: &Seen, second: &Seen, replies: &str) -> &'static str {
    let plain = &round.plain;
    if !matches!(first.fault, None | Some(Fault::Store)) {
        return "another fault";
    }
    if first.is_open && first.fault.is_some() && first.after_fault.as_str() != SPENT {
        return "not poisoned";
    }
    if !(second.was_there || round.founds && second.is_open && !first.is_open) {
        return "no registry";
    }
    if !lists_as(plain, first, second.lists.as_str()) {
        return "other lists";
    }
    if second.fault.is_some() || replies != plain.replies.as_str() {
        return "other replies";
    }
    if second.rows.as_str() != plain.rows.as_str() {
        return "other rows";
    }
    ""
}

// What the stops before left.
#[derive(Drop)]
struct Progress {
    last: Option<Left>,
    schemas: String,
    /// The number of replies, and one more for a registry.
    most: usize,
    /// The number of stops after the opening.
    in_run: u64,
}

fn stop_of(row: &Row, calls: u64) -> Stop {
    Stop {
        file: row.how.file,
        fate: row.how.fate,
        calls,
    }
}

fn first_visit<'a>(row: &Row, round: &'a Round) -> Visit<'a> {
    let entry = if round.founds {
        Entry::Found(&round.founding)
    } else {
        Entry::Open
    };
    let mut acts = Visit::of(entry, round.requests.as_slice());
    acts.options = row.how.options;
    acts
}

// Stops after this many calls. Returns whether there was no stop, and what is wrong. A later stop
// leaves no less.
fn stop_at(
    alloc: Global,
    row: &Row,
    round: &Round,
    progress: &mut Progress,
    calls: u64,
) -> Result<(bool, &'static str), Fail> {
    let acts = first_visit(row, round);
    let Visited {
        seen: first,
        left,
        is_whole,
    } = carry_out(alloc, &round.image, stop_of(row, calls), &acts)?;
    let count = first.replies.len();
    let left = left_after(alloc, round, progress.last.take(), left, count)?;
    let mut replies = lines_of(alloc, first.replies.as_slice())?;
    replies.push_str(lines_of(alloc, left.seen.replies.as_slice())?.as_str())?;
    let wrong = wrong_in(round, &first, &left.seen, replies.as_str());
    let has_most = count.saturating_add(usize::from(left.seen.was_there));
    let is_less = has_most < progress.most;
    progress.most = has_most;
    if first.is_open && !is_whole {
        progress.in_run = progress.in_run.saturating_add(1);
    }
    let schema = left.seen.answer.as_str();
    if !progress.schemas.as_str().ends_with(schema) {
        progress.schemas.push_str(schema)?;
    }
    let is_short = is_whole && (count != round.requests.len() || !first.is_open);
    progress.last = Some(left);
    if is_less || is_short {
        return Ok((is_whole, "less"));
    }
    Ok((is_whole, wrong))
}

/// Stops at each call of a row until a run has no stop, and checks what each stop leaves.
pub fn stop_in(rt: &impl Abort, alloc: Global, row: Row) -> Result<(), Fail> {
    let round = round_of(rt, alloc, &row)?;
    let mut progress = Progress {
        last: None,
        schemas: String::new(alloc),
        most: 0,
        in_run: 0,
    };
    let (from, to) = row.calls;
    let mut end: Option<u64> = None;
    for calls in from..to {
        let (is_whole, wrong) = stop_at(alloc, &row, &round, &mut progress, calls)?;
        assert_eq!(rt; wrong, "", "at {calls}");
        if is_whole {
            end = Some(calls);
            break;
        }
    }
    // Without a stop the run must have stopped before; with a stop at each call another row must go
    // on.
    let goes_on = match end {
        Some(calls) => from < calls,
        None => to < MANY,
    };
    assert!(rt; goes_on, "{end:?}");
    assert!(rt; progress.in_run >= row.least, "{} calls", progress.in_run);
    assert_eq!(rt; progress.schemas.as_str(), row.schemas);
    Ok(())
}
