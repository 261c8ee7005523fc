//! Visits of files that may stop: one enters the registry in them, acts on requests, and leaves the
//! files. What it sees is plain data.

use crate::images::{Image, PLAIN, Stop, files_of, left_by};
use crate::listing::{add_answer, write_answers, write_listing, write_rows};
use crate::older::make;
use registry_rules::{Founding, Reply, Request};
use registry_store::{Closed, Fault, Registry, Replies, RunStop, close_files, leave_store};
use sqlite::{Alter, Connection, FileStore, Files, Options};
use sqlite_disk::Disk;
use std::alloc::Global;
use std::test::Fail;
use usbnum_core::NoMemory;

/// How a visit enters the registry.
#[derive(Clone, Copy)]
pub enum Entry<'a> {
    /// Opens it.
    Open,
    /// Founds it or, if the files have a registry, opens that.
    Found(&'a Founding),
    /// Makes a store by these statements, and does not enter it.
    Make(&'a [&'a str]),
}

/// What a visit does.
#[derive(Clone, Copy)]
pub struct Visit<'a> {
    pub entry: Entry<'a>,
    pub options: Options,
    pub requests: &'a [Request],
    pub answered: usize,
    /// The number of replies that are taken at first, if not all.
    pub room: Option<usize>,
    /// Whether it shows the answer to the query, the lists and the rows.
    pub looks: bool,
    pub query: &'a str,
    /// Whether it closes the store, so that all of it is in the main file.
    pub closes: bool,
}

impl<'a> Visit<'a> {
    /// Acts on the requests, and shows only the replies.
    pub fn of(entry: Entry<'a>, requests: &'a [Request]) -> Visit<'a> {
        Visit {
            entry,
            options: PLAIN,
            requests,
            answered: 0,
            room: None,
            looks: false,
            query: "SELECT version FROM meta",
            closes: false,
        }
    }
}

/// What a visit saw.
#[derive(Drop)]
pub struct Seen {
    /// The answer to the query, before it entered.
    pub answer: String,
    /// Whether the registry was founded or opened.
    pub is_open: bool,
    /// Whether it was opened.
    pub was_there: bool,
    /// The lists before the first request.
    pub lists: String,
    /// How the run ended for want of room, and the lists then.
    pub cut: String,
    pub replies: Vec<Reply>,
    /// Why it did not enter, or the fault of the run.
    pub fault: Option<Fault>,
    /// What the registry answered after a fault of the run.
    pub after_fault: String,
    /// The number of licences after the run.
    pub licences: usize,
    /// The rows of all tables at the end.
    pub rows: String,
    /// Whether memory sufficed for the texts, and the store was closed if it was to be.
    pub is_told: bool,
}

/// Nothing was seen yet.
pub fn unseen(alloc: Global) -> Seen {
    Seen {
        answer: String::new(alloc),
        is_open: false,
        was_there: false,
        lists: String::new(alloc),
        cut: String::new(alloc),
        replies: Vec::new(alloc),
        fault: None,
        after_fault: String::new(alloc),
        licences: 0,
        rows: String::new(alloc),
        is_told: true,
    }
}

impl Seen {
    fn tell(&mut self, is_told: bool) {
        if !is_told {
            self.is_told = false;
        }
    }
}

// Takes this many replies, and has no memory for the next one.
#[derive(Drop)]
struct Few {
    room: usize,
    taken: Vec<Reply>,
}

impl Replies for Few {
    type Cut = NoMemory;

    ghost takes = { λ _ _ _. Unit {0} };

    ghost cuts = { λ _ _ _ _. Unit {0} };

    fn put(&mut self, reply: Reply) -> Result<(), NoMemory> {
        if self.taken.len() >= self.room {
            return Err(NoMemory);
        }
        Ok(self.taken.push(reply)?)
    }
}

fn run<S: Alter>(
    registry: &mut Registry<S>,
    requests: &[Request],
    answered: usize,
    seen: &mut Seen,
) {
    let answered = usize::min(answered, requests.len());
    match registry.run_to(requests, answered, &mut seen.replies) {
        Ok(()) => {}
        Err(RunStop::Fault(fault)) => seen.fault = Some(fault),
        // There was no room for a reply.
        Err(RunStop::Cut(_)) => seen.tell(false),
    }
}

// Acts on the requests with room for few replies, and then on those without a reply.
fn run_with_room<S: Alter>(
    alloc: Global,
    registry: &mut Registry<S>,
    requests: &[Request],
    room: usize,
    seen: &mut Seen,
) {
    let mut few = Few {
        room,
        taken: Vec::new(alloc),
    };
    let outcome: Result<(), RunStop<NoMemory>> = registry.run_to(requests, 0, &mut few);
    let is_told = writeln!(&mut seen.cut, "{outcome:?}").is_ok()
        && write_listing(registry, &mut seen.cut)
        && seen.replies.append(&mut few.taken).is_ok();
    seen.tell(is_told);
    run(registry, requests, room, seen);
}

/// Acts in the registry.
pub fn act_in<S: Alter>(
    alloc: Global,
    registry: &mut Registry<S>,
    visit: &Visit<'_>,
    seen: &mut Seen,
) {
    seen.is_open = true;
    if visit.looks {
        let is_told = write_listing(registry, &mut seen.lists);
        seen.tell(is_told);
    }
    match visit.room {
        None => run(registry, visit.requests, visit.answered, seen),
        Some(room) => run_with_room(alloc, registry, visit.requests, room, seen),
    }
    seen.licences = registry.founding().licences.len();
    if seen.fault.is_some() {
        let is_told = write_answers(alloc, registry, visit.requests, &mut seen.after_fault);
        seen.tell(is_told);
    }
}

/// Acts in the registry, and returns its connection.
pub fn act_and_close<S: Alter + Drop>(
    alloc: Global,
    mut registry: Registry<S>,
    visit: &Visit<'_>,
    seen: &mut Seen,
) -> Connection<S> {
    act_in(alloc, &mut registry, visit, seen);
    registry.into_connection()
}

fn open<S: Alter + Drop>(
    alloc: Global,
    conn: Connection<S>,
    visit: &Visit<'_>,
    seen: &mut Seen,
) -> Connection<S> {
    match Registry::open(alloc, conn) {
        Ok(registry) => {
            seen.was_there = true;
            act_and_close(alloc, registry, visit, seen)
        }
        Err((fault, conn)) => {
            seen.fault = Some(fault);
            conn
        }
    }
}

fn open_if_taken<S: Alter + Drop>(
    alloc: Global,
    conn: Connection<S>,
    fault: Fault,
    visit: &Visit<'_>,
    seen: &mut Seen,
) -> Connection<S> {
    match fault {
        Fault::Taken => open(alloc, conn, visit, seen),
        _ => {
            seen.fault = Some(fault);
            conn
        }
    }
}

fn found_or_open<S: Alter + Drop>(
    alloc: Global,
    conn: Connection<S>,
    founding: &Founding,
    visit: &Visit<'_>,
    seen: &mut Seen,
) -> Connection<S> {
    match Registry::found(alloc, conn, founding) {
        Ok(registry) => act_and_close(alloc, registry, visit, seen),
        Err((fault, conn)) => open_if_taken(alloc, conn, fault, visit, seen),
    }
}

fn made<S: Alter + Drop>(
    mut conn: Connection<S>,
    batches: &[&str],
    seen: &mut Seen,
) -> Connection<S> {
    let is_told = make(&mut conn, batches);
    seen.tell(is_told);
    conn
}

fn enter<S: Alter + Drop>(
    alloc: Global,
    conn: Connection<S>,
    visit: &Visit<'_>,
    seen: &mut Seen,
) -> Connection<S> {
    match visit.entry {
        Entry::Open => open(alloc, conn, visit, seen),
        Entry::Found(founding) => found_or_open(alloc, conn, founding, visit, seen),
        Entry::Make(batches) => made(conn, batches, seen),
    }
}

// Asks the query. A store without the table has no answer.
fn ask<S: Alter>(conn: &mut Connection<S>, visit: &Visit<'_>, seen: &mut Seen) {
    if visit.looks && !add_answer(conn, visit.query, &mut seen.answer) {
        seen.answer.clear();
    }
}

/// Shows the rows, if the visit looks and the registry was opened.
pub fn show_rows<S: Alter>(conn: &mut Connection<S>, visit: &Visit<'_>, seen: &mut Seen) {
    if visit.looks && seen.is_open {
        let is_told = write_rows(conn, &mut seen.rows);
        seen.tell(is_told);
    }
}

/// Enters the registry of a connection, acts in it, and returns the connection.
pub fn visit_over<S: Alter + Drop>(
    alloc: Global,
    mut conn: Connection<S>,
    visit: &Visit<'_>,
    seen: &mut Seen,
) -> Connection<S> {
    ask(&mut conn, visit, seen);
    let mut conn = enter(alloc, conn, visit, seen);
    show_rows(&mut conn, visit, seen);
    conn
}

fn end<D: Disk + Drop>(conn: Connection<FileStore<D>>, closes: bool, seen: &mut Seen) -> Files<D> {
    if !closes {
        return leave_store(conn);
    }
    let Closed { files, error } = close_files(conn);
    seen.tell(error.is_none());
    files
}

/// Visits the registry in the files, and returns the files.
pub fn visit_in<D: Disk + Drop>(
    alloc: Global,
    files: Files<D>,
    visit: &Visit<'_>,
    seen: &mut Seen,
) -> Files<D> {
    if !files.may_be_used() {
        return files;
    }
    match Connection::open_files(alloc, files, visit.options) {
        Ok(conn) => end(visit_over(alloc, conn, visit, seen), visit.closes, seen),
        Err((_, left)) => left.into_files(),
    }
}

/// What a visit saw, what it left, and whether the file did not stop.
#[derive(Drop)]
pub struct Visited {
    pub seen: Seen,
    pub left: Image,
    pub is_whole: bool,
}

/// Visits files with these contents.
pub fn carry_out(
    alloc: Global,
    image: &Image,
    stop: Stop,
    visit: &Visit<'_>,
) -> Result<Visited, Fail> {
    let mut seen = unseen(alloc);
    let files = visit_in(alloc, files_of(alloc, image, stop)?, visit, &mut seen);
    let (left, is_whole) = left_by(alloc, files, stop)?;
    let told = if seen.is_told { Some(seen) } else { None };
    Ok(Visited {
        seen: told.ok_or("memory")?,
        left,
        is_whole,
    })
}
