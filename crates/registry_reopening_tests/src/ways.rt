//! The ways to close and reopen a registry, and runs that go on through stops.

use registry_reopening::{
    Unopened, abandon, close_and_open, crash_and_open, crash_and_open_store, crash_until_open,
    leave, leave_and_open, open_files, open_on, open_through, run_and_crash, run_and_crash_twice,
    run_in_memory, run_through,
};
use registry_rules::{Founding, Reply, Request};
use registry_store::{Closed, Registry, close_files, leave_store};
use sqlite::{Connection, FileStore, Files};
use sqlite_disk::{Crash, Disk};
use std::alloc::Global;
use std::process::Abort;
use std::test::Fail;
use store_visits::images::{Fate, Image, MANY, PLAIN, Stop, Stops, files_of};
use store_visits::listing::write_listing;
use store_visits::starts::{Plain, Start, image_at, plain_over};
use store_visits::steps::{EACH_KIND, ENROL, TEN};
use store_visits::values::{founding, lines_of, replies_to, requests_of};
use store_visits::visits::{
    Entry, Seen, Visit, act_and_close, act_in, carry_out, show_rows, unseen,
};

/// How a registry is closed and opened again.
#[derive(Clone, Copy, Debug)]
enum Way {
    Close,
    Leave,
    Crash,
    CrashUntilOpen,
    Stop,
    OpenThrough,
    CloseStore,
    CrashStore,
    OpenOn,
    RunAndCrash,
    RunAndCrashTwice,
}

const WAYS: [Way; 11] = [
    Way::Close,
    Way::Leave,
    Way::Crash,
    Way::CrashUntilOpen,
    Way::Stop,
    Way::OpenThrough,
    Way::CloseStore,
    Way::CrashStore,
    Way::OpenOn,
    Way::RunAndCrash,
    Way::RunAndCrashTwice,
];

fn open_again<D: Disk + Drop>(
    alloc: Global,
    files: Files<D>,
) -> Result<Registry<FileStore<D>>, Unopened<D>> {
    if files.may_be_used() {
        open_files(alloc, files, PLAIN)
    } else {
        Err(Unopened::Registry(files))
    }
}

fn close_store_and_open<D: Disk + Drop>(
    alloc: Global,
    conn: Connection<FileStore<D>>,
) -> Result<Registry<FileStore<D>>, Unopened<D>> {
    let Closed { files, error } = close_files(conn);
    match error {
        None => open_again(alloc, files),
        Some(_) => Err(Unopened::Store(files)),
    }
}

fn open_or_leave<D: Disk + Drop>(
    alloc: Global,
    conn: Connection<FileStore<D>>,
) -> Result<Registry<FileStore<D>>, Unopened<D>> {
    match open_on(alloc, conn) {
        Ok(registry) => Ok(registry),
        Err(conn) => Err(Unopened::Registry(leave_store(conn))),
    }
}

fn run_nothing_and_crash<D: Crash + Drop>(
    alloc: Global,
    registry: Registry<FileStore<D>>,
) -> Result<Registry<FileStore<D>>, Unopened<D>> {
    match run_and_crash(alloc, registry, &[], PLAIN) {
        Ok((_run, registry)) => Ok(registry),
        Err(left) => Err(left),
    }
}

fn run_nothing_twice<D: Crash + Drop>(
    alloc: Global,
    registry: Registry<FileStore<D>>,
) -> Result<Registry<FileStore<D>>, Unopened<D>> {
    match run_and_crash_twice(alloc, registry, &[], &[], PLAIN) {
        Ok((_first, _second, registry)) => Ok(registry),
        Err(left) => Err(left),
    }
}

// Ends the registry in this way and opens it again.
fn go_through<D: Crash + Drop>(
    alloc: Global,
    registry: Registry<FileStore<D>>,
    way: Way,
) -> Result<Registry<FileStore<D>>, Unopened<D>> {
    match way {
        Way::Close => close_and_open(alloc, registry, PLAIN),
        Way::Leave => leave_and_open(alloc, registry, PLAIN),
        Way::Crash => crash_and_open(alloc, registry, PLAIN),
        Way::CrashUntilOpen => crash_until_open(alloc, registry, PLAIN, 1),
        Way::Stop => open_again(alloc, abandon(registry).close()),
        Way::OpenThrough => open_through(alloc, leave(registry), PLAIN, 1),
        Way::CloseStore => close_store_and_open(alloc, registry.into_connection()),
        Way::CrashStore => crash_and_open_store(alloc, registry.into_connection(), PLAIN),
        Way::OpenOn => open_or_leave(alloc, registry.into_connection()),
        Way::RunAndCrash => run_nothing_and_crash(alloc, registry),
        Way::RunAndCrashTwice => run_nothing_twice(alloc, registry),
    }
}

fn go_on<D: Disk + Drop>(
    alloc: Global,
    registry: Registry<FileStore<D>>,
    rest: &Visit<'_>,
    seen: &mut Seen,
) {
    let mut conn = act_and_close(alloc, registry, rest, seen);
    show_rows(&mut conn, rest, seen);
    drop(leave_store(conn));
}

// Acts in the registry, closes and opens it in this way, and goes on.
fn act_through<D: Crash + Drop>(
    alloc: Global,
    mut registry: Registry<FileStore<D>>,
    acts: &Visit<'_>,
    way: Way,
    rest: &Visit<'_>,
    seen: &mut Seen,
) {
    act_in(alloc, &mut registry, acts, seen);
    seen.is_open = false;
    if let Ok(registry) = go_through(alloc, registry, way) {
        go_on(alloc, registry, rest, seen);
    }
}

fn act_through_in<D: Crash + Drop>(
    alloc: Global,
    files: Files<D>,
    acts: &Visit<'_>,
    way: Way,
    rest: &Visit<'_>,
    seen: &mut Seen,
) {
    if let Ok(registry) = open_again(alloc, files) {
        act_through(alloc, registry, acts, way, rest, seen);
    }
}

// Acts on the first requests over files with these contents, and on the others after this way.
fn seen_through(
    alloc: Global,
    image: &Image,
    stop: Stop,
    requests: &[Request],
    first: usize,
    way: Way,
) -> Result<Seen, Fail> {
    let (before, _) = requests.split_at(usize::min(first, requests.len()));
    let acts = Visit::of(Entry::Open, before);
    let mut rest = Visit::of(Entry::Open, requests);
    rest.answered = first;
    rest.looks = true;
    let mut seen = unseen(alloc);
    act_through_in(
        alloc,
        files_of(alloc, image, stop)?,
        &acts,
        way,
        &rest,
        &mut seen,
    );
    Ok(seen)
}

#[test]
fn each_way_of_closing_keeps_all(rt: HostRuntime) -> Result<(), Fail> {
    let alloc = rt.alloc();
    let founding = founding(alloc)?;
    let requests = requests_of(alloc, EACH_KIND.get(..8).ok_or("too few")?)?;
    let image = image_at(alloc, Start::Closed, &founding, &[])?;
    let plain = image_at(alloc, Start::Closed, &founding, &[])?;
    let plain = plain_over(alloc, plain, requests.as_slice())?;
    let lists = plain.lists.get(5).ok_or("no lists")?;
    let (all, rows) = (plain.replies.as_str(), plain.rows.as_str());
    let mut wanted = String::new(alloc);
    write!(&mut wanted, "{lists}{all}{rows}")?;
    for way in WAYS {
        let seen = seen_through(alloc, &image, Stop::NEVER, requests.as_slice(), 5, way)?;
        let replies = lines_of(alloc, seen.replies.as_slice())?;
        let mut text = String::new(alloc);
        write!(&mut text, "{}{replies}{}", seen.lists, seen.rows)?;
        assert_eq!(rt; text.as_str(), wanted.as_str(), "{way:?}");
    }
    Ok(())
}

fn log_stops(calls: u64) -> Stop {
    Stop {
        file: Stops::Log,
        fate: Fate::Exit,
        calls,
    }
}

// Returns the number of calls of the log that it takes to open a store.
fn calls_to_open(alloc: Global, image: &Image) -> Result<u64, Fail> {
    for calls in 0..MANY {
        let opens = Visit::of(Entry::Open, &[]);
        if carry_out(alloc, image, log_stops(calls), &opens)?
            .seen
            .is_open
        {
            return Ok(calls);
        }
    }
    Ok(MANY)
}

// The ways of a registry whose log stopped at the first call of a run, and whether it opens then:
// only after a crash, by which the files lose what was not synced and go on.
const AFTER_A_STOP: [(Way, bool); 8] = [
    (Way::Close, false),
    (Way::Leave, false),
    (Way::Stop, false),
    (Way::CloseStore, false),
    (Way::Crash, true),
    (Way::CrashUntilOpen, true),
    (Way::OpenThrough, true),
    (Way::CrashStore, true),
];

#[test]
fn a_file_that_stopped_is_not_opened_without_a_crash(rt: HostRuntime) -> Result<(), Fail> {
    let alloc = rt.alloc();
    let image = image_at(alloc, Start::Closed, &founding(alloc)?, &[])?;
    let requests = requests_of(alloc, &TEN)?;
    let calls = calls_to_open(alloc, &image)?;
    for (way, opens) in AFTER_A_STOP {
        let acts = Visit::of(Entry::Open, requests.as_slice());
        let mut seen = unseen(alloc);
        let files = files_of(alloc, &image, log_stops(calls))?;
        act_through_in(alloc, files, &acts, way, &acts, &mut seen);
        let replies = lines_of(alloc, seen.replies.as_slice())?;
        let wanted = if opens {
            replies_to(alloc, &TEN)?
        } else {
            String::new(alloc)
        };
        assert_eq!(rt; replies.as_str(), wanted.as_str(), "{way:?}");
        assert_eq!(rt; seen.is_open, opens, "{way:?}");
    }
    Ok(())
}

// Notes the replies of a run that came to its end, and the lists then.
fn end_of<D: Disk + Drop>(
    replies: Vec<Reply>,
    mut registry: Registry<FileStore<D>>,
    seen: &mut Seen,
) {
    seen.is_open = write_listing(&mut registry, &mut seen.lists);
    seen.replies = replies;
    drop(leave(registry));
}

fn run_through_in<D: Crash + Drop>(
    alloc: Global,
    registry: Registry<FileStore<D>>,
    requests: &[Request],
    rounds: u64,
    seen: &mut Seen,
) {
    match run_through(alloc, registry, requests, PLAIN, rounds) {
        Ok((replies, registry)) => end_of(replies, registry, seen),
        Err(replies) => seen.replies = replies,
    }
}

fn open_and_run_through<D: Crash + Drop>(
    alloc: Global,
    files: Files<D>,
    requests: &[Request],
    rounds: u64,
    seen: &mut Seen,
) {
    if let Ok(registry) = open_again(alloc, files) {
        run_through_in(alloc, registry, requests, rounds, seen);
    }
}

// Returns the lists at the end of so many rounds, if it was reached, and the replies as lines.
fn through_rounds(
    alloc: Global,
    image: &Image,
    calls: u64,
    requests: &[Request],
    rounds: u64,
) -> Result<(Option<String>, String), Fail> {
    let mut seen = unseen(alloc);
    let files = files_of(alloc, image, log_stops(calls))?;
    open_and_run_through(alloc, files, requests, rounds, &mut seen);
    let replies = lines_of(alloc, seen.replies.as_slice())?;
    let lists = if seen.is_open { Some(seen.lists) } else { None };
    Ok((lists, replies))
}

fn is_whole(plain: &Plain, lists: Option<&str>, replies: &str) -> bool {
    match plain.lists.last() {
        Some(last) => lists == Some(last.as_str()) && replies == plain.replies.as_str(),
        None => false,
    }
}

// Two rounds come through the stop of a file. One comes to its end only without a stop, with a
// prefix of the replies otherwise.
#[test]
fn a_run_goes_through_a_stop_at_each_call(rt: HostRuntime) -> Result<(), Fail> {
    let alloc = rt.alloc();
    let founding = founding(alloc)?;
    let image = image_at(alloc, Start::Closed, &founding, &[])?;
    let plain = image_at(alloc, Start::Closed, &founding, &[])?;
    let requests = requests_of(alloc, &[ENROL])?;
    let plain = plain_over(alloc, plain, requests.as_slice())?;
    let begin = calls_to_open(alloc, &image)?;
    let mut end = begin;
    for calls in begin..MANY {
        let (lists, replies) = through_rounds(alloc, &image, calls, requests.as_slice(), 2)?;
        let two = is_whole(&plain, lists.as_deref(), replies.as_str());
        let (lists, replies) = through_rounds(alloc, &image, calls, requests.as_slice(), 1)?;
        let one = is_whole(&plain, lists.as_deref(), replies.as_str());
        let begins = lists.is_none() && plain.replies.as_str().starts_with(replies.as_str());
        assert!(rt; two && (one || begins), "at {calls}");
        if one {
            end = calls;
            break;
        }
    }
    assert!(rt; begin < end);
    Ok(())
}

#[test]
fn no_round_gives_no_reply(rt: HostRuntime) -> Result<(), Fail> {
    let alloc = rt.alloc();
    let image = image_at(alloc, Start::Closed, &founding(alloc)?, &[])?;
    let requests = requests_of(alloc, &TEN)?;
    let (lists, replies) = through_rounds(alloc, &image, u64::MAX, requests.as_slice(), 0)?;
    assert!(rt; lists.is_none() && replies.is_empty());
    Ok(())
}

fn run_in_new_memory(alloc: Global, founding: &Founding, requests: &[Request], seen: &mut Seen) {
    if let Some((replies, registry)) = run_in_memory(alloc, founding, requests, PLAIN, 1) {
        end_of(replies, registry, seen);
    }
}

#[test]
fn a_run_in_memory_is_the_run_without_stops(rt: HostRuntime) -> Result<(), Fail> {
    let alloc = rt.alloc();
    let founding = founding(alloc)?;
    let requests = requests_of(alloc, &EACH_KIND)?;
    let plain = image_at(alloc, Start::Closed, &founding, &[])?;
    let plain = plain_over(alloc, plain, requests.as_slice())?;
    let mut seen = unseen(alloc);
    run_in_new_memory(alloc, &founding, requests.as_slice(), &mut seen);
    let mut text = lines_of(alloc, seen.replies.as_slice())?;
    text.push_str(seen.lists.as_str())?;
    let mut wanted = replies_to(alloc, &EACH_KIND)?;
    wanted.push_str(plain.lists.last().ok_or("no lists")?.as_str())?;
    assert_eq!(rt; text.as_str(), wanted.as_str());
    Ok(())
}
