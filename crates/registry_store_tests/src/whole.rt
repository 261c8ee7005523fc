//! Visits without a stop: of stores of older schemas, of files that were closed before, and by runs
//! whose replies are refused.

use std::alloc::Global;
use std::process::Abort;
use std::test::Fail;
use store_visits::images::{COPYING, Stop, are_same, nothing};
use store_visits::older::{OF_FIRST, OF_FOURTH, OF_SECOND, OF_THIRD, ONE_VENDOR, RESERVE};
use store_visits::starts::{Start, go_on, image_at, plain_over};
use store_visits::steps::{EACH_KIND, ENROL, Step};
use store_visits::values::{founding, lines_of, replies_to, requests_of};
use store_visits::visits::{Entry, Visit, carry_out};

fn joined(alloc: Global, parts: [&str; 4]) -> Result<String, Fail> {
    let mut text = String::new(alloc);
    for part in parts {
        text.push_str(part)?;
    }
    Ok(text)
}

const OLDER_STORES: [(&[&str], &str); 4] = [
    (&OF_FIRST, "1|\n"),
    (&OF_SECOND, "2|\n"),
    (&OF_THIRD, "3|\n"),
    (&OF_FOURTH, "4|\n"),
];

fn four<'a>(
    alloc: Global,
    first: &'a str,
    second: &'a str,
    third: &'a str,
    fourth: &'a str,
) -> Result<String, Fail> {
    joined(alloc, [first, second, third, fourth])
}

// It opens as a registry that is founded today and acts on the same requests, and each request has
// its first reply again.
#[test]
fn a_store_of_an_older_schema_opens_as_the_same_history(rt: HostRuntime) -> Result<(), Fail> {
    let alloc = rt.alloc();
    let founding = founding(alloc)?;
    let requests = requests_of(alloc, &ONE_VENDOR)?;
    let image = image_at(alloc, Start::Closed, &founding, requests.as_slice())?;
    let today = go_on(alloc, &image, &[], 0)?.seen;
    let wanted = replies_to(alloc, &ONE_VENDOR)?;
    let (lists, rows) = (today.lists.as_str(), today.rows.as_str());
    for (batches, schema) in OLDER_STORES {
        let image = image_at(alloc, Start::Older(batches), &founding, &[])?;
        let seen = go_on(alloc, &image, requests.as_slice(), 0)?.seen;
        let replies = lines_of(alloc, seen.replies.as_slice())?;
        let text = four(
            alloc,
            seen.answer.as_str(),
            seen.lists.as_str(),
            replies.as_str(),
            seen.rows.as_str(),
        )?;
        let today = four(alloc, schema, lists, wanted.as_str(), rows)?;
        assert_eq!(rt; text.as_str(), today.as_str());
    }
    Ok(())
}

#[test]
fn reserved_rows_open_as_spans(rt: HostRuntime) -> Result<(), Fail> {
    let alloc = rt.alloc();
    let image = image_at(alloc, Start::Older(&OF_FIRST), &founding(alloc)?, &[])?;
    let requests = requests_of(alloc, &[RESERVE])?;
    let mut looks = Visit::of(Entry::Open, requests.as_slice());
    looks.looks = true;
    looks.query = "SELECT count(*) FROM reserved";
    let seen = carry_out(alloc, &image, Stop::NEVER, &looks)?.seen;
    let replies = lines_of(alloc, seen.replies.as_slice())?;
    let rows = seen.rows.as_str();
    let (_, rows) = rows
        .split_once("SELECT * FROM spans3 ORDER BY vid, lo\n")
        .ok_or("no spans")?;
    let (spans, rows) = rows
        .split_once("SELECT * FROM entries3")
        .ok_or("no entries")?;
    let (_, older) = rows
        .split_once("SELECT * FROM reserved\n")
        .ok_or("no table")?;
    let text = joined(
        alloc,
        [seen.answer.as_str(), replies.as_str(), spans, older],
    )?;
    assert_eq!(rt;
        text.as_str(),
        "240|\n{\"done\":\"reserved 2000-20ff\"}\n4617|8192|8207|\n4617|8224|8447|\nSELECT * FROM spans\n"
    );
    Ok(())
}

#[test]
fn files_without_a_registry_are_foreign(rt: HostRuntime) -> Result<(), Fail> {
    let alloc = rt.alloc();
    let seen = go_on(alloc, &nothing(alloc), &[], 0)?.seen;
    let mut text = String::new(alloc);
    write!(&mut text, "{:?} {}", seen.fault, seen.is_open)?;
    assert_eq!(rt; text.as_str(), "Some(Foreign) false");
    Ok(())
}

const ASK: Step = (
    r#"{"caller":"ann","key":"k2","order":"ask","org":"acme","number":"0011","title":"Blinker","licence":"MIT","site":"https://acme.example/blinker","source":"https://acme.example/src"}"#,
    r#"{"done":"petition 1"}"#,
);

const GRANT: Step = (
    r#"{"caller":"cora","key":"k3","order":"grant","petition":1,"number":"0011"}"#,
    r#"{"done":"granted 0011 to acme by petition 1"}"#,
);

const ADD_LICENCE: Step = (
    r#"{"caller":"cora","key":"l1","order":"add-licence","licence":"CERN-OHL-S-2.0"}"#,
    r#"{"done":"added licence CERN-OHL-S-2.0"}"#,
);

// The requests of each visit of the same files, and whether it finds a registry there, whether it
// changes the bytes, and the number of licences after it. Repeats, refusals and openings write
// nothing.
const VISITS: [(&[Step], &str); 4] = [
    (&[ENROL, ASK, GRANT, ADD_LICENCE], "false true 3"),
    (
        &[
            GRANT,
            ADD_LICENCE,
            (
                r#"{"caller":"cora","key":"l2","order":"add-licence","licence":"CERN-OHL-S-2.0"}"#,
                r#"{"name":"LicenceTaken","refused":35}"#,
            ),
        ],
        "true false 3",
    ),
    (
        &[(
            r#"{"caller":"ann","key":"k4","order":"ask","org":"acme","title":"Lamp","licence":"CERN-OHL-S-2.0","site":"https://a.example","source":"https://a.example"}"#,
            r#"{"done":"petition 2"}"#,
        )],
        "true true 3",
    ),
    (&[], "true false 3"),
];

// Before each opening the test tries to found another registry, in vain.
#[test]
fn goes_on_where_it_was_closed(rt: HostRuntime) -> Result<(), Fail> {
    let alloc = rt.alloc();
    let founding = founding(alloc)?;
    let mut image = nothing(alloc);
    for (steps, end) in VISITS {
        let requests = requests_of(alloc, steps)?;
        let acts = Visit::of(Entry::Found(&founding), requests.as_slice());
        let visited = carry_out(alloc, &image, Stop::NEVER, &acts)?;
        let writes = !are_same(&image, &visited.left);
        let (was_there, licences) = (visited.seen.was_there, visited.seen.licences);
        let mut text = lines_of(alloc, visited.seen.replies.as_slice())?;
        write!(&mut text, "{was_there} {writes} {licences}")?;
        let mut wanted = replies_to(alloc, steps)?;
        wanted.push_str(end)?;
        assert_eq!(rt; text.as_str(), wanted.as_str());
        image = visited.left;
    }
    Ok(())
}

// The registry is not poisoned then, and goes on.
#[test]
fn a_reply_that_is_refused_ends_a_run(rt: HostRuntime) -> Result<(), Fail> {
    let alloc = rt.alloc();
    let founding = founding(alloc)?;
    let requests = requests_of(alloc, EACH_KIND.get(..6).ok_or("too few")?)?;
    let image = image_at(alloc, Start::Closed, &founding, &[])?;
    let plain = image_at(alloc, Start::Closed, &founding, &[])?;
    let plain = plain_over(alloc, plain, requests.as_slice())?;
    for room in 0..requests.len() {
        let mut acts = Visit::of(Entry::Open, requests.as_slice());
        acts.options = COPYING;
        acts.looks = true;
        acts.room = Some(room);
        let seen = carry_out(alloc, &image, Stop::NEVER, &acts)?.seen;
        let replies = lines_of(alloc, seen.replies.as_slice())?;
        let text = joined(
            alloc,
            [seen.cut.as_str(), replies.as_str(), seen.rows.as_str(), ""],
        )?;
        let lists = plain.lists.get(room.saturating_add(1)).ok_or("no lists")?;
        let (all, rows) = (plain.replies.as_str(), plain.rows.as_str());
        let wanted = joined(alloc, ["Err(Cut(NoMemory))\n", lists.as_str(), all, rows])?;
        assert_eq!(rt; text.as_str(), wanted.as_str(), "at {room}");
    }
    Ok(())
}
