//! The queries of a registry.

use crate::lookups::{Keys, look_up, some_keys};
use registry_rules::{Accepted, Entry, Founding, Petition, PetitionState, Reply, Request};
use registry_store::Registry;
use sqlite::{Alter, Connection};
use std::alloc::Global;
use std::process::Abort;
use std::test::Fail;
use store_visits::steps::{ENROL, Step};
use store_visits::values::{founding, lines_of, replies_to, request, requests_of};
use usbnum_core::{Number, Time, Vid};

// Two organisations, a further vendor, a reserved span; numbers granted, imported and returned; a
// petition declined for a reason; two requests with a time.
const STEPS: &[Step] = &[
    (
        r#"{"caller":"bob","key":"b1","order":"enrol","org":"bolt","title":"Bolt","site":"https://bolt.example/"}"#,
        r#"{"done":"enrolled bolt"}"#,
    ),
    ENROL,
    (
        r#"{"caller":"ann","key":"k2","order":"ask","org":"acme","number":"0011","title":"Blinker","licence":"MIT","site":"https://acme.example/blinker","source":"https://acme.example/src"}"#,
        r#"{"done":"petition 1"}"#,
    ),
    (
        r#"{"caller":"cora","key":"k3","order":"grant","petition":1,"number":"0011"}"#,
        r#"{"done":"granted 0011 to acme by petition 1"}"#,
    ),
    (
        r#"{"caller":"cora","key":"c1","order":"add-vendor","vendor":"1000","name":"Further"}"#,
        r#"{"done":"added vendor 1000"}"#,
    ),
    (
        r#"{"caller":"cora","key":"c2","order":"reserve","first":"2000","last":"20ff"}"#,
        r#"{"done":"reserved 2000-20ff"}"#,
    ),
    (
        r#"{"caller":"ann","key":"a3","order":"ask","org":"acme","title":"Lamp","licence":"MIT","site":"https://a.example","source":"https://a.example","vendor":"1000"}"#,
        r#"{"done":"petition 2"}"#,
    ),
    (
        r#"{"caller":"cora","key":"c4","order":"grant","petition":2}"#,
        r#"{"done":"granted 1000:0001 to acme by petition 2"}"#,
    ),
    (
        "i1 acme\n1209  x\n\t0011  Taken\n\t0012  New board\n\t0012  New board again\n",
        r#"{"done":"imported fresh 1, owned 1, reserved 0, doubled 1, untitled 0, zero 0"}"#,
    ),
    (
        r#"{"caller":"ann","key":"a5","order":"return","number":"0001","vendor":"1000"}"#,
        r#"{"done":"returned 1000:0001"}"#,
    ),
    (
        r#"{"caller":"cora","key":"c6","order":"add-licence","licence":"CERN-OHL-S-2.0"}"#,
        r#"{"done":"added licence CERN-OHL-S-2.0"}"#,
    ),
    (
        r#"{"caller":"ann","key":"a7","order":"ask","org":"acme","title":"Fan","licence":"MIT","site":"https://a.example","source":"https://a.example"}"#,
        r#"{"done":"petition 3"}"#,
    ),
    (
        r#"{"at":"2026-11-28T20:34:13Z","caller":"ann","key":"a8","order":"ask","org":"acme","title":"Pump","licence":"MIT","site":"https://a.example","source":"https://a.example"}"#,
        r#"{"done":"petition 4"}"#,
    ),
    (
        r#"{"at":"2026-11-29T07:00:00Z","caller":"cora","key":"c9","order":"decline","petition":3,"reason":"Not a product"}"#,
        r#"{"done":"declined petition 3"}"#,
    ),
];

const NUMBERS: &str =
    "1000:0001 acme Lamp, terms, returned\n1209:0011 acme Blinker, terms, held\n1209:0012 acme New board, no terms, held\n";

const PETITIONS: &str =
    "1 1209 acme Blinker, granted 17\n2 1000 acme Lamp, granted 1\n3 1209 acme Fan, granted 0\n4 1209 acme Pump, granted 0\n";

const OPEN: &str = "4 1209 acme Pump, granted 0\n";

const ORGS: &str = "acme ann\nbolt bob\n";

const VENDORS: &str = "1000 Further\n1209 Shared products\n";

// The fixed numbers, and the span.
const RESERVED: usize = 16 + 256;

// The head of the record: its digest is that of its lines, as `sha256sum` gives it.
const HEAD: &str =
    "14 a66eceaf0b38fdbd0c2935bf36d59107eb081a45cb4d6378778fd1851debe22b, at 2026-11-29T07:00:00Z\n";

// The digest of the founding's line, and that of a line that is not there.
const DIGESTS: &str =
    "0 b12d2afdbe3ade45513063af7d802715463fce899152192ba61589d4565e5460\n15 none\n";

// The requests after the first eight, two at a time, and the founding with its first licences.
const RECORD: &str = "cora i1: imported fresh 1, owned 1, reserved 0, doubled 1, untitled 0, zero 0
ann a5: returned 1000:0001
cora c6: added licence CERN-OHL-S-2.0
ann a7: petition 3
ann a8: petition 4, at 2026-11-28T20:34:13Z
cora c9: declined petition 3, at 2026-11-29T07:00:00Z
1209 Shared products: GPL-3.0-only MIT
";

const FOUND: &str = "1209:0010 true true
1209:0011 true false acme true Blinker
1209:0012 true false acme true New board
1209:20ff true true
1209:2100 true false
1000:0001 true false acme false Lamp
1000:0002 true false
cafe:0001 false false
1 1209 acme Blinker
2 1000 acme Lamp
3 1209 acme Fan
declined: Not a product
closed: 2026-11-29T07:00:00Z
4294967295
acme Acme Tools, ann
bolt Bolt, bob
clock
";

fn add_numbers(numbers: &[(Number, Entry)], text: &mut String) -> bool {
    numbers.iter().all(|(number, entry)| {
        let (vid, pid, org, title) = (number.vid, number.pid, &entry.org, &entry.card.title);
        let terms = if entry.card.terms.is_some() {
            "terms"
        } else {
            "no terms"
        };
        let held = if entry.held { "held" } else { "returned" };
        writeln!(text, "{vid}:{pid} {org} {title}, {terms}, {held}").is_ok()
    })
}

fn add_petitions(petitions: &[(u32, Petition)], text: &mut String) -> bool {
    petitions.iter().all(|(id, petition)| {
        let (vid, org, title) = (petition.vid, &petition.org, &petition.title);
        let granted = match petition.state {
            PetitionState::Granted(pid) => pid.get(),
            _ => 0,
        };
        writeln!(text, "{id} {vid} {org} {title}, granted {granted}").is_ok()
    })
}

fn list_numbers<S: Alter>(registry: &mut Registry<S>, text: &mut String) -> bool {
    match registry.numbers() {
        Ok(numbers) => add_numbers(numbers.as_slice(), text),
        Err(_) => false,
    }
}

fn list_petitions<S: Alter>(registry: &mut Registry<S>, text: &mut String) -> bool {
    match registry.petitions() {
        Ok(petitions) => add_petitions(petitions.as_slice(), text),
        Err(_) => false,
    }
}

fn list_open<S: Alter>(registry: &mut Registry<S>, text: &mut String) -> bool {
    match registry.open_petitions() {
        Ok(petitions) => add_petitions(petitions.as_slice(), text),
        Err(_) => false,
    }
}

fn list_orgs<S: Alter>(registry: &mut Registry<S>, text: &mut String) -> bool {
    match registry.orgs() {
        Ok(orgs) => orgs.iter().all(|org| {
            let (slug, keeper) = (&org.slug, &org.keeper);
            writeln!(text, "{slug} {keeper}").is_ok()
        }),
        Err(_) => false,
    }
}

fn list_vendors<S: Alter>(registry: &mut Registry<S>, text: &mut String) -> bool {
    match registry.vendors() {
        Ok(vendors) => vendors.iter().all(|vendor| {
            let (vid, name) = (vendor.vid, &vendor.name);
            writeln!(text, "{vid} {name}").is_ok()
        }),
        Err(_) => false,
    }
}

fn count_reserved<S: Alter>(registry: &Registry<S>, vid: Vid, text: &mut String) -> bool {
    match registry.reserved(vid) {
        Ok(reserved) => {
            let count = reserved.count();
            writeln!(text, "{count}").is_ok()
        }
        Err(_) => false,
    }
}

fn add_time(time: Option<&Time>, text: &mut String) -> bool {
    match time {
        Some(time) => write!(text, ", at {time}").is_ok(),
        None => true,
    }
}

fn add_accepted(accepted: &[Accepted], text: &mut String) -> bool {
    accepted.iter().all(|Accepted { request, reply }| {
        let (caller, key, reply) = (&request.caller, &request.key, reply.as_str());
        write!(text, "{caller} {key}: {reply}").is_ok()
            && add_time(request.time.as_ref(), text)
            && text.push('\n').is_ok()
    })
}

// Adds the record after the first eight requests, in pieces of two, to the piece that is empty.
fn list_record<S: Alter>(registry: &mut Registry<S>, text: &mut String) -> bool {
    for after in [8, 10, 12, 14] {
        match registry.accepted_after(after, 2) {
            Ok(accepted) => {
                if !add_accepted(accepted.as_slice(), text) {
                    return false;
                }
            }
            Err(_) => return false,
        }
    }
    true
}

fn add_head<S: Alter>(registry: &Registry<S>, text: &mut String) -> bool {
    match registry.head() {
        Ok(head) => {
            let (count, digest) = (head.count, &head.digest);
            write!(text, "{count} {digest}").is_ok()
                && add_time(head.time.as_ref(), text)
                && text.push('\n').is_ok()
        }
        Err(_) => false,
    }
}

fn add_digest<S: Alter>(registry: &mut Registry<S>, n: u64, text: &mut String) -> bool {
    match registry.digest_after(n) {
        Ok(Some(digest)) => writeln!(text, "{n} {digest}").is_ok(),
        Ok(None) => writeln!(text, "{n} none").is_ok(),
        Err(_) => false,
    }
}

fn add_founding<S: Alter>(registry: &mut Registry<S>, text: &mut String) -> bool {
    match registry.first_founding() {
        Ok(founding) => {
            let (vendor, name) = (founding.vendor, &founding.name);
            write!(text, "{vendor} {name}:").is_ok()
                && founding
                    .licences
                    .as_slice()
                    .iter()
                    .all(|licence| write!(text, " {licence}").is_ok())
                && text.push('\n').is_ok()
        }
        Err(_) => false,
    }
}

// Acts on the requests, lists everything, and looks each key up.
fn ask<S: Alter>(
    alloc: Global,
    registry: &mut Registry<S>,
    requests: &[Request],
    vid: Vid,
    keys: &Keys,
    text: &mut String,
) -> Option<Vec<Reply>> {
    let mut replies: Vec<Reply> = Vec::new(alloc);
    let run = registry.run_to(requests, 0, &mut replies);
    if run.is_ok()
        && list_numbers(registry, text)
        && list_petitions(registry, text)
        && list_open(registry, text)
        && list_orgs(registry, text)
        && list_vendors(registry, text)
        && count_reserved(registry, vid, text)
        && add_head(registry, text)
        && add_digest(registry, 0, text)
        && add_digest(registry, 15, text)
        && list_record(registry, text)
        && add_founding(registry, text)
        && look_up(registry, keys, text)
    {
        Some(replies)
    } else {
        None
    }
}

fn ask_and_close<S: Alter + Drop>(
    alloc: Global,
    mut registry: Registry<S>,
    requests: &[Request],
    vid: Vid,
    keys: &Keys,
    text: &mut String,
) -> Option<Vec<Reply>> {
    let replies = ask(alloc, &mut registry, requests, vid, keys, text);
    let _conn = registry.into_connection();
    replies
}

fn found_and_ask<S: Alter + Drop>(
    alloc: Global,
    conn: Connection<S>,
    founding: &Founding,
    requests: &[Request],
    keys: &Keys,
    text: &mut String,
) -> Option<Vec<Reply>> {
    match Registry::found(alloc, conn, founding) {
        Ok(registry) => ask_and_close(alloc, registry, requests, founding.vendor, keys, text),
        Err((_, _conn)) => None,
    }
}

// The same for a new registry in memory.
fn answers_after(
    alloc: Global,
    founding: &Founding,
    requests: &[Request],
    keys: &Keys,
    text: &mut String,
) -> Option<Vec<Reply>> {
    match Connection::open_in_memory(alloc) {
        Ok(conn) => found_and_ask(alloc, conn, founding, requests, keys, text),
        Err(_) => None,
    }
}

#[test]
fn answers_what_it_was_asked_to_do(rt: HostRuntime) -> Result<(), Fail> {
    let alloc = rt.alloc();
    let founding = founding(alloc)?;
    let requests = requests_of(alloc, STEPS)?;
    let keys = some_keys(alloc)?;
    let mut text = String::new(alloc);
    let replies = answers_after(alloc, &founding, requests.as_slice(), &keys, &mut text).ok_or(
        "no answers",
    )?;
    text.push_str(lines_of(alloc, replies.as_slice())?.as_str())?;
    let replies = replies_to(alloc, STEPS)?;
    let mut wanted = String::new(alloc);
    write!(
        &mut wanted,
        "{NUMBERS}{PETITIONS}{OPEN}{ORGS}{VENDORS}{RESERVED}\n{HEAD}{DIGESTS}{RECORD}{FOUND}{replies}"
    )?;
    assert_eq!(rt; text.as_str(), wanted.as_str());
    Ok(())
}

#[test]
fn acts_on_one_request(rt: HostRuntime) -> Result<(), Fail> {
    let alloc = rt.alloc();
    let founding = founding(alloc)?;
    let (enrol, _) = ENROL;
    let request = request(alloc, enrol)?;
    let conn = Connection::open_in_memory(alloc).expect(&rt, "memory");
    let found = Registry::found(alloc, conn, &founding);
    let mut registry = found.ok().expect(&rt, "a registry");
    let reply = registry.act(&request).expect(&rt, "a reply");
    let orgs = registry.orgs().expect(&rt, "organisations");
    let _conn = registry.into_connection();
    assert!(rt; matches!(&reply, Reply::Done(text) if text.as_str() == "enrolled acme"));
    assert_eq!(rt; orgs.len(), 1);
    Ok(())
}

#[test]
fn tells_what_a_request_would_be_answered(rt: HostRuntime) -> Result<(), Fail> {
    let alloc = rt.alloc();
    let founding = founding(alloc)?;
    let (enrol, _) = ENROL;
    let request = request(alloc, enrol)?;
    let conn = Connection::open_in_memory(alloc).expect(&rt, "memory");
    let found = Registry::found(alloc, conn, &founding);
    let mut registry = found.ok().expect(&rt, "a registry");
    let reply = registry.dry_run(&request).expect(&rt, "a reply");
    let orgs = registry.orgs().expect(&rt, "organisations");
    let _conn = registry.into_connection();
    assert!(rt; matches!(&reply, Reply::Done(text) if text.as_str() == "enrolled acme"));
    assert_eq!(rt; orgs.len(), 0);
    Ok(())
}
