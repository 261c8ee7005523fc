//! The steps of a case: each makes one call on a store, and adds what it returns to a text.

use crate::rows::add_answers;
use crate::values::{Asked, Put, act_of, changes, request_of};
use registry_rules::{Accepted, Act, Change, Facts, Founding, ReplyText, Request, Totals};
use registry_schema::{is_empty, version_of};
use registry_tables::{
    TableFault, accepted_after, create, facts_for, find_petition_times, find_reason, founded_head,
    has_meta, keep_reply, kept_reply, list_numbers, list_open_petitions, list_orgs, list_petitions,
    list_vendors, migrate, read_summary, store,
};
use sqlite::{Alter, Connection, Transaction};
use std::alloc::Global;

/// What each step is given.
#[derive(Clone, Copy)]
pub struct Given<'a> {
    pub alloc: Global,
    pub founding: &'a Founding,
}

/// One call on a store. A case ends at a step that fails.
#[derive(Clone, Copy)]
pub enum Step<'a> {
    /// Founds the registry.
    Found,
    /// Founds the registry, and adds the result.
    TryToFound,
    /// Makes the changes in a transaction of their own.
    Make(&'a [Put<'a>]),
    /// Runs statements.
    Run(&'a str),
    /// Adds the rows that the queries return.
    Ask(&'a [&'a str]),
    /// Adds whether the store is empty, whether it has a registry, and its schema version.
    State,
    /// Adds the schema version.
    Version,
    /// Adds `opened`, or the fault of opening.
    Open,
    /// Migrates the store, and adds the result.
    Migrate,
    Orgs,
    Petitions,
    OpenPetitions,
    Numbers,
    Vendors,
    /// Adds the reason of the petition with this number.
    Reason(u32),
    /// Adds the times of the petition with this number.
    Times(u32),
    /// Adds the totals.
    Totals,
    /// Adds the head.
    Head,
    /// Keeps a reply for a request.
    Keep(Asked<'a>, &'a str),
    /// Adds the time and the reply of each accepted request.
    Record,
    /// Adds the facts that are looked up for a request.
    Facts(Asked<'a>),
}

/// Makes the call and adds what it returns. Returns false if it fails.
pub fn perform<S: Alter>(
    given: Given<'_>,
    conn: &mut Connection<S>,
    step: Step<'_>,
    text: &mut String,
) -> bool {
    let alloc = given.alloc;
    match step {
        Step::Found => create_in(alloc, conn, given.founding).is_ok(),
        Step::TryToFound => add_line(create_in(alloc, conn, given.founding), text),
        Step::Make(puts) => make(alloc, conn, puts),
        Step::Run(statements) => conn.execute_batch(statements).is_ok(),
        Step::Ask(queries) => add_answers(conn, queries, text),
        Step::State => add_state(conn, text),
        Step::Version => writeln!(text, "{:?}", version_of(conn)).is_ok(),
        Step::Open => add_opening(alloc, conn, text),
        Step::Migrate => add_line(migrate_in(alloc, conn), text),
        Step::Orgs => add_orgs(alloc, conn, text),
        Step::Petitions => add_petitions(alloc, conn, text),
        Step::OpenPetitions => add_open_petitions(alloc, conn, text),
        Step::Numbers => add_numbers(alloc, conn, text),
        Step::Vendors => add_vendors(alloc, conn, text),
        Step::Reason(id) => add_reason(alloc, conn, id, text),
        Step::Times(id) => add_times(alloc, conn, id, text),
        Step::Totals => add_totals(alloc, conn, given.founding, text),
        Step::Head => add_head(alloc, conn, text),
        Step::Keep(asked, reply) => keep(alloc, conn, asked, reply),
        Step::Record => add_record(alloc, conn, text),
        Step::Facts(asked) => add_facts(alloc, conn, asked, text),
    }
}

fn add_line(ended: Result<(), TableFault>, text: &mut String) -> bool {
    writeln!(text, "{ended:?}").is_ok()
}

fn create_in<S: Alter>(
    alloc: Global,
    conn: &mut Connection<S>,
    founding: &Founding,
) -> Result<(), TableFault> {
    if conn.is_autocommit() {
        let head = founded_head(alloc, founding)?;
        create(conn, founding, &head.digest)
    } else {
        Err(TableFault::Store)
    }
}

fn migrate_in<S: Alter>(alloc: Global, conn: &mut Connection<S>) -> Result<(), TableFault> {
    if conn.is_autocommit() {
        migrate(alloc, conn)
    } else {
        Err(TableFault::Store)
    }
}

fn store_in<S: Alter>(alloc: Global, conn: &mut Connection<S>, changes: &[Change]) -> bool {
    if !conn.is_autocommit() {
        return false;
    }
    let mut tx = conn.transaction();
    match store(alloc, &mut tx, changes) {
        Ok(()) => tx.commit().is_ok(),
        Err(_) => false,
    }
}

fn make<S: Alter>(alloc: Global, conn: &mut Connection<S>, puts: &[Put<'_>]) -> bool {
    match changes(alloc, puts) {
        Some(changes) => store_in(alloc, conn, &changes),
        None => false,
    }
}

fn add_state<S: Alter>(conn: &Connection<S>, text: &mut String) -> bool {
    writeln!(
        text,
        "{} {} {:?}",
        is_empty(conn),
        has_meta(conn),
        version_of(conn)
    )
    .is_ok()
}

fn add_opening<S: Alter>(alloc: Global, conn: &mut Connection<S>, text: &mut String) -> bool {
    if !conn.is_autocommit() {
        return false;
    }
    match read_summary(alloc, conn) {
        Ok(_) => text.push_str("opened\n").is_ok(),
        Err(fault) => writeln!(text, "{fault:?}").is_ok(),
    }
}

fn add_orgs<S: Alter>(alloc: Global, conn: &mut Connection<S>, text: &mut String) -> bool {
    if !conn.is_autocommit() {
        return false;
    }
    match list_orgs(alloc, conn) {
        Ok(orgs) => writeln!(text, "{orgs:?}").is_ok(),
        Err(_) => false,
    }
}

fn add_petitions<S: Alter>(alloc: Global, conn: &mut Connection<S>, text: &mut String) -> bool {
    if !conn.is_autocommit() {
        return false;
    }
    match list_petitions(alloc, conn) {
        Ok(petitions) => writeln!(text, "{petitions:?}").is_ok(),
        Err(_) => false,
    }
}

fn add_open_petitions<S: Alter>(
    alloc: Global,
    conn: &mut Connection<S>,
    text: &mut String,
) -> bool {
    if !conn.is_autocommit() {
        return false;
    }
    match list_open_petitions(alloc, conn) {
        Ok(petitions) => writeln!(text, "{petitions:?}").is_ok(),
        Err(_) => false,
    }
}

fn add_numbers<S: Alter>(alloc: Global, conn: &mut Connection<S>, text: &mut String) -> bool {
    if !conn.is_autocommit() {
        return false;
    }
    match list_numbers(alloc, conn) {
        Ok(numbers) => writeln!(text, "{numbers:?}").is_ok(),
        Err(_) => false,
    }
}

fn add_vendors<S: Alter>(alloc: Global, conn: &mut Connection<S>, text: &mut String) -> bool {
    if !conn.is_autocommit() {
        return false;
    }
    match list_vendors(alloc, conn) {
        Ok(vendors) => writeln!(text, "{vendors:?}").is_ok(),
        Err(_) => false,
    }
}

// Adds the founding, the numbers of its vendor that are reserved, its least free number, and the
// numbers of vendors, organisations and petitions.
fn describe_totals(totals: &Totals, founding: &Founding, text: &mut String) -> bool {
    let founded = totals.founding();
    let curators = founded.curators.as_slice();
    let licences = founded.licences.as_slice();
    let reserved = totals.reserved(founding.vendor).parts();
    let least = totals.least(founding.vendor);
    let (vendors, orgs, petitions) = (totals.vendors().len(), totals.orgs(), totals.petitions());
    writeln!(
        text,
        "{} {curators:?} {licences:?}\n{reserved:?} {least:?}\n{vendors} {orgs} {petitions}",
        founded.name
    )
    .is_ok()
}

fn add_totals<S: Alter>(
    alloc: Global,
    conn: &mut Connection<S>,
    founding: &Founding,
    text: &mut String,
) -> bool {
    if !conn.is_autocommit() {
        return false;
    }
    match read_summary(alloc, conn) {
        Ok(summary) => describe_totals(&summary.totals, founding, text),
        Err(_) => false,
    }
}

fn add_head<S: Alter>(alloc: Global, conn: &mut Connection<S>, text: &mut String) -> bool {
    if !conn.is_autocommit() {
        return false;
    }
    match read_summary(alloc, conn) {
        Ok(summary) => writeln!(text, "{:?}", summary.head).is_ok(),
        Err(_) => false,
    }
}

fn add_reason<S: Alter>(
    alloc: Global,
    conn: &mut Connection<S>,
    id: u32,
    text: &mut String,
) -> bool {
    if !conn.is_autocommit() {
        return false;
    }
    match find_reason(alloc, conn, id) {
        Ok(reason) => writeln!(text, "{reason:?}").is_ok(),
        Err(_) => false,
    }
}

fn add_times<S: Alter>(
    alloc: Global,
    conn: &mut Connection<S>,
    id: u32,
    text: &mut String,
) -> bool {
    if !conn.is_autocommit() {
        return false;
    }
    match find_petition_times(alloc, conn, id) {
        Ok(times) => writeln!(text, "{times:?}").is_ok(),
        Err(_) => false,
    }
}

fn add_accepted(accepted: &Accepted, text: &mut String) -> bool {
    let (time, reply) = (&accepted.request.time, accepted.reply.as_str());
    writeln!(text, "{time:?} {reply}").is_ok()
}

fn add_record<S: Alter>(alloc: Global, conn: &mut Connection<S>, text: &mut String) -> bool {
    if !conn.is_autocommit() {
        return false;
    }
    match accepted_after(alloc, conn, 0, 10) {
        Ok(all) => all.iter().all(|accepted| add_accepted(accepted, text)),
        Err(_) => false,
    }
}

fn keep_in<S: Alter>(
    alloc: Global,
    conn: &mut Connection<S>,
    request: &Request,
    act: &Act,
    reply: &ReplyText,
) -> bool {
    if !conn.is_autocommit() {
        return false;
    }
    let Ok(summary) = read_summary(alloc, conn) else {
        return false;
    };
    let mut tx = conn.transaction();
    match keep_reply(alloc, &mut tx, &summary.head, request, act, reply) {
        Ok(_) => tx.commit().is_ok(),
        Err(_) => false,
    }
}

fn kept(alloc: Global, asked: Asked<'_>, reply: &str) -> Option<(Request, Act, ReplyText)> {
    let request = request_of(alloc, asked)?;
    let act = act_of(alloc, asked)?;
    let text = String::from_str(alloc, reply).ok()?;
    Some((request, act, ReplyText::new(text)))
}

fn keep<S: Alter>(alloc: Global, conn: &mut Connection<S>, asked: Asked<'_>, reply: &str) -> bool {
    match kept(alloc, asked, reply) {
        Some((request, act, reply)) => keep_in(alloc, conn, &request, &act, &reply),
        None => false,
    }
}

// Adds what was found by keys.
fn describe(facts: &Facts<'_>, text: &mut String) -> bool {
    let kept = facts.kept.as_ref().map(|kept| kept.reply.as_str());
    let org = facts.org.as_ref().map(|org| org.title.as_str());
    let state = facts.petition.as_ref().map(|petition| petition.state);
    let holdings = facts.holdings.as_slice();
    writeln!(text, "{kept:?} {org:?} {state:?}\n{holdings:?}").is_ok()
}

fn facts_of<'a, S: Alter>(
    alloc: Global,
    tx: &mut Transaction<'_, S>,
    totals: &'a Totals,
    request: &Request,
) -> Result<Facts<'a>, TableFault> {
    let kept = kept_reply(alloc, tx, request)?;
    facts_for(alloc, tx, totals, request, kept)
}

fn add_facts_over<S: Alter>(
    alloc: Global,
    conn: &mut Connection<S>,
    totals: &Totals,
    request: &Request,
    text: &mut String,
) -> bool {
    if !conn.is_autocommit() {
        return false;
    }
    let mut tx = conn.transaction();
    match facts_of(alloc, &mut tx, totals, request) {
        Ok(facts) => describe(&facts, text),
        Err(_) => false,
    }
}

fn add_facts_for<S: Alter>(
    alloc: Global,
    conn: &mut Connection<S>,
    request: &Request,
    text: &mut String,
) -> bool {
    if !conn.is_autocommit() {
        return false;
    }
    match read_summary(alloc, conn) {
        Ok(summary) => add_facts_over(alloc, conn, &summary.totals, request, text),
        Err(_) => false,
    }
}

fn add_facts<S: Alter>(
    alloc: Global,
    conn: &mut Connection<S>,
    asked: Asked<'_>,
    text: &mut String,
) -> bool {
    match request_of(alloc, asked) {
        Some(request) => add_facts_for(alloc, conn, &request, text),
        None => false,
    }
}
