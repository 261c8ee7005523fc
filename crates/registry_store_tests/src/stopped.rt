//! What is stopped: runs with each kind of order, copies into the main file, foundings, openings and
//! migrations.

use crate::stops::{How, Row, stop_in};
use std::test::Fail;
use store_visits::images::{COPYING, Fate, MANY, PLAIN, Stops};
use store_visits::older::{OF_FIRST, OF_FOURTH, OF_SECOND, OF_THIRD, ONE_VENDOR};
use store_visits::starts::Start;
use store_visits::steps::{EACH_KIND, ENROL, Step, TEN};

// The log stops, and the machine with it.
const LOG: How = How {
    file: Stops::Log,
    fate: Fate::Crash,
    options: PLAIN,
};

// The same, with only the process stopped.
const PROCESS: How = How {
    file: Stops::Log,
    fate: Fate::Exit,
    options: PLAIN,
};

// The main file stops, and the machine with it.
const MAIN_FILE: How = How {
    file: Stops::Db,
    fate: Fate::Crash,
    options: PLAIN,
};

// The same, with only the process stopped.
const MAIN_FILE_OF_PROCESS: How = How {
    file: Stops::Db,
    fate: Fate::Exit,
    options: PLAIN,
};

// The main file stops, with commits copied into it during the run.
const COPIES: How = How {
    file: Stops::Db,
    fate: Fate::Crash,
    options: COPYING,
};

const LOG_OF_COPIES: How = How {
    file: Stops::Log,
    fate: Fate::Exit,
    options: COPYING,
};

// A run of the steps from `first` to `last`, over a registry that acted on those before them and was
// closed.
fn run(steps: &'static [Step], first: usize, last: usize, how: How, least: u64) -> Row {
    Row {
        start: Start::Closed,
        plain: Start::Closed,
        steps,
        first,
        last,
        how,
        calls: (0, MANY),
        schemas: "5|\n",
        least,
    }
}

// A founding, and an enrolment after it.
fn founding(how: How, least: u64) -> Row {
    Row {
        start: Start::Nothing,
        ..run(&[ENROL], 0, 1, how, least)
    }
}

// An opening of files that acted on so many requests.
fn opening(start: Start, acted: usize, how: How, calls: (u64, u64)) -> Row {
    Row {
        start,
        plain: start,
        calls,
        ..run(&EACH_KIND, acted, acted, how, 0)
    }
}

// An opening of a store of an older schema.
fn migration(batches: &'static [&'static str], how: How, schemas: &'static str) -> Row {
    Row {
        start: Start::Older(batches),
        schemas,
        ..run(&ONE_VENDOR, 19, 19, how, 0)
    }
}

// Each call of the log for each kind of order: a few requests at a time. The second to fourth
// petition are left out, because they are written as the first is.

#[test]
fn orders_0_to_4_as_the_log_stops(rt: HostRuntime) -> Result<(), Fail> {
    stop_in(&rt, rt.alloc(), run(&EACH_KIND, 0, 4, LOG, 4))
}

#[test]
fn orders_4_to_7_as_the_log_stops(rt: HostRuntime) -> Result<(), Fail> {
    stop_in(&rt, rt.alloc(), run(&EACH_KIND, 4, 7, LOG, 4))
}

#[test]
fn orders_10_to_12_as_the_log_stops(rt: HostRuntime) -> Result<(), Fail> {
    stop_in(&rt, rt.alloc(), run(&EACH_KIND, 10, 12, LOG, 4))
}

#[test]
fn orders_12_to_15_as_the_log_stops(rt: HostRuntime) -> Result<(), Fail> {
    stop_in(&rt, rt.alloc(), run(&EACH_KIND, 12, 15, LOG, 4))
}

#[test]
fn orders_15_to_18_as_the_log_stops(rt: HostRuntime) -> Result<(), Fail> {
    stop_in(&rt, rt.alloc(), run(&EACH_KIND, 15, 18, LOG, 4))
}

#[test]
fn orders_18_to_20_as_the_log_stops(rt: HostRuntime) -> Result<(), Fail> {
    stop_in(&rt, rt.alloc(), run(&EACH_KIND, 18, 20, LOG, 4))
}

#[test]
fn orders_from_20_as_the_log_stops(rt: HostRuntime) -> Result<(), Fail> {
    stop_in(
        &rt,
        rt.alloc(),
        run(&EACH_KIND, 20, EACH_KIND.len(), LOG, 4),
    )
}

#[test]
fn enrolments_0_to_5_as_the_log_stops(rt: HostRuntime) -> Result<(), Fail> {
    stop_in(&rt, rt.alloc(), run(&TEN, 0, 5, LOG, 4))
}

#[test]
fn enrolments_5_to_10_as_the_log_stops(rt: HostRuntime) -> Result<(), Fail> {
    stop_in(&rt, rt.alloc(), run(&TEN, 5, 10, LOG, 4))
}

// A commit is copied into the main file before the next one is written, with the same calls for
// each page, whatever the request. So only an enrolment and a grant, which changes rows of three
// tables, are tested. The proof covers all.

#[test]
fn enrolments_as_copies_stop(rt: HostRuntime) -> Result<(), Fail> {
    stop_in(&rt, rt.alloc(), run(&TEN, 0, 2, COPIES, 4))
}

#[test]
fn grants_as_copies_stop(rt: HostRuntime) -> Result<(), Fail> {
    stop_in(&rt, rt.alloc(), run(&EACH_KIND, 10, 12, COPIES, 4))
}

// A log partly written by a process differs from one partly left by a crash.

#[test]
fn enrolments_as_the_process_stops(rt: HostRuntime) -> Result<(), Fail> {
    stop_in(&rt, rt.alloc(), run(&TEN, 0, 2, PROCESS, 4))
}

#[test]
fn enrolments_as_the_log_of_copies_stops(rt: HostRuntime) -> Result<(), Fail> {
    stop_in(&rt, rt.alloc(), run(&TEN, 0, 2, LOG_OF_COPIES, 4))
}

// A run reads only the parts of the main file that were not read when the store was opened.

#[test]
fn enrolments_as_the_main_file_stops(rt: HostRuntime) -> Result<(), Fail> {
    stop_in(&rt, rt.alloc(), run(&TEN, 0, 10, MAIN_FILE, 1))
}

#[test]
fn orders_as_the_main_file_stops(rt: HostRuntime) -> Result<(), Fail> {
    stop_in(
        &rt,
        rt.alloc(),
        run(&EACH_KIND, 0, EACH_KIND.len(), MAIN_FILE, 1),
    )
}

#[test]
fn a_founding_as_the_log_stops(rt: HostRuntime) -> Result<(), Fail> {
    stop_in(&rt, rt.alloc(), founding(LOG, 1))
}

#[test]
fn a_founding_as_the_log_of_a_process_stops(rt: HostRuntime) -> Result<(), Fail> {
    stop_in(&rt, rt.alloc(), founding(PROCESS, 1))
}

#[test]
fn a_founding_as_the_main_file_stops(rt: HostRuntime) -> Result<(), Fail> {
    stop_in(&rt, rt.alloc(), founding(MAIN_FILE, 0))
}

// With two requests in the log: a longer log only has more frames of the same form. A crash leaves
// the same, or fewer whole commits.

#[test]
fn an_opening_with_a_log_as_the_log_stops(rt: HostRuntime) -> Result<(), Fail> {
    stop_in(&rt, rt.alloc(), opening(Start::WithLog, 2, LOG, (0, MANY)))
}

#[test]
fn an_opening_with_a_log_as_the_main_file_stops(rt: HostRuntime) -> Result<(), Fail> {
    stop_in(
        &rt,
        rt.alloc(),
        opening(Start::WithLog, 2, MAIN_FILE, (0, MANY)),
    )
}

#[test]
fn an_opening_with_a_part_of_a_commit_as_the_log_stops(rt: HostRuntime) -> Result<(), Fail> {
    stop_in(
        &rt,
        rt.alloc(),
        opening(Start::WithPart, 2, PROCESS, (0, MANY)),
    )
}

#[test]
fn an_opening_as_the_log_stops(rt: HostRuntime) -> Result<(), Fail> {
    stop_in(
        &rt,
        rt.alloc(),
        opening(Start::Closed, EACH_KIND.len(), LOG, (0, MANY)),
    )
}

#[test]
fn an_opening_as_the_main_file_stops(rt: HostRuntime) -> Result<(), Fail> {
    stop_in(
        &rt,
        rt.alloc(),
        opening(
            Start::Closed,
            EACH_KIND.len(),
            MAIN_FILE_OF_PROCESS,
            (0, 41),
        ),
    )
}

#[test]
fn an_opening_as_the_main_file_stops_later(rt: HostRuntime) -> Result<(), Fail> {
    stop_in(
        &rt,
        rt.alloc(),
        opening(
            Start::Closed,
            EACH_KIND.len(),
            MAIN_FILE_OF_PROCESS,
            (40, MANY),
        ),
    )
}

// A migration from the second schema is the second step of one from the first, and those from the third
// and the fourth are steps of their own, so the stops of a process are tested only there.

#[test]
fn schema_1_as_the_main_file_stops(rt: HostRuntime) -> Result<(), Fail> {
    stop_in(&rt, rt.alloc(), migration(&OF_FIRST, MAIN_FILE, "1|\n5|\n"))
}

#[test]
fn schema_1_as_the_log_stops(rt: HostRuntime) -> Result<(), Fail> {
    stop_in(&rt, rt.alloc(), migration(&OF_FIRST, LOG, "1|\n2|\n5|\n"))
}

#[test]
fn schema_2_as_the_process_stops(rt: HostRuntime) -> Result<(), Fail> {
    stop_in(&rt, rt.alloc(), migration(&OF_SECOND, PROCESS, "2|\n5|\n"))
}

#[test]
fn schema_3_as_the_process_stops(rt: HostRuntime) -> Result<(), Fail> {
    stop_in(&rt, rt.alloc(), migration(&OF_THIRD, PROCESS, "3|\n5|\n"))
}

#[test]
fn schema_4_as_the_process_stops(rt: HostRuntime) -> Result<(), Fail> {
    stop_in(&rt, rt.alloc(), migration(&OF_FOURTH, PROCESS, "4|\n5|\n"))
}
