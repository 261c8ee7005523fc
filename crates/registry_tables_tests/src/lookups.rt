//! The facts that are looked up for a request, its kept reply, and its time.

use crate::steps::Step;
use crate::stores::check;
use crate::values::{Asked, Put, State};
use std::test::Fail;

const CHANGES: &[Put<'static>] = &[
    Put::Org("Acme"),
    Put::Petition(1, None, State::Open),
    Put::Petition(1, None, State::Granted),
    Put::Entry(0x1209, "Probe"),
];

// The facts of the request that a reply is kept for, of the same one by another caller, and of one
// about a number. The record has the first with its time, and one without a time.
const STEPS: &[Step<'static>] = &[
    Step::Found,
    Step::Make(CHANGES),
    Step::Head,
    Step::Keep(
        Asked::WithdrawAt("ann", "2026-11-29T12:00:00Z"),
        "withdrawn petition 1",
    ),
    Step::Ask(&["SELECT * FROM kept", "SELECT * FROM digests4"]),
    Step::Times(1),
    Step::Times(2),
    Step::Head,
    Step::Facts(Asked::Withdraw("ann")),
    Step::Facts(Asked::Withdraw("bob")),
    Step::Facts(Asked::Return("bob")),
    Step::Keep(Asked::Return("bob"), "returned 0011"),
    Step::Record,
    Step::Head,
];

const FACTS: &str =
    r#"Head { count: 0, digest: "9e6832a51938bee00cdead003c584a45e8ebac8cb1c1127cfab0f76fa44d2e34", time: None }
ann|k1|"withdraw\t1"|withdrawn petition 1|
0|NULL|9e6832a51938bee00cdead003c584a45e8ebac8cb1c1127cfab0f76fa44d2e34|
1|2026-11-29T12:00:00Z|1c3d47ac1989af998314f42f1e693bc8118697e3ca246a0a1bcd1d6e6ad32e84|
PetitionTimes { opened: None, closed: Some("2026-11-29T12:00:00Z") }
PetitionTimes { opened: None, closed: None }
Head { count: 1, digest: "1c3d47ac1989af998314f42f1e693bc8118697e3ca246a0a1bcd1d6e6ad32e84", time: Some("2026-11-29T12:00:00Z") }
Some("withdrawn petition 1") Some("Acme") Some(Granted(Pid { number: 17 }))
[]
None Some("Acme") Some(Granted(Pid { number: 17 }))
[]
None Some("Acme") None
[Holding { number: Number { vid: Vid { number: 4617 }, pid: Pid { number: 17 } }, org: "acme", held: true }]
Some("2026-11-29T12:00:00Z") withdrawn petition 1
None returned 0011
Head { count: 2, digest: "19e8e461f7663893fdce37ec0f0657f7011714093d4f5b55de16b8ecb4c644da", time: None }
"#;

#[test]
fn a_request_finds_what_it_needs(rt: HostRuntime) -> Result<(), Fail> {
    check(&rt, &[(&[STEPS], &[FACTS])])
}
