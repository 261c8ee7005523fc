//! Each kind of change, and the rows and lists after it.

use crate::steps::Step;
use crate::stores::check;
use crate::values::{Put, State};
use std::test::Fail;

// Each kind of change, and records that replace others.
const CHANGES: &[Put<'static>] = &[
    Put::Vendor(0xcafe, "Cafe"),
    Put::Vendor(0xcafe, "Cafe boards"),
    Put::Licence("BSD"),
    Put::Reserve(0x2000, 0x20ff),
    Put::Release(0x2010, 0x201f),
    Put::Org("Acme"),
    Put::Org("Acme Tools"),
    Put::Petition(1, None, State::Open),
    Put::Petition(1, None, State::Granted),
    Put::Petition(2, None, State::Open),
    Put::Petition(2, None, State::Declined),
    Put::Reason(2, "No source yet"),
    Put::Petition(3, None, State::Open),
    Put::Petition(3, None, State::Withdrawn),
    Put::Petition(4, None, State::Open),
    Put::Entry(0x1209, "Probe"),
    Put::Entry(0xcafe, "Lamp"),
    Put::Entry(0xcafe, "Blinker"),
    Put::Returned(0xcafe),
    Put::Card(0x1209, "Tester"),
];

const QUERIES: &[&str] = &[
    "SELECT * FROM meta ORDER BY id",
    "SELECT * FROM curators ORDER BY name",
    "SELECT * FROM licences ORDER BY name",
    "SELECT * FROM fixed ORDER BY lo",
    "SELECT * FROM orgs ORDER BY slug",
    "SELECT * FROM petitions",
    "SELECT * FROM entries",
    "SELECT * FROM reserved",
    "SELECT * FROM kept",
    "SELECT * FROM spans",
    "SELECT * FROM vendors ORDER BY vid",
    "SELECT * FROM spans3 ORDER BY vid, lo",
    "SELECT * FROM entries3 ORDER BY vid, pid",
    "SELECT * FROM petitions3 ORDER BY id",
    "SELECT * FROM digests4",
    "SELECT * FROM reasons4",
    "SELECT * FROM opened5",
    "SELECT * FROM closed5",
];

const STEPS: &[Step<'static>] = &[
    Step::Found,
    Step::Make(CHANGES),
    Step::Ask(QUERIES),
    Step::Orgs,
    Step::Petitions,
    Step::OpenPetitions,
    Step::Reason(2),
    Step::Reason(4),
    Step::Numbers,
    Step::Vendors,
    Step::Totals,
];

// The rows of all tables, then the lists, then the totals.
const ANSWERS: &str = r#"1|5|4617|InterBiometrics|
cora|
BSD|
MIT|
1|16|
acme|Acme Tools|https://acme.example/|ann|
4617|InterBiometrics|
51966|Cafe boards|
4617|8192|8207|
4617|8224|8447|
4617|17|acme|1|Tester|MIT|https://acme.example/|https://acme.example/|
51966|17|acme|0|Blinker|MIT|https://acme.example/|https://acme.example/|
1|4617|acme|NULL|Probe|MIT|https://acme.example/|https://acme.example/|1|17|
2|4617|acme|NULL|Probe|MIT|https://acme.example/|https://acme.example/|2|NULL|
3|4617|acme|NULL|Probe|MIT|https://acme.example/|https://acme.example/|3|NULL|
4|4617|acme|NULL|Probe|MIT|https://acme.example/|https://acme.example/|0|NULL|
0|NULL|9e6832a51938bee00cdead003c584a45e8ebac8cb1c1127cfab0f76fa44d2e34|
2|No source yet|
[Org { slug: "acme", title: "Acme Tools", site: "https://acme.example/", keeper: "ann" }]
[(1, Petition { vid: Vid { number: 4617 }, org: "acme", want: None, title: "Probe", terms: Terms { licence: "MIT", site: "https://acme.example/", source: "https://acme.example/" }, state: Granted(Pid { number: 17 }) }), (2, Petition { vid: Vid { number: 4617 }, org: "acme", want: None, title: "Probe", terms: Terms { licence: "MIT", site: "https://acme.example/", source: "https://acme.example/" }, state: Declined }), (3, Petition { vid: Vid { number: 4617 }, org: "acme", want: None, title: "Probe", terms: Terms { licence: "MIT", site: "https://acme.example/", source: "https://acme.example/" }, state: Withdrawn }), (4, Petition { vid: Vid { number: 4617 }, org: "acme", want: None, title: "Probe", terms: Terms { licence: "MIT", site: "https://acme.example/", source: "https://acme.example/" }, state: Open })]
[(4, Petition { vid: Vid { number: 4617 }, org: "acme", want: None, title: "Probe", terms: Terms { licence: "MIT", site: "https://acme.example/", source: "https://acme.example/" }, state: Open })]
Some("No source yet")
None
[(Number { vid: Vid { number: 4617 }, pid: Pid { number: 17 } }, Entry { org: "acme", held: true, card: Card { title: "Tester", terms: Some(Terms { licence: "MIT", site: "https://acme.example/", source: "https://acme.example/" }) } }), (Number { vid: Vid { number: 51966 }, pid: Pid { number: 17 } }, Entry { org: "acme", held: false, card: Card { title: "Blinker", terms: Some(Terms { licence: "MIT", site: "https://acme.example/", source: "https://acme.example/" }) } })]
[Vendor { vid: Vid { number: 4617 }, name: "InterBiometrics" }, Vendor { vid: Vid { number: 51966 }, name: "Cafe boards" }]
InterBiometrics ["cora"] ["BSD", "MIT"]
[Span { first: Pid { number: 1 }, last: Pid { number: 16 } }, Span { first: Pid { number: 8192 }, last: Pid { number: 8207 } }, Span { first: Pid { number: 8224 }, last: Pid { number: 8447 } }] Some(Pid { number: 18 })
2 1 4
"#;

#[test]
fn a_store_has_what_was_put_in(rt: HostRuntime) -> Result<(), Fail> {
    check(&rt, &[(&[STEPS], &[ANSWERS])])
}
