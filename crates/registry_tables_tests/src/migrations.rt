//! A store that is lowered to an older schema is migrated back to the rows that it had.

use crate::steps::Step;
use crate::stores::{Case, check};
use crate::values::{Put, State};
use std::test::Fail;

// From the newest schema to the fourth and to the third, from there to the second, and from there to the
// first, where only the numbers 2000 to 20ff are reserved.
const TO_FOURTH: &str = "DROP TABLE closed5; DROP TABLE opened5; UPDATE meta SET version = 4";

const TO_THIRD: &str =
    "DROP TABLE closed5; DROP TABLE opened5; DROP TABLE reasons4; DROP TABLE digests4; UPDATE meta SET version = 3";

const TO_SECOND: &str =
    "INSERT INTO entries SELECT pid, org, held, title, licence, site, source FROM entries3 ORDER BY pid;
INSERT INTO petitions SELECT id, org, want, title, licence, site, source, state, pid FROM petitions3 ORDER BY id;
INSERT INTO spans SELECT lo, hi FROM spans3 ORDER BY lo;
DROP TABLE petitions3; DROP TABLE entries3; DROP TABLE spans3; DROP TABLE vendors;
UPDATE meta SET version = 2";

const TO_FIRST: &str =
    "INSERT INTO reserved WITH RECURSIVE n (i) AS (SELECT 8192 UNION ALL SELECT i + 1 FROM n LIMIT 256) SELECT i FROM n WHERE EXISTS (SELECT 1 FROM spans WHERE i BETWEEN lo AND hi);
DROP TABLE spans;
UPDATE meta SET version = 1";

// A kept reply, and the digest of its line.
const KEPT: &str =
    "INSERT INTO kept VALUES ('ann', 'k1', x'656E726F6C0961636D650941636D650968747470733A2F2F61636D652E6578616D706C652F', 'enrolled acme');
INSERT INTO digests4 VALUES (1, NULL, '7179f30a8db47e0bfe9b8b707f675bc5da8fec47d5dfca9801345b1aa516e2b6')";

// Petition 1 was asked for at a time, and granted at another; petition 2 was asked for at none.
const TIMED: &str =
    "INSERT INTO kept VALUES ('ann', 'k2', x'61736B0961636D65092D0950726F6265094D49540968747470733A2F2F61636D652E6578616D706C652F0968747470733A2F2F61636D652E6578616D706C652F', 'petition 1');
INSERT INTO kept VALUES ('ann', 'k3', x'61736B0961636D6509303031320950726F6265094D49540968747470733A2F2F61636D652E6578616D706C652F0968747470733A2F2F61636D652E6578616D706C652F', 'petition 2');
INSERT INTO kept VALUES ('cora', 'k4', x'6772616E740931092D', 'granted 0011 to acme by petition 1');
INSERT INTO digests4 VALUES (2, '2026-11-29T12:00:00Z', '0000000000000000000000000000000000000000000000000000000000000002');
INSERT INTO digests4 VALUES (3, NULL, '0000000000000000000000000000000000000000000000000000000000000003');
INSERT INTO digests4 VALUES (4, '2026-11-29T13:30:00Z', '0000000000000000000000000000000000000000000000000000000000000004')";

const TIMES: &[&str] = &["SELECT * FROM opened5", "SELECT * FROM closed5"];

const QUERIES: &[&str] = &[
    "SELECT * FROM meta ORDER BY id",
    "SELECT * FROM curators ORDER BY name",
    "SELECT * FROM licences ORDER BY name",
    "SELECT * FROM fixed ORDER BY lo",
    "SELECT * FROM orgs ORDER BY slug",
    "SELECT * FROM kept ORDER BY caller, request_key",
    "SELECT * FROM vendors ORDER BY vid",
    "SELECT * FROM spans3 ORDER BY vid, lo",
    "SELECT * FROM entries3 ORDER BY vid, pid",
    "SELECT * FROM petitions3 ORDER BY id",
    "SELECT * FROM digests4 ORDER BY id",
    "SELECT * FROM reasons4",
    "SELECT * FROM opened5",
    "SELECT * FROM closed5",
    "SELECT * FROM petitions",
    "SELECT * FROM entries",
    "SELECT * FROM reserved",
    "SELECT * FROM spans",
];

// The rows of all tables; those that the third schema replaces are empty.
const ROWS: &str = "1|5|4617|InterBiometrics|
cora|
MIT|
1|16|
acme|Acme|https://acme.example/|ann|
ann|k1|\"enrol\\tacme\\tAcme\\thttps://acme.example/\"|enrolled acme|
4617|InterBiometrics|
4617|8192|8207|
4617|8224|8447|
4617|17|acme|0|Probe|MIT|https://acme.example/|https://acme.example/|
1|4617|acme|NULL|Probe|MIT|https://acme.example/|https://acme.example/|1|17|
2|4617|acme|18|Probe|MIT|https://acme.example/|https://acme.example/|0|NULL|
0|NULL|9e6832a51938bee00cdead003c584a45e8ebac8cb1c1127cfab0f76fa44d2e34|
1|NULL|7179f30a8db47e0bfe9b8b707f675bc5da8fec47d5dfca9801345b1aa516e2b6|
";

// Acme asks for two numbers; the first is granted and returned. 240 numbers are reserved.
const CHANGES: &[Put<'static>] = &[
    Put::Org("Acme"),
    Put::Petition(1, None, State::Open),
    Put::Petition(1, None, State::Granted),
    Put::Petition(2, Some(0x12), State::Open),
    Put::Entry(0x1209, "Probe"),
    Put::Returned(0x1209),
    Put::Reserve(0x2000, 0x20ff),
    Put::Release(0x2010, 0x201f),
];

const STORE: &[Step<'static>] = &[Step::Found, Step::Make(CHANGES)];

const RAISED: &[Step<'static>] = &[
    Step::Version,
    Step::Migrate,
    Step::Version,
    Step::Ask(QUERIES),
    Step::Open,
];

const TOLD: &str = "Ok(())\nSome(5)\n";

const LOWERED: &[Case<'static>] = &[
    (
        &[STORE, &[Step::Run(KEPT)], RAISED],
        &["Some(5)\n", TOLD, ROWS, "opened\n"],
    ),
    (
        &[STORE, &[Step::Run(KEPT), Step::Run(TO_FOURTH)], RAISED],
        &["Some(4)\n", TOLD, ROWS, "opened\n"],
    ),
    (
        &[STORE, &[Step::Run(KEPT), Step::Run(TO_THIRD)], RAISED],
        &["Some(3)\n", TOLD, ROWS, "opened\n"],
    ),
    (
        &[
            STORE,
            &[Step::Run(KEPT), Step::Run(TO_THIRD), Step::Run(TO_SECOND)],
            RAISED,
        ],
        &["Some(2)\n", TOLD, ROWS, "opened\n"],
    ),
    (
        &[
            STORE,
            &[
                Step::Run(KEPT),
                Step::Run(TO_THIRD),
                Step::Run(TO_SECOND),
                Step::Run(TO_FIRST),
            ],
            RAISED,
        ],
        &["Some(1)\n", TOLD, ROWS, "opened\n"],
    ),
];

#[test]
fn a_lowered_store_comes_up_again(rt: HostRuntime) -> Result<(), Fail> {
    check(&rt, LOWERED)
}

// Only the step from the fourth schema has times to take from the record.
const DATED: &[Case<'static>] = &[(
    &[
        STORE,
        &[
            Step::Run(KEPT),
            Step::Run(TIMED),
            Step::Run(TO_FOURTH),
            Step::Migrate,
            Step::Ask(TIMES),
            Step::Times(1),
            Step::Times(2),
        ],
    ],
    &[
        "Ok(())\n1|2026-11-29T12:00:00Z|\n1|2026-11-29T13:30:00Z|\n",
        "PetitionTimes { opened: Some(\"2026-11-29T12:00:00Z\"), closed: Some(\"2026-11-29T13:30:00Z\") }\n",
        "PetitionTimes { opened: None, closed: None }\n",
    ],
)];

#[test]
fn a_migration_takes_the_times_from_the_record(rt: HostRuntime) -> Result<(), Fail> {
    check(&rt, DATED)
}

const SECOND: &[Step<'static>] = &[Step::Run(TO_THIRD), Step::Run(TO_SECOND)];

const FIRST: &[Step<'static>] = &[
    Step::Run(TO_THIRD),
    Step::Run(TO_SECOND),
    Step::Run(TO_FIRST),
];

const SEEN: &[Step<'static>] = &[
    Step::Version,
    Step::Migrate,
    Step::Version,
    Step::Ask(&[
        "SELECT version FROM meta",
        "SELECT count(*) FROM reserved",
        "SELECT pid, held FROM entries",
    ]),
];

// The last statement makes the store odd.
const ODD: &[Case<'static>] = &[
    (
        &[
            STORE,
            FIRST,
            &[Step::Run("UPDATE meta SET version = 2")],
            SEEN,
        ],
        &["Some(1)\nErr(Foreign)\nSome(1)\n2|\n240|\n17|0|\n"],
    ),
    (
        &[
            STORE,
            FIRST,
            &[Step::Run("UPDATE meta SET version = 7")],
            SEEN,
        ],
        &["Some(1)\nErr(Foreign)\nSome(1)\n7|\n240|\n17|0|\n"],
    ),
    (
        &[STORE, FIRST, &[Step::Run("DELETE FROM meta")], SEEN],
        &["Some(1)\nErr(Foreign)\nSome(1)\n240|\n17|0|\n"],
    ),
    (
        &[
            STORE,
            SECOND,
            &[Step::Run("UPDATE meta SET version = 1")],
            SEEN,
        ],
        &["Some(2)\nErr(Foreign)\nSome(2)\n1|\n0|\n17|0|\n"],
    ),
    (
        &[
            STORE,
            SECOND,
            &[Step::Run("UPDATE meta SET version = 3")],
            SEEN,
        ],
        &["Some(2)\nErr(Foreign)\nSome(2)\n3|\n0|\n17|0|\n"],
    ),
    (
        &[
            STORE,
            SECOND,
            &[Step::Run("CREATE TABLE more (a INTEGER) STRICT")],
            SEEN,
        ],
        &["None\nErr(Foreign)\nNone\n2|\n0|\n17|0|\n"],
    ),
    (
        &[
            STORE,
            SECOND,
            &[Step::Run(
                "DROP TABLE spans; CREATE TABLE other (lo INTEGER PRIMARY KEY, hi INTEGER NOT NULL) STRICT",
            )],
            SEEN,
        ],
        &["None\nErr(Foreign)\nNone\n2|\n0|\n17|0|\n"],
    ),
];

#[test]
fn a_store_of_no_schema_is_left_as_it_is(rt: HostRuntime) -> Result<(), Fail> {
    check(&rt, ODD)
}
