//! Stores of schemas 1 to 4, made by statements, and the requests that led to them: each kind of
//! order that schemas 1 and 2 know.

use crate::steps::Step;
use sqlite::types::ValueRef;
use sqlite::{Alter, Connection};

/// The requests that the stores represent.
pub const ONE_VENDOR: [Step; 19] = [
    (
        r#"{"caller":"ann","key":"a1","order":"enrol","org":"acme","title":"Acme Tools","site":"https://acme.example/"}"#,
        r#"{"done":"enrolled acme"}"#,
    ),
    (
        r#"{"caller":"ann","key":"a2","order":"amend-org","org":"acme","title":"Acmé","site":"http://acme.example/"}"#,
        r#"{"done":"amended organisation acme"}"#,
    ),
    (
        r#"{"caller":"bob","key":"b1","order":"enrol","org":"bolt","title":"Bolt","site":"https://bolt.example/"}"#,
        r#"{"done":"enrolled bolt"}"#,
    ),
    RESERVE,
    (
        r#"{"caller":"cora","key":"c2","order":"release","first":"2010","last":"201f"}"#,
        r#"{"done":"released 2010-201f"}"#,
    ),
    (
        r#"{"caller":"ann","key":"a3","order":"ask","org":"acme","number":"2010","title":"Lamp","licence":"MIT","site":"https://acme.example/lamp","source":"https://acme.example/src"}"#,
        r#"{"done":"petition 1"}"#,
    ),
    (
        r#"{"caller":"ann","key":"a4","order":"ask","org":"acme","title":"Ann's lamp","licence":"MIT","site":"https://acme.example/lamp","source":"https://acme.example/src"}"#,
        r#"{"done":"petition 2"}"#,
    ),
    (
        r#"{"caller":"ann","key":"a5","order":"ask","org":"acme","title":"Lamp","licence":"MIT","site":"https://acme.example/lamp","source":"https://acme.example/src"}"#,
        r#"{"done":"petition 3"}"#,
    ),
    (
        r#"{"caller":"ann","key":"a6","order":"ask","org":"acme","title":"Lamp","licence":"MIT","site":"https://acme.example/lamp","source":"https://acme.example/src"}"#,
        r#"{"done":"petition 4"}"#,
    ),
    (
        r#"{"caller":"cora","key":"c3","order":"grant","petition":1}"#,
        r#"{"done":"granted 2010 to acme by petition 1"}"#,
    ),
    (
        r#"{"caller":"cora","key":"c4","order":"grant","petition":2,"number":null}"#,
        r#"{"done":"granted 0011 to acme by petition 2"}"#,
    ),
    (
        r#"{"caller":"cora","key":"c5","order":"decline","petition":3}"#,
        r#"{"done":"declined petition 3"}"#,
    ),
    (
        r#"{"caller":"ann","key":"a7","order":"withdraw","petition":4}"#,
        r#"{"done":"withdrawn petition 4"}"#,
    ),
    (
        r#"{"caller":"ann","key":"a8","order":"amend","number":"2010","title":"Lamp 2","licence":"GPL-3.0-only","site":"https://acme.example/lamp","source":"https://acme.example/src"}"#,
        r#"{"done":"amended 2010"}"#,
    ),
    (
        r#"{"caller":"ann","key":"a9","order":"return","number":"0011"}"#,
        r#"{"done":"returned 0011"}"#,
    ),
    (
        "c6 bolt\n1209  Shared products\n\t0001  Fixed\n\t0011  Taken\n\t0300  Probe\n\t0301  Probe 2\n\t2000  Reserved\n",
        r#"{"done":"imported fresh 2, owned 1, reserved 2, doubled 0, untitled 0, zero 0"}"#,
    ),
    (
        r#"{"caller":"bob","key":"b2","order":"return","number":"0301"}"#,
        r#"{"done":"returned 0301"}"#,
    ),
    (
        r#"{"caller":"bob","key":"b3","order":"ask","org":"bolt","number":"0400","title":"Drive","licence":"MIT","site":"https://bolt.example/lamp","source":"https://bolt.example/src"}"#,
        r#"{"done":"petition 5"}"#,
    ),
    (
        r#"{"caller":"bob","key":"b4","order":"ask","org":"bolt","title":"Clock","licence":"MIT","site":"https://bolt.example/lamp","source":"https://bolt.example/src"}"#,
        r#"{"done":"petition 6"}"#,
    ),
];

/// The reservation of 256 numbers, of which 16 are released later.
pub const RESERVE: Step = (
    r#"{"caller":"cora","key":"c1","order":"reserve","first":"2000","last":"20ff"}"#,
    r#"{"done":"reserved 2000-20ff"}"#,
);

/// The tables of schema 1.
const TABLES: &str =
    "CREATE TABLE meta (id INTEGER PRIMARY KEY, version INTEGER NOT NULL, vendor INTEGER NOT NULL, name TEXT NOT NULL) STRICT;
CREATE TABLE curators (name TEXT PRIMARY KEY NOT NULL) STRICT;
CREATE TABLE licences (name TEXT PRIMARY KEY NOT NULL) STRICT;
CREATE TABLE fixed (lo INTEGER PRIMARY KEY, hi INTEGER NOT NULL) STRICT;
CREATE TABLE orgs (slug TEXT PRIMARY KEY NOT NULL, title TEXT NOT NULL, site TEXT NOT NULL, keeper TEXT NOT NULL) STRICT;
CREATE TABLE petitions (id INTEGER PRIMARY KEY, org TEXT NOT NULL, want INTEGER, title TEXT NOT NULL, licence TEXT NOT NULL, site TEXT NOT NULL, source TEXT NOT NULL, state INTEGER NOT NULL, pid INTEGER) STRICT;
CREATE TABLE entries (pid INTEGER PRIMARY KEY, org TEXT NOT NULL, held INTEGER NOT NULL, title TEXT NOT NULL, licence TEXT, site TEXT, source TEXT) STRICT;
CREATE TABLE reserved (pid INTEGER PRIMARY KEY) STRICT;
CREATE TABLE kept (caller TEXT NOT NULL, request_key TEXT NOT NULL, request BLOB NOT NULL, reply TEXT NOT NULL, PRIMARY KEY (caller, request_key)) STRICT";

/// The rows that all these schemas share, without the kept replies.
const ROWS: &str = "INSERT INTO curators VALUES ('cora');
INSERT INTO licences VALUES ('GPL-3.0-only'), ('MIT');
INSERT INTO fixed VALUES (1, 16);
INSERT INTO orgs VALUES ('acme', 'Acmé', 'http://acme.example/', 'ann'), ('bolt', 'Bolt', 'https://bolt.example/', 'bob')";

/// The petitions and numbers of schemas 1 and 2.
const NUMBERS: &str =
    "INSERT INTO petitions VALUES (1, 'acme', 8208, 'Lamp', 'MIT', 'https://acme.example/lamp', 'https://acme.example/src', 1, 8208);
INSERT INTO petitions VALUES (2, 'acme', NULL, 'Ann''s lamp', 'MIT', 'https://acme.example/lamp', 'https://acme.example/src', 1, 17);
INSERT INTO petitions VALUES (3, 'acme', NULL, 'Lamp', 'MIT', 'https://acme.example/lamp', 'https://acme.example/src', 2, NULL);
INSERT INTO petitions VALUES (4, 'acme', NULL, 'Lamp', 'MIT', 'https://acme.example/lamp', 'https://acme.example/src', 3, NULL);
INSERT INTO petitions VALUES (5, 'bolt', 1024, 'Drive', 'MIT', 'https://bolt.example/lamp', 'https://bolt.example/src', 0, NULL);
INSERT INTO petitions VALUES (6, 'bolt', NULL, 'Clock', 'MIT', 'https://bolt.example/lamp', 'https://bolt.example/src', 0, NULL);
INSERT INTO entries VALUES (17, 'acme', 0, 'Ann''s lamp', 'MIT', 'https://acme.example/lamp', 'https://acme.example/src');
INSERT INTO entries VALUES (768, 'bolt', 1, 'Probe', NULL, NULL, NULL);
INSERT INTO entries VALUES (769, 'bolt', 0, 'Probe 2', NULL, NULL, NULL);
INSERT INTO entries VALUES (8208, 'acme', 1, 'Lamp 2', 'GPL-3.0-only', 'https://acme.example/lamp', 'https://acme.example/src')";

/// Schema 1: a row for each number of 2000 to 20ff without 2010 to 201f.
const FIRST: &str = "INSERT INTO meta VALUES (1, 1, 4617, 'Shared products');
INSERT INTO reserved WITH RECURSIVE n (i) AS (SELECT 8192 UNION ALL SELECT i + 1 FROM n LIMIT 256) SELECT i FROM n WHERE i < 8208 OR i > 8223";

/// Schema 2: a row for each span.
const SECOND: &str = "CREATE TABLE spans (lo INTEGER PRIMARY KEY, hi INTEGER NOT NULL) STRICT;
INSERT INTO meta VALUES (1, 2, 4617, 'Shared products');
INSERT INTO spans VALUES (8192, 8207), (8224, 8447)";

/// Schema 3: petitions, numbers and spans name their vendor.
const THIRD: &str = "CREATE TABLE spans (lo INTEGER PRIMARY KEY, hi INTEGER NOT NULL) STRICT;
CREATE TABLE vendors (vid INTEGER PRIMARY KEY, name TEXT NOT NULL) STRICT;
CREATE TABLE spans3 (vid INTEGER NOT NULL, lo INTEGER NOT NULL, hi INTEGER NOT NULL, PRIMARY KEY (vid, lo)) STRICT;
CREATE TABLE entries3 (vid INTEGER NOT NULL, pid INTEGER NOT NULL, org TEXT NOT NULL, held INTEGER NOT NULL, title TEXT NOT NULL, licence TEXT, site TEXT, source TEXT, PRIMARY KEY (vid, pid)) STRICT;
CREATE TABLE petitions3 (id INTEGER PRIMARY KEY, vid INTEGER NOT NULL, org TEXT NOT NULL, want INTEGER, title TEXT NOT NULL, licence TEXT NOT NULL, site TEXT NOT NULL, source TEXT NOT NULL, state INTEGER NOT NULL, pid INTEGER) STRICT;
INSERT INTO meta VALUES (1, 3, 4617, 'Shared products');
INSERT INTO vendors VALUES (4617, 'Shared products');
INSERT INTO petitions3 VALUES (1, 4617, 'acme', 8208, 'Lamp', 'MIT', 'https://acme.example/lamp', 'https://acme.example/src', 1, 8208);
INSERT INTO petitions3 VALUES (2, 4617, 'acme', NULL, 'Ann''s lamp', 'MIT', 'https://acme.example/lamp', 'https://acme.example/src', 1, 17);
INSERT INTO petitions3 VALUES (3, 4617, 'acme', NULL, 'Lamp', 'MIT', 'https://acme.example/lamp', 'https://acme.example/src', 2, NULL);
INSERT INTO petitions3 VALUES (4, 4617, 'acme', NULL, 'Lamp', 'MIT', 'https://acme.example/lamp', 'https://acme.example/src', 3, NULL);
INSERT INTO petitions3 VALUES (5, 4617, 'bolt', 1024, 'Drive', 'MIT', 'https://bolt.example/lamp', 'https://bolt.example/src', 0, NULL);
INSERT INTO petitions3 VALUES (6, 4617, 'bolt', NULL, 'Clock', 'MIT', 'https://bolt.example/lamp', 'https://bolt.example/src', 0, NULL);
INSERT INTO entries3 VALUES (4617, 17, 'acme', 0, 'Ann''s lamp', 'MIT', 'https://acme.example/lamp', 'https://acme.example/src');
INSERT INTO entries3 VALUES (4617, 768, 'bolt', 1, 'Probe', NULL, NULL, NULL);
INSERT INTO entries3 VALUES (4617, 769, 'bolt', 0, 'Probe 2', NULL, NULL, NULL);
INSERT INTO entries3 VALUES (4617, 8208, 'acme', 1, 'Lamp 2', 'GPL-3.0-only', 'https://acme.example/lamp', 'https://acme.example/src');
INSERT INTO spans3 VALUES (4617, 8192, 8207), (4617, 8224, 8447)";

/// Schema 4: the digests of the founding and of each request are there. No request has a time.
const FOURTH: &str =
    "CREATE TABLE digests4 (id INTEGER PRIMARY KEY, time TEXT, digest TEXT NOT NULL) STRICT;
CREATE TABLE reasons4 (petition INTEGER PRIMARY KEY, reason TEXT NOT NULL) STRICT;
UPDATE meta SET version = 4;
INSERT INTO digests4 VALUES (0, NULL, 'b12d2afdbe3ade45513063af7d802715463fce899152192ba61589d4565e5460'),
(1, NULL, '4c46e6d620ca84fd373484999cc5c269807692c0c1f1d72b7f3986a514435443'),
(2, NULL, '0d16f3f551bc1f602a5cb2a1ee3c60417e4ad6ee67b8d1a40496e4c9c8551121'),
(3, NULL, '86cfdeda941c2ca180b8632731d50cc445dde857ee00214b7f69b82cd86a0df3'),
(4, NULL, '0226e04002529c7a4ccb021a2e0fc3f09d3d687c59b24a2d12c380bc3beeb0f8'),
(5, NULL, '2f905b3a0d2b6e22d6e1f8d45dd6e345116dd3cffa0e75b065da95f63c8eae6f'),
(6, NULL, '6ab37cd10348217253b7ba0c95707177b6b92145e78cab1febd94fcf4ea8d91c'),
(7, NULL, 'dcf00ed85472498e2a97286125b3b944081f14d3fd7a209208e1f9d51ad868df'),
(8, NULL, '38cf386201ed3f7e5efb8ec8b88e8f26fa12d0a851a120cfa88729f6fefcd099'),
(9, NULL, 'e0a5b289aacf551a508dfbdd13c068a9ac25bf4a5925f255daeb2f8acca997bb'),
(10, NULL, '4d69b1b364f20cbf43b9923fc57afee299fe4dd17fe7699bb9766fd951e8a6c1'),
(11, NULL, 'd23f2c55f5ca15e3357441208a0caaabbfcd37fa712fb9268c37e9100cfe6619'),
(12, NULL, '4cf3a9212c0da2f282c4898ab87601a77a3277fcd9bff4f168d098873fb7e937'),
(13, NULL, '63edf42a94f21e2ae544da0163775fb690161362d7e67b496a0dfa02273207de'),
(14, NULL, 'd870d9990eb52a3988b7d200611bf1e980d9e6acb25850b55857edb58dd4c010'),
(15, NULL, 'a9bc7f60d901526d11becd6772560e87213009d386e671a2db3be68eb107408e'),
(16, NULL, '569bedbfdc7090527f19bc8fc391213f8d6828e82488a4bc84bf0fcab5410228'),
(17, NULL, 'b3109b6473408548f4bb644ff20242e0db8652a1383cd521c0cea96818be643c'),
(18, NULL, '395717cc14c85d32746612029de59fd17dd25d5f5dc61ea914481881347b4ce7'),
(19, NULL, 'bc860e0e189bb0bcc2ef8f243b691eaab6ef368e40dd620c652a66dc02fb5358')";

/// The statements that make a store of schema 1, without the kept replies.
pub const OF_FIRST: [&str; 4] = [TABLES, ROWS, NUMBERS, FIRST];

/// The same for schema 2.
pub const OF_SECOND: [&str; 4] = [TABLES, ROWS, NUMBERS, SECOND];

/// The same for schema 3.
pub const OF_THIRD: [&str; 3] = [TABLES, ROWS, THIRD];

/// The same for schema 4.
pub const OF_FOURTH: [&str; 4] = [TABLES, ROWS, THIRD, FOURTH];

/// The caller, key, canonical form and reply of each accepted request.
const KEPT: [(&str, &str, &str, &str); 19] = [
    (
        "ann",
        "a1",
        "enrol\tacme\tAcme Tools\thttps://acme.example/",
        "enrolled acme",
    ),
    (
        "ann",
        "a2",
        "amend-org\tacme\tAcmé\thttp://acme.example/",
        "amended organisation acme",
    ),
    (
        "bob",
        "b1",
        "enrol\tbolt\tBolt\thttps://bolt.example/",
        "enrolled bolt",
    ),
    ("cora", "c1", "reserve\t2000\t20ff", "reserved 2000-20ff"),
    ("cora", "c2", "release\t2010\t201f", "released 2010-201f"),
    (
        "ann",
        "a3",
        "ask\tacme\t2010\tLamp\tMIT\thttps://acme.example/lamp\thttps://acme.example/src",
        "petition 1",
    ),
    (
        "ann",
        "a4",
        "ask\tacme\t-\tAnn's lamp\tMIT\thttps://acme.example/lamp\thttps://acme.example/src",
        "petition 2",
    ),
    (
        "ann",
        "a5",
        "ask\tacme\t-\tLamp\tMIT\thttps://acme.example/lamp\thttps://acme.example/src",
        "petition 3",
    ),
    (
        "ann",
        "a6",
        "ask\tacme\t-\tLamp\tMIT\thttps://acme.example/lamp\thttps://acme.example/src",
        "petition 4",
    ),
    (
        "cora",
        "c3",
        "grant\t1\t-",
        "granted 2010 to acme by petition 1",
    ),
    (
        "cora",
        "c4",
        "grant\t2\t-",
        "granted 0011 to acme by petition 2",
    ),
    ("cora", "c5", "decline\t3", "declined petition 3"),
    ("ann", "a7", "withdraw\t4", "withdrawn petition 4"),
    (
        "ann",
        "a8",
        "amend\t2010\tLamp 2\tGPL-3.0-only\thttps://acme.example/lamp\thttps://acme.example/src",
        "amended 2010",
    ),
    ("ann", "a9", "return\t0011", "returned 0011"),
    (
        "cora",
        "c6",
        "import\tbolt\t0001=Fixed\t0011=Taken\t0300=Probe\t0301=Probe 2\t2000=Reserved",
        "imported fresh 2, owned 1, reserved 2, doubled 0, untitled 0, zero 0",
    ),
    ("bob", "b2", "return\t0301", "returned 0301"),
    (
        "bob",
        "b3",
        "ask\tbolt\t0400\tDrive\tMIT\thttps://bolt.example/lamp\thttps://bolt.example/src",
        "petition 5",
    ),
    (
        "bob",
        "b4",
        "ask\tbolt\t-\tClock\tMIT\thttps://bolt.example/lamp\thttps://bolt.example/src",
        "petition 6",
    ),
];

// Inserts the row of `kept` of a request.
fn keep<S: Alter>(
    conn: &mut Connection<S>,
    (caller, key, request, reply): (&str, &str, &str, &str),
) -> bool {
    let values = [
        ValueRef::Text(caller.as_bytes()),
        ValueRef::Text(key.as_bytes()),
        ValueRef::Blob(request.as_bytes()),
        ValueRef::Text(reply.as_bytes()),
    ];
    conn.execute("INSERT INTO kept VALUES (?1, ?2, ?3, ?4)", &values)
        .is_ok()
}

fn run_all<S: Alter>(conn: &mut Connection<S>, batches: &[&str]) -> bool {
    batches
        .iter()
        .all(|batch| conn.execute_batch(batch).is_ok())
}

/// Makes a store by these statements, with the kept replies. Runs them in one transaction, which is
/// faster than one for each.
pub fn make<S: Alter>(conn: &mut Connection<S>, batches: &[&str]) -> bool {
    run_all(conn, &["BEGIN"])
        && run_all(conn, batches)
        && KEPT.iter().all(|row| keep(conn, *row))
        && run_all(conn, &["COMMIT"])
}
