//! The schema version of a store.

ghost use Rattle.std.specs.Prelude.{◌≡◌, IsTrue, Some, false, map};
ghost use Rattle.sqlite.specs.State.{IsLive};
ghost use Rattle.sqlite.specs.Held.{state};
ghost use Rattle.table_laws.specs.Making.{no_schema, HasTables};
ghost use Rattle.registry_schema.specs.Texts.{texts_1, texts_2, texts_3, texts_4, texts_5};
ghost use Rattle.registry_schema.specs.Version.{are_named, version_named};
ghost use Rattle.registry_schema.specs.Meta.{has_meta_table};

use sqlite::{Alter, Connection};
use sqlite_schema::schema::Table;

/// Returns whether the database has a table `meta`. Makes no store call.
pub fn has_meta<S: Alter>(conn: &Connection<S>) -> bool
    ensures { result ≡ has_meta_table (state S.Store conn.now).now.schema }
{
    conn.schema()
        .tables
        .as_slice()
        .iter()
        .any(|table| table.name.as_slice() == b"meta".as_slice())
}

/// Returns whether the database has no table, index or view. Makes no store call.
pub fn is_empty<S: Alter>(conn: &Connection<S>) -> bool
    ensures empty { IsTrue result → (state S.Store conn.now).now.schema ≡ no_schema }
    ensures filled { result ≡ false → ¬ ((state S.Store conn.now).now.schema ≡ no_schema) }
    ensures live { IsLive (state S.Store conn.now) }
{
    let schema = conn.schema();
    schema.tables.is_empty() && schema.indexes.is_empty() && schema.views.is_empty()
}

// The names of each schema's tables, in the order of their creation.
const FIRST: [&str; 9] = [
    "meta",
    "curators",
    "licences",
    "fixed",
    "orgs",
    "petitions",
    "entries",
    "reserved",
    "kept",
];

const SECOND: [&str; 10] = [
    "meta",
    "curators",
    "licences",
    "fixed",
    "orgs",
    "petitions",
    "entries",
    "reserved",
    "kept",
    "spans",
];

const THIRD: [&str; 14] = [
    "meta",
    "curators",
    "licences",
    "fixed",
    "orgs",
    "petitions",
    "entries",
    "reserved",
    "kept",
    "spans",
    "vendors",
    "spans3",
    "entries3",
    "petitions3",
];

const FOURTH: [&str; 16] = [
    "meta",
    "curators",
    "licences",
    "fixed",
    "orgs",
    "petitions",
    "entries",
    "reserved",
    "kept",
    "spans",
    "vendors",
    "spans3",
    "entries3",
    "petitions3",
    "digests4",
    "reasons4",
];

const FIFTH: [&str; 18] = [
    "meta",
    "curators",
    "licences",
    "fixed",
    "orgs",
    "petitions",
    "entries",
    "reserved",
    "kept",
    "spans",
    "vendors",
    "spans3",
    "entries3",
    "petitions3",
    "digests4",
    "reasons4",
    "opened5",
    "closed5",
];

// Returns whether the tables have exactly these names, in this order.
fn have_names(tables: &[Table], names: &[&str]) -> bool
    ensures { result ≡ are_named (map (λ name. name.now) names.now) tables.now }
{
    let Some((table, tables)) = tables.split_first() else {
        return names.is_empty();
    };
    let Some((name, names)) = names.split_first() else {
        return false;
    };
    table.name.as_slice() == name.as_bytes() && have_names(tables, names)
}

fn version_by(tables: &[Table]) -> Option<u8>
    ensures { result ≡ version_named tables.now }
{
    if have_names(tables, &FIRST) {
        Some(1)
    } else if have_names(tables, &SECOND) {
        Some(2)
    } else if have_names(tables, &THIRD) {
        Some(3)
    } else if have_names(tables, &FOURTH) {
        Some(4)
    } else if have_names(tables, &FIFTH) {
        Some(5)
    } else {
        None
    }
}

/// Returns the version of the schema whose table names the database has, or `None` if no schema has
/// them. Makes no store call.
pub fn version_of<S: Alter>(conn: &Connection<S>) -> Option<u8>
    ensures first { IsTrue (state S.Store conn.now).is_open → HasTables texts_1 (state S.Store conn.now).now.trees → result ≡ Some 1 }
    ensures second { IsTrue (state S.Store conn.now).is_open → HasTables texts_2 (state S.Store conn.now).now.trees → result ≡ Some 2 }
    ensures third { IsTrue (state S.Store conn.now).is_open → HasTables texts_3 (state S.Store conn.now).now.trees → result ≡ Some 3 }
    ensures fourth { IsTrue (state S.Store conn.now).is_open → HasTables texts_4 (state S.Store conn.now).now.trees → result ≡ Some 4 }
    ensures fifth { IsTrue (state S.Store conn.now).is_open → HasTables texts_5 (state S.Store conn.now).now.trees → result ≡ Some 5 }
    ensures named { result ≡ version_named (state S.Store conn.now).now.schema.tables }
    ensures live { IsLive (state S.Store conn.now) }
{
    version_by(conn.schema().tables.as_slice())
}
