//! Rows as lines.

use sqlite::types::ValueRef;
use sqlite::{Alter, Connection, Row};

fn add_text(bytes: &[u8], text: &mut String) -> bool {
    match std::str::from_utf8(bytes) {
        Ok(part) => text.push_str(part).is_ok(),
        Err(_) => false,
    }
}

// Adds the bytes in quotes, with a tab as \t.
fn add_quoted(bytes: &[u8], text: &mut String) -> bool {
    match std::str::from_utf8(bytes) {
        Ok(part) => write!(text, "{part:?}").is_ok(),
        Err(_) => false,
    }
}

fn add_value(value: ValueRef<'_>, text: &mut String) -> bool {
    match value {
        ValueRef::Null => text.push_str("NULL").is_ok(),
        ValueRef::Int(number) => write!(text, "{number}").is_ok(),
        ValueRef::Real(_) => false,
        ValueRef::Text(bytes) => add_text(bytes, text),
        ValueRef::Blob(bytes) => add_quoted(bytes, text),
    }
}

fn add_row(row: &Row, text: &mut String) -> bool {
    for at in 0..row.column_count() {
        let Ok(value) = row.get_ref(at) else {
            return false;
        };
        if !add_value(value, text) || text.push('|').is_err() {
            return false;
        }
    }
    text.push('\n').is_ok()
}

fn add_rows(rows: &[Row], text: &mut String) -> bool {
    rows.iter().all(|row| add_row(row, text))
}

/// Adds a line for each row that the query returns.
pub fn add_answer<S: Alter>(conn: &mut Connection<S>, query: &str, text: &mut String) -> bool {
    match conn.query_all(query, &[]) {
        Ok(rows) => add_rows(&rows, text),
        Err(_) => false,
    }
}

/// Adds the rows that each of these queries returns.
pub fn add_answers<S: Alter>(
    conn: &mut Connection<S>,
    queries: &[&str],
    text: &mut String,
) -> bool {
    for query in queries {
        if !add_answer(conn, query, text) {
            return false;
        }
    }
    true
}
