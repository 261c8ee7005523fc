//! Rows as values.

ghost use Rattle.std.specs.Prelude.{◌≡◌, ◌≢◌, IfOk};
ghost use Rattle.sqlite.specs.Order.{Row as Columns};
ghost use Rattle.registry_rows.specs.Steps.{Decodes};
ghost use Rattle.registry_rows.specs.Columns.{HasColumns, DecodesFirst, DecodesAll};

use registry_schema::TableFault;
use sqlite::Row;
use std::alloc::Global;

/// A value that a row stores.
pub trait FromRow: Sized {
    // when a value is valid, and the columns that SELECT shows for it
    ghost is_valid: { Self → Type 0 };

    ghost columns: { Self → Columns };

    fn from_row(alloc: Global, row: &Row) -> Result<Self, TableFault>
        ensures decodes { (value : Self) → is_valid value → row.now ≡ columns value → Decodes result value }
        ensures shown { IfOk result (λ value. HasColumns row.now 0 (columns value)) }
        ensures fault { result ≢ Err TableFault.Store };
}

/// Reads the value of the first row, if any.
///
/// # Errors
///
/// `TableFault::Foreign` if that row stores no such value, `TableFault::NoMemory` if out of memory.
pub fn first_from<T: FromRow>(alloc: Global, rows: &[Row]) -> Result<Option<T>, TableFault>
    ensures { DecodesFirst T.is_valid T.columns rows.now result }
{
    match rows.first() {
        None => Ok(None),
        Some(row) => match T::from_row(alloc, row) {
            Ok(value) => Ok(Some(value)),
            Err(fault) => Err(fault),
        },
    }
}

/// Reads the values of all rows, in their order.
///
/// # Errors
///
/// `TableFault::Foreign` if a row stores no such value, `TableFault::NoMemory` if out of memory.
pub fn all_from<T: FromRow + Drop>(alloc: Global, rows: &[Row]) -> Result<Vec<T>, TableFault>
    ensures { DecodesAll T.is_valid T.columns rows.now (λ all. all.items) result }
{
    let mut all = Vec::new(alloc);
    for row in rows {
        match T::from_row(alloc, row) {
            Ok(value) => {
                if all.push(value).is_err() {
                    return Err(TableFault::NoMemory);
                }
            }
            Err(fault) => return Err(fault),
        }
    }
    Ok(all)
}
