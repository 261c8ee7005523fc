//! All tables of the newest schema.

ghost use Rattle.table_laws.specs.Making.{no_schema, Adds};
ghost use Rattle.registry_schema.specs.Schema.{schema_5};
ghost use Rattle.registry_schema.specs.Steps.{WritesTables};

use crate::TableFault;
use crate::first::create_first;
use crate::later::{add_fifth, add_fourth, add_second, add_third};
use sqlite::{Alter, Transaction};

/// Creates all tables in a database that has none: those of the first schema, then those that each
/// later one adds, so that a new store and a migrated one are alike.
pub fn create_tables<S: Alter>(tx: &mut Transaction<'_, S>) -> Result<(), TableFault>
    ensures writes { WritesTables S.Store tx.old.conn tx.new.conn result (Adds no_schema schema_5) }
{
    create_first(tx)?;
    add_second(tx)?;
    add_third(tx)?;
    add_fourth(tx)?;
    add_fifth(tx)?;
    Ok(())
}
