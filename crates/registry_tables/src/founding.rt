//! The rows of a founding.

ghost use Rattle.std.specs.Prelude.{◌≡◌, OnOk};
ghost use Rattle.registry_wire.specs.Digests.{founding_digest};
ghost use Rattle.registry_schema.specs.Steps.{WritesTables};
ghost use Rattle.registry_rows.specs.Steps.{Changes};
ghost use Rattle.registry_tables.specs.Rows.{IsFounding};
ghost use Rattle.registry_tables.specs.Changed.{names_put, spans_put};
ghost use Rattle.registry_tables.specs.Calls.{WritesTablesOpen, with_founding};

use crate::TableFault;
use registry_rows::{put_curator, put_digest, put_fixed, put_licence, put_meta, put_vendor};
use registry_rules::Founding;
use sqlite::{Alter, Transaction};
use usbnum_core::{Digest, Slug, Span, Title};

fn add_curators<S: Alter>(tx: &mut Transaction<'_, S>, names: &[Slug]) -> Result<(), TableFault>
    ensures writes { WritesTablesOpen S.Store tx.old.conn tx.new.conn result (Changes (λ t. record t { curators = names_put names.now t.curators })) }
{
    for name in names {
        put_curator(tx, name)?;
    }
    Ok(())
}

fn add_licences<S: Alter>(tx: &mut Transaction<'_, S>, names: &[Title]) -> Result<(), TableFault>
    ensures writes { WritesTablesOpen S.Store tx.old.conn tx.new.conn result (Changes (λ t. record t { licences = names_put names.now t.licences })) }
{
    for name in names {
        put_licence(tx, name)?;
    }
    Ok(())
}

fn add_fixed<S: Alter>(tx: &mut Transaction<'_, S>, spans: &[Span]) -> Result<(), TableFault>
    ensures writes { WritesTablesOpen S.Store tx.old.conn tx.new.conn result (Changes (λ t. record t { fixed = spans_put spans.now t.fixed })) }
{
    for span in spans {
        put_fixed(tx, *span)?;
    }
    Ok(())
}

/// Writes the rows of a founding, and its digest.
pub fn write_founding<S: Alter>(
    tx: &mut Transaction<'_, S>,
    founding: &Founding,
    digest: &Digest,
) -> Result<(), TableFault>
    requires { digest.now ≡ founding_digest founding.now }
    ensures writes { WritesTables S.Store tx.old.conn tx.new.conn result (Changes (with_founding founding.now)) }
    ensures valid { OnOk result (IsFounding founding.now) }
{
    put_meta(tx, 5, founding.vendor, &founding.name)?;
    add_curators(tx, founding.curators.as_slice())?;
    add_licences(tx, founding.licences.as_slice())?;
    add_fixed(tx, founding.fixed.parts())?;
    put_vendor(tx, founding.vendor, &founding.name)?;
    put_digest(tx, 0, &None, digest)?;
    Ok(())
}
