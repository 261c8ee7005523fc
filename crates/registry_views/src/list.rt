//! The list of a registry's held numbers.

ghost use Rattle.registry_reports.specs.History.{IsListing};
ghost use Rattle.registry_store.specs.Queries.{IsQuery};

use registry_reports::list_document;
use registry_store::{Fault, Registry};
use sqlite::Alter;
use std::alloc::Global;
use usbids_text::Document;

/// Returns the list of the registry's held numbers. Changes nothing.
///
/// # Errors
///
/// `Fault::NoMemory` if memory runs out, also for the list itself; the other faults are those of
/// `Registry::vendors` and `Registry::numbers`.
pub fn document_of<S: Alter>(alloc: Global, registry: &mut Registry<S>) -> Result<Document, Fault>
    ensures { IsQuery registry.old registry.new result (λ h doc. IsListing h doc) }
{
    let vendors = registry.vendors()?;
    let numbers = registry.numbers()?;
    Ok(list_document(alloc, vendors.as_slice(), numbers.as_slice())?)
}
