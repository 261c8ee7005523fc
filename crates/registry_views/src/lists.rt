//! The lists of all that a registry says of now.

ghost use Rattle.registry_store.specs.Queries.{IsQuery};
ghost use Rattle.registry_views.specs.Lists.{AreLists};

use registry_rules::{Entry, Org, Petition, Vendor};
use registry_store::{Fault, Registry};
use sqlite::Alter;
use usbnum_core::Number;

/// The vendors, organisations, petitions and numbers of a registry, each list in order.
#[derive(Debug, Drop)]
pub struct Lists {
    /// All vendors, the founding one included.
    pub vendors: Vec<Vendor>,
    /// All organisations.
    pub orgs: Vec<Org>,
    /// All petitions, each with its number.
    pub petitions: Vec<(u32, Petition)>,
    /// All numbers with an owner.
    pub numbers: Vec<(Number, Entry)>,
}

/// Returns the lists of the registry. Changes nothing.
///
/// # Errors
///
/// The faults are those of `Registry::vendors`, `orgs`, `petitions` and `numbers`.
pub fn lists_of<S: Alter>(registry: &mut Registry<S>) -> Result<Lists, Fault>
    ensures { IsQuery registry.old registry.new result (λ h lists. AreLists h lists) }
{
    let vendors = registry.vendors()?;
    let orgs = registry.orgs()?;
    let petitions = registry.petitions()?;
    let numbers = registry.numbers()?;
    Ok(Lists {
        vendors,
        orgs,
        petitions,
        numbers,
    })
}
