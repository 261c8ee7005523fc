//! The kinds of reports, and their names.

ghost use Rattle.std.specs.Prelude.{◌≡◌};
ghost use Rattle.registry_reports.specs.Kinds.{report_named};

/// A kind of report on a registry.
#[derive(Clone, Copy, Debug, PartialEq, Eq)]
pub enum ReportKind {
    /// For each vendor, how many numbers are free, reserved, held and returned.
    Census,
    /// For each organisation, how many numbers it holds and how many it returned.
    Holders,
    /// The open petitions.
    Petitions,
    /// The numbers that are not free.
    Numbers,
    /// The organisations.
    Organisations,
}

/// Returns the kind of report with this name, or None.
#[tactic(auto, unfolding(crate::specs::Kinds::report_named))]
pub fn report_named(name: &str) -> Option<ReportKind>
    ensures { result ≡ report_named name.now }
{
    if name == "census" {
        Some(ReportKind::Census)
    } else if name == "holders" {
        Some(ReportKind::Holders)
    } else if name == "petitions" {
        Some(ReportKind::Petitions)
    } else if name == "numbers" {
        Some(ReportKind::Numbers)
    } else if name == "organisations" {
        Some(ReportKind::Organisations)
    } else {
        None
    }
}
