//! Routes: the query or endpoint of a path.

use registry_reports::ReportKind;
use usbnum_core::{Pid, Slug, Vid};

/// A query to the registry, which does not change it.
#[derive(Drop)]
pub enum Query {
    /// The held numbers of all vendors, as a list in the syntax of usb.ids.
    List,
    /// A product ID, under the founding vendor if no vendor is named.
    Number { vendor: Option<Vid>, pid: Pid },
    /// The organisation with this slug.
    Org(Slug),
    /// The petition with this number.
    Petition(u32),
    /// The founding, with the licences and the vendors of now.
    Founding,
    /// The founding, with its first licences, as the record has it.
    FirstFounding,
    /// The head of the record: how many requests were accepted, and the digest.
    Head,
    /// A page of the history: its accepted requests after this many.
    History(u64),
    /// A report on the whole registry.
    Report(ReportKind),
}

/// The endpoint to which an order is sent.
#[derive(Drop)]
pub(crate) enum Endpoint {
    /// An order in JSON.
    Commands,
    /// A list whose numbers are imported for an organisation, under the founding vendor if no
    /// vendor is named.
    Imports { org: Slug, vendor: Option<Vid> },
}

/// The route of a path: a query by GET, or an order by POST.
#[derive(Drop)]
pub(crate) enum Route {
    /// A query, by GET.
    Get(Query),
    /// An order, by POST.
    Post(Endpoint),
}
