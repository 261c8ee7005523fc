//! The last list, the last reports and the first founding, which a server gives again until they may
//! have changed.

ghost use Rattle.std.specs.Prelude.{◌≡◌, None, Some};
ghost use Rattle.registry_desk.specs.Cache.{after_order, cache_after, no_texts, text_for, with_text};

use crate::fault::DeskFault;
use registry_http::{HttpRefusal, Message, Query, Response};
use registry_reports::ReportKind;

/// The last list, the last report of each kind and the first founding, each as its whole response.
#[derive(Drop)]
pub struct Cache {
    list: Option<Response>,
    census: Option<Response>,
    holders: Option<Response>,
    petitions: Option<Response>,
    numbers: Option<Response>,
    organisations: Option<Response>,
    first_founding: Option<Response>,
}

impl Cache {
    /// Makes an empty cache.
    pub fn new() -> Cache
        ensures { result ≡ no_texts }
    {
        Cache {
            list: None,
            census: None,
            holders: None,
            petitions: None,
            numbers: None,
            organisations: None,
            first_founding: None,
        }
    }

    /// Takes out the response to a query, if it is cached.
    pub(crate) fn take(&mut self, query: &Query) -> Option<Response>
        ensures taken { result ≡ text_for self.old query.now }
        ensures left { self.new ≡ with_text self.old query.now None }
    {
        match query {
            Query::List => self.list.take(),
            Query::Report(ReportKind::Census) => self.census.take(),
            Query::Report(ReportKind::Holders) => self.holders.take(),
            Query::Report(ReportKind::Petitions) => self.petitions.take(),
            Query::Report(ReportKind::Numbers) => self.numbers.take(),
            Query::Report(ReportKind::Organisations) => self.organisations.take(),
            Query::FirstFounding => self.first_founding.take(),
            Query::Number { .. }
            | Query::Org(_)
            | Query::Petition(_)
            | Query::Founding
            | Query::Head
            | Query::History(_) => None,
        }
    }

    /// Keeps the response to a query for the list, a report or the first founding.
    fn put(&mut self, query: &Query, response: Response)
        ensures { self.new ≡ with_text self.old query.now (Some response) }
    {
        match query {
            Query::List => self.list = Some(response),
            Query::Report(ReportKind::Census) => self.census = Some(response),
            Query::Report(ReportKind::Holders) => self.holders = Some(response),
            Query::Report(ReportKind::Petitions) => self.petitions = Some(response),
            Query::Report(ReportKind::Numbers) => self.numbers = Some(response),
            Query::Report(ReportKind::Organisations) => self.organisations = Some(response),
            Query::FirstFounding => self.first_founding = Some(response),
            Query::Number { .. }
            | Query::Org(_)
            | Query::Petition(_)
            | Query::Founding
            | Query::Head
            | Query::History(_) => {}
        }
    }

    /// Drops all texts.
    pub fn clear(&mut self)
        ensures { self.new ≡ no_texts }
    {
        *self = Cache::new();
    }

    /// Drops the texts that an order may have changed, by the response that it got. An accepted order
    /// changes all but the first founding, and a refused one changes nothing.
    fn drop_changed(&mut self, response: &Response)
        ensures { self.new ≡ after_order self.old response.now }
    {
        if response.status.as_u16() == 200 {
            let first_founding = self.first_founding.take();
            self.clear();
            self.first_founding = first_founding;
        }
    }

    /// Keeps what was done for a message, if it is the list, a report or the first founding. An order
    /// drops the texts that it may have changed, and a fault drops all.
    pub fn keep(&mut self, said: Result<Message, HttpRefusal>, done: Result<Response, DeskFault>)
        ensures { self.new ≡ cache_after self.old done said }
    {
        match done {
            Ok(response) => match said {
                Ok(Message::Query(query)) => self.put(&query, response),
                Ok(Message::Request(_)) => self.drop_changed(&response),
                Err(_) => {}
            },
            Err(_) => self.clear(),
        }
    }
}
