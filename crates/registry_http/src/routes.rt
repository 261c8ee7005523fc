//! The served paths, and the route of a message's target.

ghost use Rattle.std.specs.Prelude.{◌≡◌, ◌≤◌, All, OnOk, IfOk, IsSome, option_copied, length, position};
ghost use Rattle.std.specs.Str.{IsAscii, IsUtf8};
ghost use Rattle.std.specs.List.{list_all};
ghost use Rattle.matchit.specs.Params.{walk};
ghost use Rattle.registry_http.specs.Routes.{templates, with_template, first_two, is_ascii, path_end, is_question_mark, path_of, ascii_path, route_of, route_of_path, route_for, NextPart};

use crate::parts::{
    history_route, import_route, number_route, org_route, petition_route, report_route,
    vendor_import_route, vendor_number_route,
};
use crate::route::{Endpoint, Query, Route};
use matchit::{Params, ParamsIter, Router};
use std::alloc::Global;
use std::marker::Model;
use usbnum_core::NoMemory;

/// A served path, before its parts are read.
#[derive(Clone, Copy, Debug, PartialEq, Eq)]
pub(crate) enum Template {
    Commands,
    Founding,
    FirstFounding,
    Head,
    History,
    Imports,
    VendorImports,
    List,
    Numbers,
    VendorNumbers,
    Orgs,
    Petitions,
    Reports,
}

#[tactic(auto, unfolding(crate::specs::Routes::with_template))]
fn add(router: &mut Router<Template>, text: &str, template: Template) -> Result<(), NoMemory>
    ensures { OnOk result (router.new ≡ with_template text.now template router.old) }
{
    match router.insert(text, template) {
        Ok(()) => Ok(()),
        Err(_) => Err(NoMemory),
    }
}

/// Makes a router of the served paths.
#[tactic(auto, unfolding(crate::specs::Routes::templates))]
fn templates(alloc: Global) -> Result<Router<Template>, NoMemory>
    ensures { IfOk result (λ r. r ≡ templates) }
{
    let mut router = Router::new(alloc);
    add(&mut router, "/commands", Template::Commands)?;
    add(&mut router, "/founding", Template::Founding)?;
    add(&mut router, "/head", Template::Head)?;
    add(&mut router, "/history/founding", Template::FirstFounding)?;
    add(&mut router, "/history/{n}", Template::History)?;
    add(&mut router, "/imports/{org}", Template::Imports)?;
    add(&mut router, "/imports/{org}/{vid}", Template::VendorImports)?;
    add(&mut router, "/list", Template::List)?;
    add(&mut router, "/numbers/{pid}", Template::Numbers)?;
    add(&mut router, "/numbers/{vid}/{pid}", Template::VendorNumbers)?;
    add(&mut router, "/orgs/{org}", Template::Orgs)?;
    add(&mut router, "/petitions/{id}", Template::Petitions)?;
    add(&mut router, "/reports/{name}", Template::Reports)?;
    Ok(router)
}

/// Returns the next part of a path.
fn next_part<'v>(params: &mut ParamsIter<'_, '_, 'v>) -> Option<&'v str>
    requires { All (λ p. IsUtf8 p.1) params.old }
    ensures { NextPart params.old (option_copied result) params.new }
{
    match params.next() {
        Some((_, part)) => Some(part),
        None => None,
    }
}

/// Returns the first two parts of a path.
fn first_two<'v>(params: &Params<'_, 'v>) -> (Option<&'v str>, Option<&'v str>)
    requires { IsAscii params.now.path.now }
    ensures { (option_copied result.0, option_copied result.1)
        ≡ first_two (walk params.now.pattern.now params.now.text.now params.now.path.now params.now.names.now 0 0) }
{
    let mut parts = params.iter();
    match next_part(&mut parts) {
        Some(first) => (Some(first), next_part(&mut parts)),
        None => (None, None),
    }
}

fn route_for(
    alloc: Global,
    template: Template,
    one: Option<&str>,
    two: Option<&str>,
) -> Result<Option<Route>, NoMemory>
    ensures { IfOk result (λ found. found ≡ route_for template (option_copied one.entry) (option_copied two.entry)) }
{
    match template {
        Template::Commands => Ok(Some(Route::Post(Endpoint::Commands))),
        Template::Founding => Ok(Some(Route::Get(Query::Founding))),
        Template::FirstFounding => Ok(Some(Route::Get(Query::FirstFounding))),
        Template::Head => Ok(Some(Route::Get(Query::Head))),
        Template::History => Ok(history_route(one)),
        Template::Imports => import_route(alloc, one),
        Template::VendorImports => vendor_import_route(alloc, one, two),
        Template::List => Ok(Some(Route::Get(Query::List))),
        Template::Numbers => Ok(number_route(one)),
        Template::VendorNumbers => Ok(vendor_number_route(one, two)),
        Template::Orgs => org_route(alloc, one),
        Template::Petitions => Ok(petition_route(one)),
        Template::Reports => Ok(report_route(one)),
    }
}

/// Returns the route of an ASCII path, if it is served.
#[tactic(auto, unfolding(crate::specs::Routes::route_of_path))]
fn route_of_path(
    alloc: Global,
    router: &Router<Template>,
    path: &str,
) -> Result<Option<Route>, NoMemory>
    requires whole { router.now ≡ templates }
    requires ascii { IsAscii path.now }
    ensures { IfOk result (λ found. found ≡ route_of_path path.now) }
{
    match router.at(path) {
        Ok(found) => {
            let (one, two) = first_two(&found.params);
            route_for(alloc, *found.value, one, two)
        }
        Err(_) => Ok(None),
    }
}

fn are_ascii(bytes: &[u8]) -> bool
    ensures { result ≡ list_all is_ascii bytes.now }
{
    bytes.iter().all(|b| *b < 128)
}

fn question_mark(target: &[u8]) -> Option<usize>
    ensures { result ≡ position is_question_mark target.now }
{
    target.iter().position(|b| *b == b'?')
}

#[tactic(auto, unfolding(crate::specs::Routes::path_end))]
fn path_end(target: &[u8]) -> usize
    ensures value { result ≡ path_end target.now }
    ensures within { result ≤ length target.now }
{
    match question_mark(target) {
        Some(i) => i,
        None => target.len(),
    }
}

/// Returns the target up to its first question mark.
fn path_of(target: &[u8]) -> &[u8]
    ensures { result.now ≡ path_of target.now }
{
    &target[..path_end(target)]
}

/// Returns the path as text, if all its bytes are ASCII.
fn ascii_path(path: &[u8]) -> Option<&str>
    ensures { option_copied result ≡ ascii_path path.now }
{
    if !are_ascii(path) {
        return None;
    }
    match str::from_utf8(path) {
        Ok(path) => Some(path),
        Err(_) => unreachable!(),
    }
}

/// Returns the route of a message's target, if it is served.
#[tactic(auto, unfolding(crate::specs::Routes::route_of))]
pub(crate) fn route_of(
    alloc: Global,
    router: &Router<Template>,
    target: &[u8],
) -> Result<Option<Route>, NoMemory>
    requires { router.now ≡ templates }
    ensures { IfOk result (λ found. found ≡ route_of target.now) }
{
    match ascii_path(path_of(target)) {
        Some(path) => route_of_path(alloc, router, path),
        None => Ok(None),
    }
}

/// The table of the served paths. The first message with a whole head makes it.
#[derive(Drop)]
pub struct Routes {
    router: Option<Router<Template>>,
}

impl Model for Routes {
    ghost use Rattle.std.specs.Prelude.{◌≡◌, Option, IfSome};
    ghost use Rattle.registry_http.specs.Routes.{Templates, templates};

    ghost Value = { Option Templates };

    ghost view = { λ routes. routes.router };

    ghost invariant = { λ routes. IfSome routes.router (λ router. router ≡ templates) };
}

impl Routes {
    /// Makes an empty table, which the first message with a whole head fills.
    pub fn new() -> Routes {
        Routes { router: None }
    }

    /// Makes the router, unless it is there.
    fn fill(&mut self, alloc: Global) -> Result<(), NoMemory>
        ensures { OnOk result (IsSome self.new) }
    {
        if self.router.is_none() {
            self.router = Some(templates(alloc)?);
        }
        Ok(())
    }

    /// Returns the router of the served paths.
    pub(crate) fn router(&mut self, alloc: Global) -> Result<&Router<Template>, NoMemory>
        ensures { IfOk result (λ router. router.now ≡ templates) }
    {
        self.fill(alloc)?;
        match &self.router {
            Some(router) => Ok(router),
            None => unreachable!(),
        }
    }
}
