//! Who sees each accepted new request before it is committed.

ghost use Rattle.std.specs.Prelude.{◌≡◌, OnOk, IfErr, List, ℕ};
ghost use Rattle.registry_rules.specs.declared.order.Request.{Request};
ghost use Rattle.registry_store.specs.Witness.{lets_pass, never_misses};

use crate::fault::Fault;
use registry_rules::{ReplyText, Request};
use usbnum_core::NoMemory;

/// Somebody who sees each accepted new request with its reply before it is committed, for example a
/// log that other machines read. A request that was not seen is not committed.
pub trait Witness {
    /// Why it is not known that a request was seen.
    type Why: Drop;

    /// The request was seen, with the text of its reply, and nothing else.
    ghost saw: { Self → Self → Request → List ℕ → Type 0 };

    /// The request was shown with the text of its reply. For this reason it is not known that it was
    /// seen.
    ghost missed: { Self → Self → Request → List ℕ → Self.Why → Type 0 };

    /// Sees a request, or returns why it is not known that it was seen.
    fn see(&mut self, request: &Request, reply: &ReplyText) -> Result<(), Self::Why>
        ensures saw { OnOk result (saw self.old self.new request.now reply.now) }
        ensures missed { IfErr result (missed self.old self.new request.now reply.now) };
}

/// A witness that lets each request pass.
#[derive(Drop)]
pub struct Nobody;

impl Witness for Nobody {
    type Why = NoMemory;

    ghost saw = { lets_pass };

    ghost missed = { never_misses };

    fn see(&mut self, request: &Request, reply: &ReplyText) -> Result<(), NoMemory> {
        Ok(())
    }
}

/// Why a request is not acted on before a witness.
#[derive(Clone, Copy, Debug, Drop, PartialEq, Eq)]
pub enum ActStop<Y> {
    /// The registry had a fault.
    Fault(Fault),
    /// For this reason it is not known that the witness saw the request. Nothing is committed, and
    /// the registry goes on.
    Unwitnessed(Y),
}
