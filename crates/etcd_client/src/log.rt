//! A log that etcd keeps.

use crate::calls;
use crate::fault::CallFault;
use crate::host::Host;
use crate::session::Session;
use crate::user::User;
use http_exchange::Connection;
use shared_log::{AppendAnswer, HeadAnswer, Log, LogFault, PageAnswer};
use std::alloc::Global;
use usbnum_core::Slug;

/// A log that etcd keeps, over a connection to it that is kept open.
#[derive(Drop)]
pub struct EtcdLog<C: Connection> {
    session: Session<C>,
    name: Slug,
    fault: Option<CallFault>,
}

impl<C: Connection> EtcdLog<C> {
    ghost use Rattle.std.specs.Prelude.{◌≡◌, Some};
    ghost use Rattle.etcd_client.specs.Faults.{log_fault};
    ghost use Rattle.etcd_client.specs.Logs.{new_log, last_fault};

    /// Returns the log with this name. Nothing is sent yet.
    pub fn new(connection: C, host: Host, name: Slug, user: Option<User>) -> EtcdLog<C>
        ensures { result ≡ new_log connection host name user }
    {
        EtcdLog {
            session: Session {
                connection,
                is_kept: false,
                host,
                user,
                token: None,
            },
            name,
            fault: None,
        }
    }

    /// Returns why the last call without an answer got none.
    pub fn fault(&self) -> Option<CallFault>
        ensures { result ≡ last_fault self.now }
    {
        self.fault
    }

    // Keeps the fault of a call, and returns what it is for one who uses the log.
    fn fail(&mut self, fault: CallFault) -> LogFault
        ensures kept { self.new ≡ record self.old { fault = Some fault } }
        ensures kind { result ≡ log_fault fault }
    {
        self.fault = Some(fault);
        fault.log_fault()
    }
}

impl<C: Connection> Log for EtcdLog<C> {
    ghost use Rattle.std.specs.Prelude.{IfOk, IfErr, OnErr};
    ghost use Rattle.etcd_client.specs.Logs.{Appends, ReadsPage, LooksAt, AppendFails, PageFails, LookFails, Fails};

    ghost appends = { λ s t n line answer. Appends C.Connection s t n line answer };

    ghost reads = { λ s t n answer. ReadsPage C.Connection s t n answer };

    ghost looks = { λ s t answer. LooksAt C.Connection s t answer };

    ghost fails = { λ s t. Fails C.Connection s t };

    #[tactic(auto, using(crate::proofs::LogLemmas::appends))]
    fn append(&mut self, alloc: Global, n: u32, line: &[u8]) -> Result<AppendAnswer, LogFault>
        ensures appends { IfOk result (Appends C.Connection self.old self.new n line.now) }
        ensures failed { OnErr result (Fails C.Connection self.old self.new) }
        ensures why { IfErr result (AppendFails C.Connection self.old self.new n line.now) }
    {
        match calls::append(alloc, &mut self.session, &self.name, n, line) {
            Ok(answer) => Ok(answer),
            Err(fault) => Err(self.fail(fault)),
        }
    }

    #[tactic(auto, using(crate::proofs::LogLemmas::reads))]
    fn page(&mut self, alloc: Global, n: u32) -> Result<PageAnswer, LogFault>
        ensures reads { IfOk result (ReadsPage C.Connection self.old self.new n) }
        ensures failed { OnErr result (Fails C.Connection self.old self.new) }
        ensures why { IfErr result (PageFails C.Connection self.old self.new n) }
    {
        match calls::page(alloc, &mut self.session, &self.name, n) {
            Ok(answer) => Ok(answer),
            Err(fault) => Err(self.fail(fault)),
        }
    }

    #[tactic(auto, using(crate::proofs::LogLemmas::looks))]
    fn head(&mut self, alloc: Global) -> Result<HeadAnswer, LogFault>
        ensures looks { IfOk result (LooksAt C.Connection self.old self.new) }
        ensures failed { OnErr result (Fails C.Connection self.old self.new) }
        ensures why { IfErr result (LookFails C.Connection self.old self.new) }
    {
        match calls::head(alloc, &mut self.session, &self.name) {
            Ok(answer) => Ok(answer),
            Err(fault) => Err(self.fail(fault)),
        }
    }
}
