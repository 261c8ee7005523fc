//! Sends messages to etcd over one connection, and logs a user in.

ghost use Rattle.std.specs.Prelude.{◌≡◌, IfOk, IfErr, OnOk, option_copied, option_map, string_bytes};
ghost use Rattle.etcd_client.specs.Sessions.{login_body, is_refused, Talks, TalkFails, LogsIn, LoginFails, GetsToken, TokenFails, SendsAsUser, SendFails, Asks, AskFails};

use crate::fault::CallFault;
use crate::host::Host;
use crate::request::request_text;
use crate::user::User;
use etcd_messages::{Endpoint, Token, login_request, read_login};
use http_exchange::{Answer, Connection, exchange};
use std::alloc::Global;
use usbnum_core::NoMemory;

/// A connection to etcd that is kept open, and the user as whom messages are sent over it.
pub(crate) struct Session<C: Connection> {
    pub connection: C,
    pub is_kept: bool,
    pub host: Host,
    pub user: Option<User>,
    pub token: Option<Token>,
}

// By hand: the borrow checker does not cover a function that drops a log over a connection that borrows, if a derive wrote
// this drop.
impl<C: Connection + Drop> Drop for Session<C> {
    fn drop(self) {
        let Session {
            connection: _,
            is_kept: _,
            host: _,
            user: _,
            token: _,
        } = self;
    }
}

// Returns the body of the message that logs a user in, if there is one.
fn login_text(alloc: Global, user: Option<&User>) -> Result<Option<String>, NoMemory>
    ensures { IfOk result (λ text. option_map string_bytes text ≡ option_map login_body (option_copied user.entry)) }
{
    match user {
        Some(user) => {
            let text = login_request(alloc, user.name(), user.password())?;
            Ok(Some(text))
        }
        None => Ok(None),
    }
}

impl<C: Connection> Session<C> {
    // Sends a message with the token, if there is one, and returns its answer. The connection is kept if another message
    // may be sent on it.
    #[tactic(auto, using(crate::proofs::SessionLemmas::talked, crate::proofs::SessionLemmas::was_not_sent))]
    fn talk(&mut self, alloc: Global, endpoint: Endpoint, body: &str) -> Result<Answer, CallFault>
        ensures ok { IfOk result (λ answer. Talks C.Connection self.old self.new endpoint body.now answer.status answer.body.items) }
        ensures err { IfErr result (TalkFails C.Connection self.old self.new endpoint body.now) }
    {
        let text = request_text(alloc, endpoint, &self.host, self.token.as_ref(), body)?;
        let kept = self.is_kept;
        self.is_kept = false;
        let answer = exchange(alloc, &mut self.connection, kept, text.as_bytes())?;
        self.is_kept = answer.keeps;
        Ok(answer)
    }

    // Logs the user in by this message, and keeps the token.
    fn log_in(&mut self, alloc: Global, body: &str) -> Result<(), CallFault>
        ensures ok { OnOk result (LogsIn C.Connection self.old self.new body.now) }
        ensures err { IfErr result (LoginFails C.Connection self.old self.new body.now) }
    {
        let answer = self.talk(alloc, Endpoint::Login, body)?;
        let token = read_login(alloc, answer.status, &answer.body)?;
        self.token = Some(token);
        Ok(())
    }

    // Logs the user in, if there is one and no token.
    #[tactic(auto, using(crate::proofs::SessionLemmas::token_there, crate::proofs::SessionLemmas::nobody, crate::proofs::SessionLemmas::no_login_message))]
    fn get_token(&mut self, alloc: Global) -> Result<(), CallFault>
        ensures ok { OnOk result (GetsToken C.Connection self.old self.new) }
        ensures err { IfErr result (TokenFails C.Connection self.old self.new) }
    {
        if self.token.is_some() {
            return Ok(());
        }
        match login_text(alloc, self.user.as_ref())? {
            Some(text) => self.log_in(alloc, text.as_str()),
            None => Ok(()),
        }
    }

    // Sends a message as the user, if there is one, and returns its answer.
    fn send(&mut self, alloc: Global, endpoint: Endpoint, body: &str) -> Result<Answer, CallFault>
        ensures ok { IfOk result (λ answer. SendsAsUser C.Connection self.old self.new endpoint body.now answer.status answer.body.items) }
        ensures err { IfErr result (SendFails C.Connection self.old self.new endpoint body.now) }
    {
        self.get_token(alloc)?;
        self.talk(alloc, endpoint, body)
    }

    // Returns whether an answer with this status refuses the token of the user.
    fn is_refused(&self, status: u16) -> bool
        ensures { result ≡ is_refused self.now status }
    {
        status == 401 && self.user.is_some()
    }

    /// Sends a message, and returns its answer. If the token is refused, logs the user in again, and sends it once more.
    #[tactic(auto, using(crate::proofs::SessionLemmas::asked_at_once))]
    pub fn ask(
        &mut self,
        alloc: Global,
        endpoint: Endpoint,
        body: &str,
    ) -> Result<Answer, CallFault>
        ensures ok { IfOk result (λ answer. Asks C.Connection self.old self.new endpoint body.now answer.status answer.body.items) }
        ensures err { IfErr result (AskFails C.Connection self.old self.new endpoint body.now) }
    {
        let answer = self.send(alloc, endpoint, body)?;
        if !self.is_refused(answer.status) {
            return Ok(answer);
        }
        self.token = None;
        self.send(alloc, endpoint, body)
    }
}
