//! Exchanges a request and its answer.

ghost use Rattle.std.specs.Prelude.{IfOk, IfErr};
ghost use Rattle.http_exchange.specs.Exchanges.{GetsAnswer, GetsNoAnswer, IsExchange, ExchangeFails};

use crate::connection::Connection;
use crate::fault::ExchangeFault;
use crate::reading::{Answer, read_answer};
use crate::sending::send;
use std::alloc::Global;

// Sends a request, and reads its answer.
#[tactic(auto, using(crate::proofs::CallLemmas::read_after, crate::proofs::CallLemmas::answered))]
fn answer_to<C: Connection>(
    alloc: Global,
    connection: &mut C,
    kept: bool,
    request: &[u8],
) -> Result<Answer, ExchangeFault>
    ensures ok { IfOk result (λ answer. GetsAnswer C.Connection kept connection.old request.now connection.new answer.status answer.body.items answer.keeps) }
    ensures err { IfErr result (GetsNoAnswer C.Connection kept connection.old request.now connection.new) }
{
    send(connection, kept, request)?;
    read_answer(alloc, connection)
}

/// Sends a request once, on the connection if it is kept, or else on a new one, and reads its answer.
/// Closes the connection unless another request may be sent on it.
#[tactic(auto, using(crate::proofs::CallLemmas::left_kept, crate::proofs::CallLemmas::left_closed, crate::proofs::CallLemmas::failed))]
pub fn exchange<C: Connection>(
    alloc: Global,
    connection: &mut C,
    kept: bool,
    request: &[u8],
) -> Result<Answer, ExchangeFault>
    ensures ok { IfOk result (λ answer. IsExchange C.Connection kept connection.old request.now connection.new answer.status answer.body.items answer.keeps) }
    ensures err { IfErr result (ExchangeFails C.Connection kept connection.old request.now connection.new) }
{
    match answer_to(alloc, connection, kept, request) {
        Ok(answer) => {
            if answer.keeps {
                return Ok(answer);
            }
            connection.close();
            Ok(answer)
        }
        Err(fault) => {
            connection.close();
            Err(fault)
        }
    }
}
