//! A log that etcd keeps, as a [`Log`](shared_log::Log), over any connection in HTTP/1.1.
//!
//! [`EtcdLog`] sends the requests of `etcd_messages` over a
//! [`Connection`](http_exchange::Connection), and reads their answers. Its contracts say which
//! messages a call sends, in their order, and what it returns (`Appends`, `ReadsPage`, `LooksAt`).
//! Of the log a call changes the connection, whether it is kept, the token and, if the call fails,
//! the fault.
//!
//! A message is one exchange of `http_exchange` (`Talks`), on the connection that is kept, or on a
//! new one. Its bytes are those of `request_text`: a post to the path of the endpoint, with the
//! host, the token if there is one, and a body in JSON. The connection is kept if the exchange
//! keeps it, and not after an exchange that fails (`TalkFails`).
//!
//! If there is a user and no token, the user is logged in first, and the token in the answer is
//! kept (`GetsToken`, `LogsIn`). If the answer to the message has status 401 and there is a user,
//! the token is forgotten, the user is logged in again, and the message is sent once more (`Asks`,
//! `IsRefused`). It is not sent again for any other reason, and never a third time.
//!
//! What a call returns is read in the last answer alone: it is what `append_reading`,
//! `page_reading` or `log_head_reading` of `etcd_messages` gives for the status and the body of
//! that answer (`Gets`).
//!
//! A call that returns no value has a fault, which says why (`GetsNone`, `AskFails`):
//!
//! - `NoMemory` if memory ran out;
//! - that of an exchange, for the message or a login (`TalkFails`, `message_fault`);
//! - `Answer` with the first fault of the last answer, or of the answer to a login
//!   (`HasAnswerFault`).
//!
//! [`EtcdLog::fault`] returns the fault of the last call that failed. The error of that call is
//! what this fault is for one who uses the log (`Fails`, `log_fault`):
//!
//! - `Unreachable` if the connection was not made, failed, or ended before the answer did;
//! - `Refused` if etcd refused the token (401), the request (403) or the login (400);
//! - `NoQuorum` if etcd had no quorum (503);
//! - `BadAnswer` if what came is no answer in HTTP/1.1, or not one to the request;
//! - `NoMemory` if memory ran out.
//!
//! After an append that failed the line may have been taken, or may be taken later. No contract
//! says that etcd is at the other end, that it reads a message as its request, or that it keeps
//! what it said (`KeepsLines` of `shared_log`). Nor does one say how long a call takes: each call of
//! the connection has a limit, and a message has none.
#![tactic(auto)]

mod calls;
mod fault;
mod host;
mod log;
mod request;
mod session;
mod user;

pub use fault::CallFault;
pub use host::Host;
pub use log::EtcdLog;
pub use user::User;
