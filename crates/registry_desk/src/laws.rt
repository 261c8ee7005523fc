//! Laws of responses.

ghost use Rattle.registry_desk.specs.Acting.{HasOneResponse};
ghost use Rattle.registry_desk.specs.Server.{LeavesAnswered};

/// Proves that a history has one response to what a message says; to a query for its record or for a
/// petition, if the requests in it have valid fields. With `registry_http::says_one_thing` the response follows
/// from the history and the bytes alone, however they were cut.
pub fn has_one_response()
    ensures { HasOneResponse }
{}

/// Proves that what a crash leaves after a server holds each message whose response was written
/// whole with a status other than 503.
pub fn leaves_answered()
    ensures { LeavesAnswered }
{}
