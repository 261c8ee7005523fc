//! A law of answers in HTTP/1.1. Its body is empty.

ghost use Rattle.http_exchange.specs.Answers.{SaysOneThing};

/// The bytes that come have one answer: one status, one body, and whether the connection may be kept.
pub fn says_one_thing()
    ensures { SaysOneThing }
{}
