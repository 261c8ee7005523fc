//! Cuts a piece of a text into lines.
ghost use Rattle.std.specs.Prelude.{◌≡◌, ◌+◌, ◌<◌, ◌==◌, length, take, drop, position, IfSome, IfNone, IsTrue};
ghost use Rattle.std.specs.List.{list_all};
ghost use Rattle.usbids_text.specs.Words.{is_inner};

use memchr::memchr;

fn first_feed(bytes: &[u8]) -> Option<usize>
    ensures value { result ≡ position (λ b. b == 10) bytes.now }
    ensures within { IfSome result (λ i. i < length bytes.now) }
{
    memchr(b'\n', bytes)
}

/// Returns the position of the first line feed.
pub fn line_feed(bytes: &[u8]) -> Option<usize>
    ensures value { result ≡ position (λ b. b == 10) bytes.now }
    ensures within { IfSome result (λ i. i < length bytes.now) }
    ensures inner { IfSome result (λ i. IsTrue (list_all is_inner (take i bytes.now))) }
    ensures none { IfNone result (IsTrue (list_all is_inner bytes.now)) }
{
    first_feed(bytes)
}

/// Returns the bytes after position `i`.
pub fn past(bytes: &[u8], i: usize) -> &[u8]
    requires { i < length bytes.now }
    ensures value { result.now ≡ drop (i + 1) bytes.now }
    ensures shorter { length result.now < length bytes.now }
{
    &bytes[i + 1..]
}

/// Returns the bytes before position `i`.
pub fn front(bytes: &[u8], i: usize) -> &[u8]
    requires { i < length bytes.now }
    ensures { result.now ≡ take i bytes.now }
{
    &bytes[..i]
}
