//! The parts of a line.
ghost use Rattle.std.specs.Prelude.{◌≡◌, ◌≤◌, ◌<◌, IfSome, is_some, length, drop, not, position};
ghost use Rattle.usbnum_core.specs.Number.{hex_value};
ghost use Rattle.usbids_text.specs.Words.{is_separator, is_tail, before, trimmed, word, after_word, past_separators, number_from, code_in, is_four, ends_word, HasFour};

/// Returns whether the byte is a space or a tab.
pub fn is_separator(b: u8) -> bool
    ensures { result ≡ is_separator b }
{
    b == b' ' || b == b'\t'
}

/// Returns whether the byte is dropped at the end of a line.
pub fn is_tail(b: u8) -> bool
    ensures { result ≡ is_tail b }
{
    is_separator(b) || b == b'\r'
}

fn first_separator(bytes: &[u8]) -> Option<usize>
    ensures value { result ≡ position is_separator bytes.now }
    ensures within { IfSome result (λ i. i < length bytes.now) }
{
    bytes.iter().position(|b| is_separator(*b))
}

fn first_other(bytes: &[u8]) -> Option<usize>
    ensures value { result ≡ position (λ b. not (is_separator b)) bytes.now }
    ensures within { IfSome result (λ i. i < length bytes.now) }
{
    bytes.iter().position(|b| !is_separator(*b))
}

#[tactic(auto, unfolding(crate::specs::Words::before))]
fn separator_at(bytes: &[u8]) -> usize
    ensures value { result ≡ before is_separator bytes.now }
    ensures within { result ≤ length bytes.now }
{
    match first_separator(bytes) {
        Some(i) => i,
        None => bytes.len(),
    }
}

#[tactic(auto, unfolding(crate::specs::Words::before))]
fn word_at(bytes: &[u8]) -> usize
    ensures value { result ≡ before (λ b. not (is_separator b)) bytes.now }
    ensures within { result ≤ length bytes.now }
{
    match first_other(bytes) {
        Some(i) => i,
        None => bytes.len(),
    }
}

/// Returns the bytes up to the first separator.
#[tactic(auto, unfolding(crate::specs::Words::word))]
pub fn word(bytes: &[u8]) -> &[u8]
    ensures { result.now ≡ word bytes.now }
{
    &bytes[..separator_at(bytes)]
}

/// Returns the bytes from the first that is not a separator.
pub fn past_separators(bytes: &[u8]) -> &[u8]
    ensures { result.now ≡ past_separators bytes.now }
{
    &bytes[word_at(bytes)..]
}

/// Returns the bytes after the first word and the separators that follow it.
#[tactic(auto, unfolding(crate::specs::Words::after_word))]
pub fn after_word(bytes: &[u8]) -> &[u8]
    ensures { result.now ≡ after_word bytes.now }
{
    past_separators(&bytes[separator_at(bytes)..])
}

/// Returns the line without separators and carriage returns at its end.
pub fn trimmed(line: &[u8]) -> &[u8]
    ensures { result.now ≡ trimmed line.now }
{
    let mut kept = line;
    while let [front @ .., last] = kept {
        if !is_tail(*last) {
            break;
        }
        kept = front;
    }
    kept
}

fn hex_digit(byte: u8) -> Option<u8>
    ensures value { result ≡ hex_value byte }
    ensures small { IfSome result (λ d. d < 16) }
{
    match byte {
        b'0'..=b'9' => Some(byte - b'0'),
        b'a'..=b'f' => Some(byte - b'a' + 10),
        b'A'..=b'F' => Some(byte - b'A' + 10),
        _ => None,
    }
}

// Returns the value of at most four digits.
fn number_of(bytes: &[u8]) -> Option<u16>
    requires { length bytes.now ≤ 4 }
    ensures { result ≡ number_from 0 bytes.now }
{
    let mut number = 0u16;
    for b in bytes {
        match hex_digit(*b) {
            Some(digit) => number = number * 16 + u16::from(digit),
            None => return None,
        }
    }
    Some(number)
}

/// Returns the value of one to four hexadecimal digits.
#[tactic(auto, unfolding(crate::specs::Words::code_in))]
pub fn code_in(bytes: &[u8]) -> Option<u16>
    ensures value { result ≡ code_in bytes.now }
    ensures short { IfSome result (λ _. length bytes.now ≤ 4) }
{
    if bytes.is_empty() || bytes.len() > 4 {
        return None;
    }
    number_of(bytes)
}

/// Returns whether the bytes are four hexadecimal digits.
#[tactic(auto, unfolding(crate::specs::Words::is_four))]
pub fn is_four(bytes: &[u8]) -> bool
    ensures { result ≡ is_four bytes.now }
{
    bytes.len() == 4 && code_in(bytes).is_some()
}

fn ends_word(bytes: &[u8]) -> bool
    ensures { result ≡ ends_word bytes.now }
{
    match bytes {
        [] => true,
        [b, ..] => is_separator(*b),
    }
}

/// Returns the bytes after the first four.
pub fn past_four(bytes: &[u8]) -> &[u8]
    requires { 4 ≤ length bytes.now }
    ensures { result.now ≡ drop 4 bytes.now }
{
    &bytes[4..]
}

/// Returns the value of the first word if it is four hexadecimal digits. It looks at no byte after
/// the fifth.
#[inline(always)]
pub fn four_at(bytes: &[u8]) -> Option<u16>
    ensures is { is_some result ≡ is_four (word bytes.now) }
    ensures found { IfSome result (HasFour bytes.now) }
{
    if bytes.len() < 4 {
        return None;
    }
    if !ends_word(past_four(bytes)) {
        return None;
    }
    number_of(&bytes[..4])
}
