//! Finds and reads the fields of a head.

ghost use Rattle.std.specs.Prelude.{◌≡◌, ◌≤◌, true, All, length, map, option_copied};
ghost use Rattle.httparse.specs.Spans.{IsHeaderWithin, header_bytes};
ghost use Rattle.registry_http.specs.Fields.{is_same_name, values_of, only, length_of, decimal_from, is_digit};
ghost use Rattle.std.specs.List.{list_all, list_any};

use httparse::spans::HeaderSpan;

/// The most digits of a number in a head.
const MOST_DIGITS: usize = 10;

fn is_same_name(name: &[u8], other: &[u8]) -> bool
    ensures { result ≡ is_same_name name.now other.now }
{
    other.eq_ignore_ascii_case(name)
}

/// Returns the value of the only field with this name, or `None` if there is no field or more than
/// one.
pub(crate) fn only_value<'b>(
    buffer: &'b [u8],
    spans: &[HeaderSpan],
    name: &[u8],
) -> Option<&'b [u8]>
    requires { All (IsHeaderWithin (length buffer.now)) spans.now }
    ensures { option_copied result ≡ only (values_of name.now (map (header_bytes buffer.now) spans.now)) }
{
    let mut found: Option<&[u8]> = None;
    for span in spans {
        if is_same_name(name, span.name.of(buffer)) {
            if found.is_some() {
                return None;
            }
            found = Some(span.value.of(buffer));
        }
    }
    found
}

/// Returns whether a field has this name.
pub(crate) fn has_field(buffer: &[u8], spans: &[HeaderSpan], name: &[u8]) -> bool
    requires { All (IsHeaderWithin (length buffer.now)) spans.now }
    ensures { result ≡ list_any (λ field. is_same_name name.now field.0) (map (header_bytes buffer.now) spans.now) }
{
    for span in spans {
        if is_same_name(name, span.name.of(buffer)) {
            return true;
        }
    }
    false
}

fn is_digit(b: u8) -> bool
    ensures { result ≡ is_digit b }
{
    b.is_ascii_digit()
}

fn are_digits(bytes: &[u8]) -> bool
    ensures { result ≡ list_all is_digit bytes.now }
{
    bytes.iter().all(|b| is_digit(*b))
}

/// Returns the value of at most `MOST_DIGITS` digits.
fn number_of(digits: &[u8]) -> u64
    requires few { length digits.now ≤ MOST_DIGITS }
    requires digits { list_all is_digit digits.now ≡ true }
    ensures { result ≡ decimal_from 0 digits.now }
{
    let mut number = 0;
    for b in digits {
        number = number * 10 + u64::from(*b - b'0');
    }
    number
}

/// Returns the value of one to `MOST_DIGITS` digits, or None for any other text.
pub(crate) fn length_of(text: &[u8]) -> Option<u64>
    ensures { result ≡ length_of text.now }
{
    if text.is_empty() || text.len() > MOST_DIGITS || !are_digits(text) {
        return None;
    }
    Some(number_of(text))
}
