//! The text of a number: four hexadecimal digits.

ghost use Rattle.std.specs.Prelude.{◌≡◌, ◌*◌, ◌+◌, ◌-◌, ◌/◌, ◌%◌, ◌<◌, Some, All, IfSome};
ghost use Rattle.usbnum_core.specs.Number.{IsId, hex_value, code_of, number_of, lower_hex_digit, digits_of};

fn hex_digit(byte: u8) -> Option<u8>
    ensures value { result ≡ hex_value byte }
    ensures small { IfSome result (λ value. value < 16) }
{
    match byte {
        b'0'..=b'9' => Some(byte - b'0'),
        b'a'..=b'f' => Some(byte - b'a' + 10),
        b'A'..=b'F' => Some(byte - b'A' + 10),
        _ => None,
    }
}

/// Returns the value of exactly four hexadecimal digits of either case, or None for any other text.
pub fn parse_code(text: &[u8]) -> Option<u16>
    ensures { result ≡ code_of text.now }
{
    let [a, b, c, d] = text else {
        return None;
    };
    let first = u16::from(hex_digit(*a)?);
    let second = u16::from(hex_digit(*b)?);
    let third = u16::from(hex_digit(*c)?);
    let fourth = u16::from(hex_digit(*d)?);
    Some(first * 4096 + second * 256 + third * 16 + fourth)
}

fn lower_digit(value: u16) -> u8
    requires { value < 16 }
    ensures { result ≡ lower_hex_digit value }
{
    let value = value as u8;
    if value < 10 {
        b'0' + value
    } else {
        b'a' + (value - 10)
    }
}

/// Returns the four hexadecimal digits of a number, in lower case.
pub fn four_digits(number: u16) -> [u8; 4]
    ensures digits { result ≡ digits_of number }
    ensures ascii { All (λ digit. digit < 128) result }
    ensures reads_back { IsId number → number_of result ≡ Some number }
{
    [
        lower_digit(number / 4096),
        lower_digit(number / 256 % 16),
        lower_digit(number / 16 % 16),
        lower_digit(number % 16),
    ]
}

/// Returns bytes below 128 as a text.
pub fn ascii_text(bytes: &[u8]) -> &str
    requires { All (λ byte. byte < 128) bytes.now }
    ensures { result.now ≡ bytes.now }
{
    match std::str::from_utf8(bytes) {
        Ok(text) => text,
        Err(_) => unreachable!(),
    }
}
