//! Digests: what tells a text from another by 64 digits.

ghost use Rattle.std.specs.Prelude.{◌↔◌, IsTrue};
ghost use Rattle.usbnum_core.specs.Text.{IsDigest, IsDigestByte};
ghost use Rattle.usbnum_core.specs.Utf8.{digest_is_utf8};

use crate::{Text, TextRule};

/// A digest of 256 bits: 64 bytes of 0-9 and a-f.
pub type Digest = Text<DigestRule>;

/// The rule of [`Digest`].
#[derive(Drop)]
pub enum DigestRule {}

fn is_digest_byte(byte: u8) -> bool
    ensures { IsTrue result ↔ IsDigestByte byte }
{
    matches!(byte, b'0'..=b'9' | b'a'..=b'f')
}

impl TextRule for DigestRule {
    ghost IsValid = { IsDigest };

    ghost valid_is_utf8 = { digest_is_utf8 };

    fn accepts(bytes: &[u8]) -> bool {
        bytes.len() == 64 && bytes.iter().all(|byte| is_digest_byte(*byte))
    }
}
