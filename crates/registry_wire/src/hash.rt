//! The hash of a line of a record.

ghost use Rattle.std.specs.Prelude.{◌≡◌, ◌++◌, ◌∷◌, []};
ghost use Rattle.sha2.specs.Sha256.{sha256};

use sha2::{Digest, Sha256};

// SHA-256 of the text before a line, and the line with its line feed.
pub(crate) fn line_hash(before: &str, line: &str) -> [u8; 32]
    ensures { result ≡ sha256 (before.now ++ line.now ++ 10 ∷ []) }
{
    let mut hasher = Sha256::new();
    hasher.update(before);
    hasher.update(line);
    hasher.update("\n");
    hasher.finalize()
}
