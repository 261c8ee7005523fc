//! The host to which requests are sent.

ghost use Rattle.std.specs.Prelude.{◌≡◌, true, false, IfOk, IfNone, IfSome, string_bytes};
ghost use Rattle.std.specs.List.{list_all};
ghost use Rattle.etcd_messages.specs.Visible.{is_visible};
ghost use Rattle.etcd_client.specs.Hosts.{is_host};

use std::alloc::Global;
use std::marker::Model;
use usbnum_core::NoMemory;

/// The host to which requests are sent, with its port if it is not 80: visible ASCII characters. A
/// contract sees its bytes.
#[derive(Debug, Drop)]
pub struct Host {
    text: String,
}

impl Model for Host {
    ghost use Rattle.std.specs.Prelude.{◌≡◌, true, List, ℕ};
    ghost use Rattle.std.specs.String.{string_bytes};
    ghost use Rattle.etcd_client.specs.Hosts.{is_host};

    ghost Value = { List ℕ };

    ghost view = { λ a. string_bytes a.text };

    ghost invariant = { λ a. is_host (string_bytes a.text) ≡ true };
}

fn is_visible(b: u8) -> bool
    ensures { result ≡ is_visible b }
{
    matches!(b, b'!'..=b'~')
}

fn are_visible(text: &[u8]) -> bool
    ensures { result ≡ list_all is_visible text.now }
{
    text.iter().all(|b| is_visible(*b))
}

fn is_host(text: &[u8]) -> bool
    ensures { result ≡ is_host text.now }
{
    !text.is_empty() && are_visible(text)
}

impl Host {
    ghost use Rattle.std.specs.Prelude.{◌≡◌, true, false, IfOk, IfNone, IfSome};
    ghost use Rattle.etcd_client.specs.Hosts.{is_host};

    /// Returns this text as a host, if it has visible ASCII characters alone, and one of them.
    pub fn new(alloc: Global, text: &str) -> Result<Option<Host>, NoMemory>
        ensures some { IfOk result (λ found. IfSome found (λ host. host ≡ text.now)) }
        ensures none { IfOk result (λ found. IfNone found (is_host text.now ≡ false)) }
    {
        if is_host(text.as_bytes()) {
            let text = String::from_str(alloc, text)?;
            Ok(Some(Host { text }))
        } else {
            Ok(None)
        }
    }

    /// Returns the text.
    pub fn as_str(&self) -> &str
        ensures text { result.now ≡ self.now }
        ensures host { is_host self.now ≡ true }
    {
        self.text.as_str()
    }
}
