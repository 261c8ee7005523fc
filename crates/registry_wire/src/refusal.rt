//! The refusals of input that come before the rules.

ghost use Rattle.std.specs.Prelude.{◌≡◌, IfOk, Some};
ghost use Rattle.registry_wire.specs.Names.{fault_name};
ghost use Rattle.registry_wire.specs.Replies.{wire_refusal_text};

use crate::Field;
use registry_rules::ReplyText;
use std::alloc::Global;
use std::error::Error;
use std::fmt;
use usbids_text::LineFault;
use usbnum_core::NoMemory;

/// The reason why a text from outside is not acted on. The refusals of the rules are
/// `registry_rules::Refusal`, and those of an HTTP message are `registry_http::HttpRefusal`.
#[derive(Clone, Copy, Debug, PartialEq, Eq)]
pub enum WireRefusal {
    /// The bytes are not a JSON object.
    BadJson,
    /// A field is missing or not a value of its kind; the first such field.
    BadField(Field),
    /// A list of USB numbers has a faulty line; the first such line.
    BadList(LineFault),
    /// A founding file is not TOML, or a key is missing or bad; the first such key.
    BadFounding(FoundingFault),
}

/// The fault of a founding file: the bad key, or bytes that are not TOML.
#[derive(Clone, Copy, Debug, PartialEq, Eq)]
pub enum FoundingFault {
    /// The bytes are not TOML.
    Toml,
    /// The vendor ID of the registry.
    Vendor,
    /// The name of its vendor.
    Name,
    /// The slugs of the curators.
    Curators,
    /// The licences that are allowed.
    Licences,
    /// The product IDs that are reserved for good.
    Fixed,
}

impl FoundingFault {
    ghost use Rattle.std.specs.Prelude.{◌≡◌};
    ghost use Rattle.registry_wire.specs.Names.{fault_name};

    /// Returns the bad key, or `toml`.
    pub fn name(self) -> &'static str
        ensures { result.now ≡ fault_name self }
    {
        match self {
            FoundingFault::Toml => "toml",
            FoundingFault::Vendor => "vendor",
            FoundingFault::Name => "name",
            FoundingFault::Curators => "curators",
            FoundingFault::Licences => "licences",
            FoundingFault::Fixed => "fixed",
        }
    }
}

impl WireRefusal {
    ghost use Rattle.std.specs.Prelude.{◌≡◌, IfOk};
    ghost use Rattle.registry_wire.specs.Replies.{wire_refusal_number, wire_refusal_name, wire_refusal_detail};

    /// Returns the refusal's number.
    pub fn number(self) -> u8
        ensures { result ≡ wire_refusal_number self }
    {
        match self {
            WireRefusal::BadJson => 27,
            WireRefusal::BadField(_) => 28,
            WireRefusal::BadList(_) => 29,
            WireRefusal::BadFounding(_) => 32,
        }
    }

    /// Returns the refusal's name.
    pub fn name(self) -> &'static str
        ensures { result.now ≡ wire_refusal_name self }
    {
        match self {
            WireRefusal::BadJson => "BadJson",
            WireRefusal::BadField(_) => "BadField",
            WireRefusal::BadList(_) => "BadList",
            WireRefusal::BadFounding(_) => "BadFounding",
        }
    }

    /// Returns the subject of the refusal: the name of the bad field, the line of a list with its
    /// fault, for example `line 2: NoParent`, or the bad key of a founding file.
    pub fn detail(self, alloc: Global) -> Result<Option<ReplyText>, NoMemory>
        ensures { IfOk result (λ detail. detail ≡ wire_refusal_detail self) }
    {
        Ok(match self {
            WireRefusal::BadField(field) => Some(text_of(alloc, field.name())?),
            WireRefusal::BadList(fault) => Some(ReplyText::new(format!(in alloc; "{fault}")?)),
            WireRefusal::BadFounding(fault) => Some(text_of(alloc, fault.name())?),
            WireRefusal::BadJson => None,
        })
    }
}

/// The bad key, or `toml`.
impl fmt::Display for FoundingFault {
    ghost output = { λ fault. Some (fault_name fault) };

    fn fmt<W: fmt::Write>(&self, f: &mut fmt::Formatter<W>) -> fmt::Result {
        f.write_str(self.name())
    }
}

impl Error for FoundingFault {}

/// The name, and after a colon the detail: `BadField: title`.
impl fmt::Display for WireRefusal {
    ghost output = { λ refusal. Some (wire_refusal_text refusal) };

    fn fmt<W: fmt::Write>(&self, f: &mut fmt::Formatter<W>) -> fmt::Result {
        let name = self.name();
        match self {
            WireRefusal::BadField(field) => write!(f, "{name}: {}", field.name()),
            WireRefusal::BadList(fault) => write!(f, "{name}: {fault}"),
            WireRefusal::BadFounding(fault) => write!(f, "{name}: {fault}"),
            WireRefusal::BadJson => f.write_str(name),
        }
    }
}

impl Error for WireRefusal {}

fn text_of(alloc: Global, text: &str) -> Result<ReplyText, NoMemory>
    ensures { IfOk result (λ copy. copy ≡ text.now) }
{
    Ok(ReplyText::new(String::from_str(alloc, text)?))
}
