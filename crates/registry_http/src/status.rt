//! The status of a response.

ghost use Rattle.std.specs.Prelude.{◌≡◌};
ghost use Rattle.registry_http.specs.Statuses.{wire_status, refusal_status, rule_status, reply_status};

use crate::refusal::HttpRefusal;
use http::StatusCode;
use registry_rules::{Refusal, Reply};
use registry_wire::WireRefusal;

/// Returns the status of a refusal by the rules.
fn rule_status(refusal: &Refusal) -> StatusCode
    ensures { result ≡ rule_status refusal.now }
{
    match refusal {
        Refusal::NotCurator | Refusal::NotKeeper => StatusCode::FORBIDDEN,
        Refusal::NoOrg | Refusal::NoPetition | Refusal::NoVendor => StatusCode::NOT_FOUND,
        Refusal::LicenceUnknown | Refusal::ImportTooLong => StatusCode::UNPROCESSABLE_ENTITY,
        _ => StatusCode::CONFLICT,
    }
}

/// Returns the status of a reply.
pub(crate) fn reply_status(reply: &Reply) -> StatusCode
    ensures { result ≡ reply_status reply.now }
{
    match reply {
        Reply::Done(_) => StatusCode::OK,
        Reply::Refused(refusal) => rule_status(refusal),
    }
}

/// Returns the status of a refusal of a body.
fn wire_status(refusal: WireRefusal) -> StatusCode
    ensures { result ≡ wire_status refusal }
{
    match refusal {
        WireRefusal::BadJson => StatusCode::BAD_REQUEST,
        WireRefusal::BadField(_) => StatusCode::UNPROCESSABLE_ENTITY,
        WireRefusal::BadList(_) => StatusCode::UNPROCESSABLE_ENTITY,
        WireRefusal::BadFounding(_) => StatusCode::UNPROCESSABLE_ENTITY,
    }
}

/// Returns the status of a refusal before the rules.
pub(crate) fn refusal_status(refusal: HttpRefusal) -> StatusCode
    ensures { result ≡ refusal_status refusal }
{
    match refusal {
        HttpRefusal::BadHead => StatusCode::BAD_REQUEST,
        HttpRefusal::BadLength => StatusCode::LENGTH_REQUIRED,
        HttpRefusal::TooLarge => StatusCode::PAYLOAD_TOO_LARGE,
        HttpRefusal::ShortBody => StatusCode::BAD_REQUEST,
        HttpRefusal::NoRoute => StatusCode::NOT_FOUND,
        HttpRefusal::WrongMethod(_) => StatusCode::METHOD_NOT_ALLOWED,
        HttpRefusal::BadHeader(_) => StatusCode::BAD_REQUEST,
        HttpRefusal::StoreFault => StatusCode::SERVICE_UNAVAILABLE,
        HttpRefusal::NoMemory => StatusCode::SERVICE_UNAVAILABLE,
        HttpRefusal::Wire(refusal) => wire_status(refusal),
    }
}
