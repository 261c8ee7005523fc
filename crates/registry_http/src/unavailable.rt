//! The responses of status 503. They are constants, so they need no memory.

ghost use Rattle.std.specs.Prelude.{◌≡◌};
ghost use Rattle.registry_http.specs.Responses.{response_bytes, unavailable_response, no_memory_bytes, store_fault_bytes};

/// The reason why the registry cannot be asked.
#[derive(Clone, Copy, Debug, PartialEq, Eq)]
pub enum Unavailable {
    /// The store failed.
    StoreFault,
    /// Out of memory.
    NoMemory,
}

fn no_memory_text() -> &'static str
    ensures { result.now ≡ no_memory_bytes }
{
    "HTTP/1.1 503 Service Unavailable\r\ncontent-type: application/json\r\ncontent-length: 33\r\nconnection: close\r\n\r\n{\"name\":\"NoMemory\",\"refused\":31}\n"
}

fn store_fault_text() -> &'static str
    ensures { result.now ≡ store_fault_bytes }
{
    "HTTP/1.1 503 Service Unavailable\r\ncontent-type: application/json\r\ncontent-length: 35\r\nconnection: close\r\n\r\n{\"name\":\"StoreFault\",\"refused\":30}\n"
}

/// Returns the whole response.
#[tactic(auto, unfolding(crate::specs::Responses::no_memory_bytes, crate::specs::Responses::store_fault_bytes))]
pub(crate) fn unavailable_text(why: Unavailable) -> &'static str
    ensures { result.now ≡ response_bytes (unavailable_response why) }
{
    match why {
        Unavailable::StoreFault => store_fault_text(),
        Unavailable::NoMemory => no_memory_text(),
    }
}
