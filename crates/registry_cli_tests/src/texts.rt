//! Lines, messages and their answers, and how they are compared.

/// Adds bytes that are a text.
pub fn add_bytes(bytes: &[u8], text: &mut String) -> bool {
    match std::str::from_utf8(bytes) {
        Ok(part) => text.push_str(part).is_ok(),
        Err(_) => false,
    }
}

/// Adds nothing if the text is the wanted one, and otherwise both.
pub fn compare(what: &str, got: &str, wanted: &str, seen: &mut String) -> bool {
    got == wanted || writeln!(seen, "{what}: {got:?}, where {wanted:?} is wanted").is_ok()
}

pub const ENROL_LINE: &str =
    r#"{"caller":"ann","key":"k1","order":"enrol","org":"acme","title":"Acme Tools","site":"https://acme.example/"}"#;

pub const ENROLLED_LINE: &str = "{\"done\":\"enrolled acme\"}\n";

pub const ENROL: &[u8] =
    b"POST /commands HTTP/1.1\r\nhost: localhost\r\nregistry-caller: ann\r\nregistry-key: k1\r\ncontent-length: 82\r\n\r\n{\"order\":\"enrol\",\"org\":\"acme\",\"title\":\"Acme Tools\",\"site\":\"https://acme.example/\"}";

pub const ENROLLED: &str =
    "HTTP/1.1 200 OK\r\ncontent-type: application/json\r\ncontent-length: 25\r\nconnection: close\r\n\r\n{\"done\":\"enrolled acme\"}\n";

pub const FIND_ACME: &[u8] = b"GET /orgs/acme HTTP/1.1\r\n\r\n";

pub const ACME: &str =
    "HTTP/1.1 200 OK\r\ncontent-type: application/json\r\ncontent-length: 82\r\nconnection: close\r\n\r\n{\"keeper\":\"ann\",\"org\":\"acme\",\"site\":\"https://acme.example/\",\"title\":\"Acme Tools\"}\n";

pub const NO_ORG: &str =
    "HTTP/1.1 404 Not Found\r\ncontent-type: application/json\r\ncontent-length: 29\r\nconnection: close\r\n\r\n{\"name\":\"NoOrg\",\"refused\":4}\n";
