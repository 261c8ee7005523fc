//! The endpoints of etcd that are used.

/// An endpoint of etcd.
#[derive(Clone, Copy, Debug, PartialEq, Eq)]
pub enum Endpoint {
    /// A transaction, which appends a line.
    Append,
    /// A read of lines or of the head.
    Read,
    /// The login of a user.
    Login,
}

impl Endpoint {
    ghost use Rattle.std.specs.Prelude.{◌≡◌};
    ghost use Rattle.etcd_messages.specs.Requests.{endpoint_path};

    /// Returns the path to which its requests are posted.
    pub fn path(self) -> &'static str
        ensures { result.now ≡ endpoint_path self }
    {
        match self {
            Endpoint::Append => "/v3/kv/txn",
            Endpoint::Read => "/v3/kv/range",
            Endpoint::Login => "/v3/auth/authenticate",
        }
    }
}
