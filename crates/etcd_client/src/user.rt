//! A user of etcd.

ghost use Rattle.std.specs.Prelude.{◌≡◌, string_bytes};

use std::marker::Model;

/// The user as whom a log logs in. A contract sees the bytes of the name and of the password.
#[derive(Drop)]
pub struct User {
    name: String,
    password: String,
}

impl Model for User {
    ghost use Rattle.std.specs.Prelude.{List, ℕ};
    ghost use Rattle.std.specs.String.{string_bytes};

    ghost Value = { List ℕ × List ℕ };

    ghost view = { λ a. (string_bytes a.name, string_bytes a.password) };
}

impl User {
    ghost use Rattle.std.specs.Prelude.{◌≡◌, string_bytes};

    /// Returns the user with this name and this password.
    pub fn new(name: String, password: String) -> User
        ensures name { result.0 ≡ string_bytes name }
        ensures password { result.1 ≡ string_bytes password }
    {
        User { name, password }
    }

    /// Returns the name.
    pub fn name(&self) -> &str
        ensures { result.now ≡ self.now.0 }
    {
        self.name.as_str()
    }

    // Returns the password.
    pub(crate) fn password(&self) -> &str
        ensures { result.now ≡ self.now.1 }
    {
        self.password.as_str()
    }
}
