//! What a client knows, as a password.

ghost use Rattle.std.specs.Prelude.{◌≡◌, ℕ, List, IfOk};

use std::alloc::{AllocError, Global};

/// What answers the data of an authentication plugin. How, only the plugin says: of
/// `mysql_native_password` it is twenty bytes made of a password's hash and the data.
///
/// <https://dev.mysql.com/doc/dev/mysql-server/latest/page_protocol_connection_phase_authentication_methods.html>
pub trait Secret {
    /// The answer to a plugin of this name, and to its data.
    ghost answer_of: { Self → List ℕ → List ℕ → List ℕ };

    fn answer(
        &self,
        alloc: Global,
        plugin: &[u8],
        plugin_data: &[u8],
    ) -> Result<Vec<u8>, AllocError>
        ensures { IfOk result
            (λ answer. answer.items ≡ answer_of self.now plugin.now plugin_data.now) };
}
