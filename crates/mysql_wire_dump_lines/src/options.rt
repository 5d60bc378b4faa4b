//! How a session is shown, and which directions of it.

use crate::lines::LineForm;

/// How a session is shown.
#[derive(Clone, Copy)]
pub struct Options {
    pub form: LineForm,
    /// Whether packets are shown with their fields.
    pub has_fields: bool,
    /// The most payload bytes of a packet that is not passed over.
    pub limit: usize,
}

/// Which directions are shown.
#[derive(Clone, Copy)]
pub enum Sides {
    Client,
    Server,
    Both,
}
