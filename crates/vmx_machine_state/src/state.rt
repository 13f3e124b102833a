//! The two states of a device by name.

/// Whether a device is activated.
#[derive(Clone, Copy, Debug, PartialEq, Eq)]
pub enum State {
    Idle,
    Active,
}
