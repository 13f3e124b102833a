//! The two links between a device and another port.

#[derive(Clone, Copy, Debug, PartialEq, Eq)]
pub enum LinkSide {
    Out,
    In,
}
