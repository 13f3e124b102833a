//! The answer of the switch: ports in port order.
//!
//! The first `count` entries of `ports` are the targets; the entries behind them are 0.

ghost use Rattle.std.specs.Prelude.{◌≤◌};
ghost use Rattle.vmx_switch.specs.declared.answer.TheConstants.{MAX_PORTS};

/// The most ports that a switch has, and so the most targets of a frame (own to this project).
pub const MAX_PORTS: usize = 16;

/// The ports that a frame goes to.
#[derive(Clone, Copy, Debug, PartialEq, Eq)]
pub struct Targets {
    /// The number of targets, 0 to 16.
    pub count: u32,

    /// The targets' numbers, rising, and 0 from `count` on.
    pub ports: [u32; MAX_PORTS],

    pub ghost few: { count ≤ MAX_PORTS },
}
