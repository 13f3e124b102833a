//! What a configuration asks for: a plan, and the names of its guests' captures.

use vmx_io::{List, Text};
use vmx_model::Plan;

/// A configuration: the plan, in which every capture is still empty, and which capture each guest sends.
#[derive(Drop)]
pub struct Config {
    pub plan: Plan,
    /// The name of each guest's capture, in the order of the plan's guests; none: it sends nothing.
    pub captures: List<Option<Text>>,
}
