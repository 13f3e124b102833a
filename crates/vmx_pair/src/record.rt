//! What a run of `pair` tells of its frames.

use vmx_io::List;
use vmx_model::{Fate, Received};

/// A fate for each frame that guest `a` captured, in order, and the frames that guest `b` handed up, in order.
#[derive(Drop)]
pub struct Record {
    pub fates: List<Fate>,
    pub received: List<Received>,
}
