//! What the rule says of the ring of completions between any two steps: the function does nothing, and its contract is the
//! law. The laws of every transmit queue of words stand in `vmx_tx_laws`.
ghost use Rattle.vmx_txq.specs.Laws.{OneCompletion};

/// A completion that is visible and not read is that of one frame, and no other one has its index.
pub fn completions_tell_one_frame_each()
    ensures law { OneCompletion }
{}
