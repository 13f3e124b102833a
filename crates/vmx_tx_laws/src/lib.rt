//! What the rule of a transmit ring's table says between any two steps of any schedule, for every queue of words, whichever way
//! its completed frames are told: each function does nothing, and its contract is the law.
#![tactic(auto)]

ghost use Rattle.vmx_tx_laws.specs.Laws.{OneOwner, TakenBegins, AtMostOnce, CompletedOnce, NeverOverrun, NeverOverwritten};

use vmx_tx_ring::TellsCompletions;

/// A buffer that is out of its slot is out with one end alone.
pub fn a_buffer_has_one_owner<C: TellsCompletions>()
    ensures law { OneOwner C.told }
{}

/// The taken frames begin the sent ones.
pub fn taken_begins_sent<C: TellsCompletions>()
    ensures law { TakenBegins C.told }
{}

/// Of the taken frames a first part is completed, and of that a first part is reaped: a frame is completed and reaped at most
/// once, in the order in which frames were sent.
pub fn a_frame_is_completed_and_reaped_at_most_once<C: TellsCompletions>()
    ensures law { AtMostOnce C.told }
{}

/// Two completed frames have no position in common, and a position is one post of a descriptor.
pub fn a_descriptor_is_completed_at_most_once_a_post<C: TellsCompletions>()
    ensures law { CompletedOnce C.told }
{}

/// Completed frames are at most those that were reaped and the size of the ring.
pub fn completions_are_never_overrun<C: TellsCompletions>()
    ensures law { NeverOverrun C.told }
{}

/// Descriptors that are published or staged are at most those that were given back and the size of the ring.
pub fn descriptors_are_never_overwritten<C: TellsCompletions>()
    ensures law { NeverOverwritten C.told }
{}
