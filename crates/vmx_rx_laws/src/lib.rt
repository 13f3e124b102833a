//! What the rule of a receive queue's table says between any two steps of any schedule, for every queue of words, whichever way
//! its visible completions are told: each function does nothing, and its contract is the law.
#![tactic(auto)]

ghost use Rattle.vmx_rx_laws.specs.Laws.{OneOwner, CompletedOnce, VisibleAllOrNone, NeverOverrun, ReceivedBegins};

use vmx_rx_ring::TellsVisible;

/// A buffer that is out of its slot is with the device or with the driver, and never with both.
pub fn a_buffer_has_one_owner<C: TellsVisible>()
    ensures law { OneOwner C.counted }
{}

/// No descriptor is completed twice for one post.
pub fn a_descriptor_is_completed_at_most_once_a_post<C: TellsVisible>()
    ensures law { CompletedOnce C.counted }
{}

/// The completions of a frame are visible all or none.
pub fn a_frames_completions_are_visible_all_or_none<C: TellsVisible>()
    ensures law { VisibleAllOrNone C.counted }
{}

/// Visible completions are at most those that were read and the size of their ring.
pub fn completions_are_never_overrun<C: TellsVisible>()
    ensures law { NeverOverrun C.counted }
{}

/// The received frames begin the delivered ones.
pub fn received_begins_delivered<C: TellsVisible>()
    ensures law { ReceivedBegins C.counted }
{}
