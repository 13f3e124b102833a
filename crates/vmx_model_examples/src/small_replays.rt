//! Small plans, and what becomes of each copy in their serial runs.
ghost use Rattle.std.specs.Prelude.{◌≡◌, ℕ, List, [], ◌∷◌, ◌++◌, map, replicate, Some, None, true, false};
ghost use Rattle.vmx_filters.specs.declared.answer.Rule.TheVariants.{Unicast};
ghost use Rattle.vmx_model.specs.declared.journal.Fate.TheVariants.{Up, Filtered, NoPort};
ghost use Rattle.vmx_model.specs.Serial.{serial_run};
ghost use Rattle.vmx_model.specs.Fates.{all_fates};
ghost use Rattle.vmx_model_examples.specs.Guests.{view_of, journals_of, up_from};
ghost use Rattle.vmx_model_examples.specs.SmallReplays.{three, three_journals, three_fates, places_up, broadcast, broadcast_fates, nobody, sniffed, deaf, paused, paused_fates, reset, reset_journals, lengths, lengths_fates};

/// Three guests: a broadcast comes up at one and is filtered at another, a guest that was quiesced takes nothing and sends nothing, a frame to
/// nobody has no port, a cut one is not sent.
pub fn three_guests_replay()
    ensures journals { journals_of (serial_run three) ≡ three_journals }
    ensures fates { all_fates three (view_of (serial_run three)) ≡ three_fates }
    ensures handed_up { map places_up (serial_run three).seats ≡ ((0, 0, 0) ∷ []) ∷ ((0, 0, 0) ∷ (0, 0, 1) ∷ []) ∷ [] ∷ [] }
{}

/// A broadcast comes up at two guests; one that lets in what is sent to its own address alone refuses it.
pub fn a_broadcast_is_filtered()
    ensures fates { all_fates broadcast (view_of (serial_run broadcast)) ≡ broadcast_fates }
{}

/// A frame to an address that nobody has has no port; a sniffer that lets in everything takes its copy, and one of another mode refuses it.
pub fn a_stray_frame_has_no_port()
    ensures nobody { all_fates nobody (view_of (serial_run nobody)) ≡ (NoPort ∷ []) ∷ [] }
    ensures sniffed { all_fates sniffed (view_of (serial_run sniffed)) ≡ (Up 0 0 0 ∷ []) ∷ [] }
    ensures deaf { all_fates deaf (view_of (serial_run deaf)) ≡ (Filtered Unicast ∷ []) ∷ [] }
{}

/// A guest that is quiesced at 2 and activated at 5 neither sends nor takes the three frames between, and begins again at place 0 of activation 1.
pub fn a_guest_pauses()
    ensures fates { all_fates paused (view_of (serial_run paused)) ≡ paused_fates }
{}

/// A guest that is reset loses none of its frames in the serial run; those behind the reset have the tags of activation 1.
pub fn a_guest_resets()
    ensures fates { all_fates reset (view_of (serial_run reset)) ≡ up_from 0 0 5 }
    ensures journals { journals_of (serial_run reset) ≡ reset_journals }
{}

/// At an MTU of 1,500 a frame of 13 bytes is short, 14 and 1,518 are sent, 1,519 are too long.
pub fn lengths_are_bounded()
    ensures fates { all_fates lengths (view_of (serial_run lengths)) ≡ lengths_fates }
{}
