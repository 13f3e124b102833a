//! The two forms of a frame, and the delivered form.
ghost use Rattle.std.specs.Prelude.{◌≡◌, ℕ, List, [], ◌∷◌, ◌++◌, map, take, replicate, Some, None, true, false};
ghost use Rattle.vmx_ends.specs.Marks.{mark_with, plain_mark};
ghost use Rattle.vmx_model.specs.declared.journal.Entry.TheVariants.{Setting};
ghost use Rattle.vmx_model.specs.declared.journal.Fate.TheVariants.{Up, Stopped};
ghost use Rattle.vmx_model.specs.declared.sending.Sending.TheVariants.{Sent, TooLong};
ghost use Rattle.std.specs.Prelude.{length};
ghost use Rattle.vmx_model.specs.Serial.{Seat, serial_run};
ghost use Rattle.vmx_model.specs.Meta.{whole};
ghost use Rattle.vmx_model.specs.Plan.{posted_of, frames_of};
ghost use Rattle.vmx_model.specs.Journal.{stopped_in};
ghost use Rattle.vmx_model_examples.specs.Guests.{second_guest, activates, quiesces};
ghost use Rattle.vmx_model_examples.specs.Tags.{bare, tagged, other, near, near_tagged, on_five, two, long, verdict_of, queued, carried, came, up_as, taking, stopping, reset_answered, tagged_link, comes_up, unicasts};
ghost use Rattle.vmx_model_examples.specs.Kinds.{first_counts};
ghost use Rattle.vmx_model.specs.Stats.{rx_counts};

/// A guest on VLAN 5 posts a bare frame with that tag beside it, and its link carries it with the tag put in. A frame with a tag of its own goes
/// as it is; 17 bytes with the type of a tag have none. Sent
/// bytes are counted with their tags. A target that lets in no VLAN refuses all three.
pub fn tags_are_put_in()
    ensures posted { posted_of on_five 0 0 ≡ (record { frame = bare; mark = mark_with (Some 5) }) ∷ (record { frame = other; mark = plain_mark }) ∷ (record { frame = near; mark = mark_with (Some 5) }) ∷ [] }
    ensures frames { frames_of on_five 0 0 ≡ tagged ∷ other ∷ near_tagged ∷ [] }
    ensures queued { queued (serial_run two) ≡ ((bare ∷ other ∷ near ∷ []) ∷ []) ∷ ([] ∷ []) ∷ [] }
    ensures carried { carried (serial_run two) ≡ (tagged ∷ other ∷ near_tagged ∷ []) ∷ [] ∷ [] }
    ensures counted { map first_counts (take 1 (serial_run two).seats) ≡ (unicasts 3 57 ∷ []) ∷ [] }
    ensures filtered { map (λ (s : Seat). length s.received) (serial_run two).seats ≡ 0 ∷ 0 ∷ [] }
{}

/// At an MTU of 1,500 a frame that is given a tag may have 1,514 bytes, one with a tag of its own 1,518, as one of a guest without a VLAN.
pub fn tags_count_in_the_length()
    ensures at_most { verdict_of on_five (long 1500) ≡ Sent 0 0 0 }
    ensures too_long { verdict_of on_five (long 1501) ≡ TooLong }
    ensures own_tag { verdict_of on_five (other ++ replicate 1500 0) ≡ Sent 0 0 0 }
    ensures without_vlan { verdict_of second_guest (long 1504) ≡ Sent 0 0 0 }
{}

/// A device that takes tags out delivers the frame without its tag and tells the tag beside it; put back it is the packet's frame,
/// whose length the statistics count.
pub fn tags_are_taken_out()
    ensures taken_out { came other ≡ up_as 0 bare (Some 0xE007) ∷ [] }
    ensures stays { came near ≡ up_as 0 near None ∷ [] }
    ensures put_back { map whole (came other) ≡ other ∷ [] }
    ensures counted { take 1 (rx_counts (tagged_link ∷ []) 1 comes_up) ≡ unicasts 1 18 ∷ [] }
    ensures handed_up { map (λ (s : Seat). s.received) (serial_run taking).seats ≡ [] ∷ (up_as 0 bare (Some 5) ∷ up_as 1 bare (Some 0xE007) ∷ up_as 2 near (Some 5) ∷ []) ∷ [] }
    ensures all_put_back { map (λ (s : Seat). map whole s.received) (serial_run taking).seats ≡ [] ∷ frames_of on_five 0 0 ∷ [] }
{}

/// Over given words, the fate that stops a queue is lawful at its own entry, no frame comes up there from then on, quiesce and activation
/// included, other queues go on, and a RESET_DEV that is answered 0 lets it go on.
pub fn a_stopped_queue_stays_stopped()
    ensures stops { stopped_in [] (Stopped 0 0) 0 ≡ true }
    ensures stays { stopped_in (stopping ∷ quiesces ∷ activates ∷ []) (Up 1 0 0) 0 ≡ true }
    ensures others { stopped_in (stopping ∷ []) (Up 0 1 0) 1 ≡ false }
    ensures goes_on { stopped_in (stopping ∷ reset_answered 0) (Up 1 0 0) 0 ≡ false }
    ensures refused_reset { stopped_in (stopping ∷ reset_answered 11) (Up 0 0 0) 0 ≡ true }
{}
