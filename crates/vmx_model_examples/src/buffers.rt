//! Plans in which the buffers of a receive queue count.
ghost use Rattle.std.specs.Prelude.{◌≡◌, ℕ, List, [], ◌∷◌, ◌++◌, map, replicate, Some, None, true, false};
ghost use Rattle.vmx_model.specs.Serial.{serial_run};
ghost use Rattle.vmx_model.specs.Fates.{all_fates};
ghost use Rattle.vmx_model_examples.specs.Guests.{view_of, up_from};
ghost use Rattle.vmx_model_examples.specs.Buffers.{scarce, scarce_fates, twice, twice_fates, counted, counted_fates, bodies, taken_places, bodies_places, unpolled, unpolled_fates, polled, taken_at, followed};

/// 40 frames with rings of 32 and no poll between them: 32 come up, and eight find no buffer at position 32 of ring 1.
pub fn buffers_run_out()
    ensures fates { all_fates scarce (view_of (serial_run scarce)) ≡ scarce_fates }
{}

/// A driver polls after each so many copies that reached its guest, refused ones among them. What a poll hands up is posted again.
pub fn polls_make_room()
    ensures twice { all_fates twice (view_of (serial_run twice)) ≡ twice_fates }
    ensures counted { all_fates counted (view_of (serial_run counted)) ≡ counted_fates }
{}

/// Where a BODY follows each HEAD, frame k takes the position 2k of ring 1, and from the second frame on a BODY is passed over.
pub fn bodies_are_passed_over()
    ensures fates { all_fates bodies (view_of (serial_run bodies)) ≡ up_from 0 0 20 }
    ensures places { map taken_places (serial_run bodies).seats ≡ [] ∷ bodies_places ∷ [] }
{}

/// A frame of 9,014 bytes takes a HEAD of ring 1 and two BODYs of ring 2. With no poll ring 2 serves sixteen; with a poll after each all come
/// up. Where a BODY follows each HEAD in ring 1, the second piece takes it.
pub fn large_frames_take_pieces()
    ensures unpolled { all_fates unpolled (view_of (serial_run unpolled)) ≡ unpolled_fates }
    ensures polled { all_fates polled (view_of (serial_run polled)) ≡ up_from 0 0 65 }
    ensures places { map (taken_at 21) (serial_run polled).seats ≡ [] ∷ ((0, (1, 21) ∷ (2, 42) ∷ (2, 43) ∷ []) ∷ []) ∷ [] }
    ensures followed { map taken_places (serial_run followed).seats ≡ [] ∷ ((0, (1, 0) ∷ (1, 1) ∷ (2, 0) ∷ []) ∷ []) ∷ [] }
{}
