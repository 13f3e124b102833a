//! Plans in which flows, tags and classes count.
ghost use Rattle.std.specs.Prelude.{◌≡◌, ℕ, List, [], ◌∷◌, ◌++◌, map, replicate, Some, None, true, false};
ghost use Rattle.std.specs.Prelude.{take};
ghost use Rattle.vmx_model.specs.Serial.{serial_run};
ghost use Rattle.vmx_model.specs.Fates.{all_fates};
ghost use Rattle.vmx_model_examples.specs.Guests.{view_of};
ghost use Rattle.vmx_model_examples.specs.Kinds.{moved, moved_fates, kinds, kinds_fates, kinds_counts, first_counts};

/// Microsoft's first sample flow comes up at queue 0, and at queue 1 from the frame on before which the indirection table is another.
pub fn a_flow_moves_with_its_table()
    ensures fates { all_fates moved (view_of (serial_run moved)) ≡ moved_fates }
{}

/// An ARP broadcast, TCP over IPv4 and IPv6, a tagged frame and an offloaded record of 20,000 bytes: the fates, and what the sender counts.
pub fn kinds_are_counted()
    ensures fates { all_fates kinds (view_of (serial_run kinds)) ≡ kinds_fates }
    ensures counts { map first_counts (take 1 (serial_run kinds).seats) ≡ (kinds_counts ∷ []) ∷ [] }
{}
