//! The law, the contract of a function that does nothing.
ghost use Rattle.std.specs.Prelude.{◌≡◌, ◌≢◌, ◌+◌, ℕ};
ghost use Rattle.vmx_replay_runs.specs.Runs.{one_more};

/// Where one more is counted of the guest at a port, that guest has one more, and every other guest has what it had.
pub fn a_count_is_of_one_port()
    ensures here { (port : ℕ) (counts : ℕ → ℕ) → one_more port counts port ≡ counts port + 1 }
    ensures others { (port h : ℕ) (counts : ℕ → ℕ) → h ≢ port → one_more port counts h ≡ counts h }
{}
