//! The draws: a linear congruential generator whose state has 64 bits. A draw goes on to the next state and is its upper 31 bits. The
//! multiplier and the increment are those of Knuth's MMIX.

ghost use Rattle.std.specs.Prelude.{◌≡◌, ◌/◌, ◌^◌};
ghost use Rattle.vmx_generator.specs.Draws.{next_state};

/// By which the state is multiplied.
const MULTIPLIER: u64 = 6_364_136_223_846_793_005;

/// What is then added to it.
const INCREMENT: u64 = 1_442_695_040_888_963_407;

/// The lower bits of a state, which no draw shows.
const HIDDEN_BITS: u32 = 33;

/// The three draws of a frame, in this order.
#[derive(Clone, Copy, Debug, PartialEq, Eq)]
pub struct Draws {
    /// What its destination follows from.
    pub destination: u32,
    /// What its length follows from.
    pub size: u32,
    /// What its source port and its destination's IPv4 address follow from.
    pub flow: u32,
}

/// The next draw.
pub fn draw(state: &mut u64) -> u32
    ensures next { state.new ≡ next_state state.old }
    ensures upper { result ≡ state.new / 2 ^ 33 }
{
    *state = state.wrapping_mul(MULTIPLIER).wrapping_add(INCREMENT);
    (*state >> HIDDEN_BITS) as u32
}
