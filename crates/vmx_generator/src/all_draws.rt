//! The draws of all frames. They are made once, in the order of the frames' numbers and then of the guests; the captures are then made
//! guest by guest.

ghost use Rattle.std.specs.Prelude.{◌≡◌};
ghost use Rattle.vmx_generator.specs.Draws.{first_draws};

use crate::draws::{Draws, draw};
use crate::{ALL_FRAMES, GUESTS};
use std::alloc::{AllocError, Global};
use vmx_io::List;

/// The draws that follow from a number.
#[derive(Drop)]
pub struct AllDraws {
    pub number: u64,
    /// Those of frame n of guest g stand at 8n + g.
    pub draws: List<Draws>,
    pub ghost drawn: { draws ≡ first_draws number 16000 },
}

impl AllDraws {
    ghost use Rattle.std.specs.Prelude.{◌≡◌, ◌<◌, IfOk};
    ghost use Rattle.vmx_generator.specs.Draws.{draws_of};

    pub fn of(alloc: Global, number: u64) -> Result<AllDraws, AllocError>
        ensures number { IfOk result (λ all. all.number ≡ number) }
    {
        let mut draws = Vec::with_capacity(alloc, ALL_FRAMES)?;
        let mut state = number;
        for _ in 0..ALL_FRAMES {
            let destination = draw(&mut state);
            let size = draw(&mut state);
            let flow = draw(&mut state);
            draws.push(Draws {
                destination,
                size,
                flow,
            })?;
        }
        Ok(AllDraws {
            number,
            draws: List::of(draws),
        })
    }

    /// The draws of a frame of a guest.
    pub fn at(&self, guest: u8, frame: u16) -> Draws
        requires guest { guest < 8 }
        requires frame { frame < 2000 }
        ensures draws { result ≡ draws_of self.now.number guest frame }
    {
        let before = GUESTS as usize * usize::from(frame) + usize::from(guest);
        *self.draws.at(before)
    }
}
