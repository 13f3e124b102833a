//! A pull. The receiver looks at the word of its position; where it is the filled one, the packet comes out of the
//! slot, and then the word says that the entry is free.
use super::{LinkIn, Pull};
use crate::steps::{InLoad, InStore};

impl LinkIn {
    ghost use Rattle.std.specs.Prelude.{◌^◌, ◌<◌, length};
    ghost use Rattle.vmx_ring_laws.specs.Lists.{AreComparable};
    ghost use Rattle.vmx_link.specs.Ends.{in_view, Pulls, WasEmpty};

    /// Takes the next packet. `Empty`: a look of this call found that its entry was not filled yet.
    pub fn pull(&mut self) -> Pull
        requires packets { length (in_view self.old).pulled < 2 ^ 62 }
        ensures answer { Pulls (in_view self.old) result (in_view self.new) }
        ensures cause { WasEmpty (in_view self.old) result }
        // Of what it heard was pushed and what this end has pulled, one is a prefix of the other.
        ensures filled { AreComparable (in_view self.new).filled (in_view self.new).pulled }
    {
        let index = (self.place % self.capacity) as usize;
        let filled = 2 * (self.place / self.capacity) + 1;
        let shared = &self.table.shared;
        let word = shared.load::<InLoad>(&mut self.seat, index);
        if word != filled {
            return Pull::Empty { word };
        }
        let packet = shared.exchange(&mut self.seat, index, None).unwrap();
        shared.store::<InStore>(&mut self.seat, index, filled + 1);
        let place = self.place;
        self.place += 1;
        Pull::Packet { place, packet }
    }
}
