//! A push. The sender looks at the word of its position; where it is the free one, the packet goes into the slot, and
//! then the word says so.
use super::{LinkOut, Push};
use crate::steps::{OutLoad, OutStore};
use vmx_ends::Packet;

impl LinkOut {
    ghost use Rattle.std.specs.Prelude.{◌^◌, ◌<◌, length};
    ghost use Rattle.vmx_link.specs.Ends.{out_view, Pushes, WasFull};

    /// Puts the packet last in the link. `Full` hands it back: a look of this call found that its entry was not freed
    /// yet, so as many packets as the link has entries were pushed before and not known to be pulled.
    pub fn push(&mut self, packet: Packet) -> Push
        requires packets { length (out_view self.old).pushed < 2 ^ 62 }
        requires looks { length (out_view self.old).full < 2 ^ 62 }
        ensures answer { Pushes (out_view self.old) packet result (out_view self.new) }
        ensures cause { WasFull (out_view self.old) result }
    {
        let index = (self.place % self.capacity) as usize;
        let free = 2 * (self.place / self.capacity);
        let shared = &self.table.shared;
        let word = shared.load::<OutLoad>(&mut self.seat, index);
        if word != free {
            let look = self.looks;
            self.looks += 1;
            return Push::Full { packet, word, look };
        }
        match shared.exchange(&mut self.seat, index, Some(packet)) {
            None => {}
            Some(_) => unreachable!(),
        }
        shared.store::<OutStore>(&mut self.seat, index, free + 1);
        let place = self.place;
        self.place += 1;
        Push::Done { place }
    }
}
