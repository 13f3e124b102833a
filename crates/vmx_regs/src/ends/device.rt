//! The device's side of commands: it takes the next one with its bag, and replies with a value and a bag.

ghost use Rattle.std.specs.Prelude.{◌≡◌, ◌^◌, ◌<◌, length, None};
ghost use Rattle.vmx_regs.specs.Rule.{DeviceAgrees};
ghost use Rattle.vmx_regs.specs.Ends.{device_key, device_view, device_masks, replying, Owes, Polls};

use super::{DeviceRegs, Poll};
use crate::bag::Bag;
use crate::places::{ANSWER_WORD, COMMAND_WORD, COUNT_BIT};
use crate::plays::{AnswerStore, CommandLook};
use vmx_io::Handed;

impl<E: Handed> DeviceRegs<E> {
    /// Takes the next command with its bag, or says by a look that there is none yet. No command may be held, and fewer than
    /// 2^62 answered.
    pub fn poll(&mut self) -> Poll<E>
        requires none { (device_view self.old).serving ≡ None }
        requires few { length (device_view self.old).served < 2 ^ 62 }
        ensures key { device_key self.new ≡ device_key self.old }
        ensures masks { device_masks self.new ≡ device_masks self.old }
        ensures answer { Polls E.handed (device_view self.old) result (device_view self.new) }
    {
        let shared = &self.table.shared;
        let word = shared.load::<CommandLook>(&mut self.seat, COMMAND_WORD);
        if word / COUNT_BIT != (self.turns + 1) % 2 {
            return Poll::Quiet { word };
        }
        let bag = shared.exchange(&mut self.seat, 0, None).unwrap();
        Poll::Command {
            number: (word % COUNT_BIT) as u32,
            bag,
        }
    }

    /// Answers the command that is held. To a set command the value is the one that the device's state owes; the bag has the
    /// ends that the command is owed: none where the device begins to hold them, those that it held where it stops, else those
    /// of the command.
    pub fn reply(&mut self, value: u32, bag: Bag<E>)
        requires lawful { Owes E.handed (device_view self.old).served (device_view self.old).serving value bag }
        requires few { length (device_view self.old).served < 2 ^ 62 }
        ensures key { device_key self.new ≡ device_key self.old }
        ensures masks { device_masks self.new ≡ device_masks self.old }
        ensures view { device_view self.new ≡ replying E.handed (device_view self.old) value bag }
        ensures agrees { DeviceAgrees (device_view self.new) }
    {
        let word = value as u64 + COUNT_BIT * ((self.turns + 1) % 2);
        let shared = &self.table.shared;
        match shared.exchange(&mut self.seat, 0, Some(bag)) {
            None => {}
            Some(_) => unreachable!(),
        }
        shared.store::<AnswerStore>(&mut self.seat, ANSWER_WORD, word);
        self.turns += 1;
    }
}
