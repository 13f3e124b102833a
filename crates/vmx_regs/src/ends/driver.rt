//! The driver's side of commands: it sends one with a bag, and takes the answer with the bag that comes back.

ghost use Rattle.std.specs.Prelude.{◌≡◌, ◌^◌, ◌<◌, length, None, IsSome, is_some};
ghost use Rattle.vmx_regs.specs.Turns.{command_of, IsCommand};
ghost use Rattle.vmx_regs.specs.Ends.{driver_key, driver_view, driver_masks, asking, Answers};

use super::{Answer, DriverRegs};
use crate::bag::Bag;
use crate::places::{ANSWER_WORD, COMMAND_WORD, COUNT_BIT};
use crate::plays::{AnswerLook, CommandStore};
use vmx_io::Handed;

impl<E: Handed> DriverRegs<E> {
    /// Whether a command was sent and its answer not taken.
    pub fn outstanding(&self) -> bool
        ensures asked { result ≡ is_some (driver_view self.now).asked }
    {
        self.asked
    }

    /// Sends a command, by its number, with a bag whose ends are whole, and fresh with an activation. No command may be
    /// outstanding, and fewer than 2^62 answered.
    pub fn command(&mut self, number: u32, bag: Bag<E>)
        requires none { (driver_view self.old).asked ≡ None }
        requires lawful { IsCommand (command_of E.handed number bag) }
        requires few { length (driver_view self.old).turns < 2 ^ 62 }
        ensures key { driver_key self.new ≡ driver_key self.old }
        ensures masks { driver_masks self.new ≡ driver_masks self.old }
        ensures view { driver_view self.new ≡ asking E.handed (driver_view self.old) number bag }
    {
        let word = number as u64 + COUNT_BIT * ((self.turns + 1) % 2);
        let shared = &self.table.shared;
        match shared.exchange(&mut self.seat, 0, Some(bag)) {
            None => {}
            Some(_) => unreachable!(),
        }
        shared.store::<CommandStore>(&mut self.seat, COMMAND_WORD, word);
        self.asked = true;
    }

    /// Takes the answer to the outstanding command with the bag that came back, or says by a look that it was not given yet.
    pub fn answer(&mut self) -> Answer<E>
        requires some { IsSome (driver_view self.old).asked }
        requires few { length (driver_view self.old).turns < 2 ^ 62 }
        ensures key { driver_key self.new ≡ driver_key self.old }
        ensures masks { driver_masks self.new ≡ driver_masks self.old }
        ensures answer { Answers E.handed (driver_view self.old) result (driver_view self.new) }
    {
        let shared = &self.table.shared;
        let word = shared.load::<AnswerLook>(&mut self.seat, ANSWER_WORD);
        if word / COUNT_BIT != (self.turns + 1) % 2 {
            return Answer::Pending { word };
        }
        let bag = shared.exchange(&mut self.seat, 0, None).unwrap();
        self.turns += 1;
        self.asked = false;
        Answer::Done {
            value: (word % COUNT_BIT) as u32,
            bag,
        }
    }
}
