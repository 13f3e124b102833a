//! The driver's side of the registers, played by hand.

ghost use Rattle.std.specs.Prelude.{◌≡◌, ◌≤◌, ◌∷◌, [], ◌++◌, length, None, IfSome, IsTrue, false};
ghost use Rattle.vmx_device_state.specs.declared.turn.Turn.{Turn};
ghost use Rattle.vmx_regs.specs.Ends.{driver_view, asking};
ghost use Rattle.vmx_regs.specs.Turns.{command_of, IsCommand};
ghost use Rattle.vmx_lists.specs.TxEnds.{device_view as tx_device};
ghost use Rattle.vmx_lists.specs.RxEnds.{device_view as rx_device};
ghost use Rattle.vmx_machine_state.specs.Views.{ends_view, handed_of};
ghost use Rattle.vmx_one_guest.specs.declared.commands.TheConstants.{MAX_COMMANDS};

use vmx_ends::Ends;
use vmx_lists::ListFabric;
use vmx_regs::{Answer, Bag, DriverRegs};

/// The most commands that are answered.
pub const MAX_COMMANDS: u64 = 1_000;

/// The driver's side of the registers, and how many answers it took at most. It is let go here alone, so that no crate above has to
/// prove that of each of its parts again.
pub struct Commands {
    pub regs: DriverRegs<Ends<ListFabric>>,
    pub answers: u64,
    pub ghost few: { answers ≤ MAX_COMMANDS },
    pub ghost counted: { length (driver_view regs).turns ≤ answers },
}

/// The answer to a command: its value, and whether queue ends came back with it.
#[derive(Clone, Copy, Debug, PartialEq, Eq)]
pub struct Answered {
    pub value: u32,
    pub ends: bool,
}

impl Drop for Commands {
    fn drop(self) {
        let Commands {
            regs: _,
            answers: _,
        } = self;
    }
}

impl Commands {
    /// Gives a command, by its number. Says whether it was given: no where one is outstanding.
    pub fn give(&mut self, number: u32, bag: Bag<Ends<ListFabric>>) -> bool
        requires lawful { IsCommand (command_of (λ e. handed_of (ends_view tx_device rx_device e)) number bag) }
        ensures given { IsTrue result → driver_view self.new.regs ≡ asking (λ e. handed_of (ends_view tx_device rx_device e)) (driver_view self.old.regs) number bag }
        ensures none { result ≡ false → driver_view self.new.regs ≡ driver_view self.old.regs }
    {
        if self.regs.outstanding() {
            return false;
        }
        self.regs.command(number, bag);
        true
    }

    /// The answer to the command that is outstanding, where it is there; none after `MAX_COMMANDS`.
    pub fn answer(&mut self) -> Option<Answered>
        ensures taken { IfSome result (λ a. (t : Turn) × ((driver_view self.new.regs).turns ≡ (driver_view self.old.regs).turns ++ t ∷ []) × (t.answer.value ≡ a.value)) }
    {
        if !self.regs.outstanding() || self.answers >= MAX_COMMANDS {
            return None;
        }
        self.answers += 1;
        match self.regs.answer() {
            Answer::Done { value, bag } => Some(Answered {
                value,
                ends: bag.ends.is_some(),
            }),
            Answer::Pending { word: _ } => None,
        }
    }
}
