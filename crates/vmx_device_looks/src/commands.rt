//! What a journal shows of a command that was answered.
ghost use Rattle.std.specs.Prelude.{◌≡◌, ◌<◌, ◌≤◌, ◌^◌, ◌+◌, ℕ, Option, [], ◌∷◌, length};
ghost use Rattle.vmx_machine_state.specs.Views.{state_of};
ghost use Rattle.vmx_model.specs.Lists.{count};
ghost use Rattle.vmx_model.specs.Journal.{is_activation};
ghost use Rattle.vmx_model.specs.declared.journal.Entry.TheVariants as entry;
ghost use Rattle.vmx_device_looks.specs.Commands.{ShowsState};

use vmx_commands::Machine;
use vmx_ends::Fabric;
use vmx_io::Roomy;
use vmx_layout::Command;
use vmx_shared_area::Setup;

/// Puts the setup in force last among the setups, where the machine is active, and says its index.
pub fn show_setup<F: Fabric>(machine: &Machine<F>, setups: &mut Roomy<Setup>) -> Option<u32>
    requires room { 0 < setups.old.1 }
    requires few { length setups.old.0 < 2 ^ 32 }
    ensures shows { ShowsState setups.old.0 result setups.new.0 (state_of machine.now) }
    ensures room { setups.old.1 ≤ setups.new.1 + 1 }
{
    match machine.setup() {
        None => None,
        Some(setup) => {
            let index = setups.len() as u32;
            setups.push(*setup);
            Some(index)
        }
    }
}

/// The number of activations after an answer.
pub fn counted_on(begun: u32, number: u32, value: u32) -> u32
    requires few { begun < 2 ^ 31 }
    ensures counted { (setup : Option ℕ) → result ≡ begun + count is_activation (entry.Setting number value setup ∷ []) }
{
    if number == Command::ActivateDev.number() && value == 0 {
        begun + 1
    } else {
        begun
    }
}
