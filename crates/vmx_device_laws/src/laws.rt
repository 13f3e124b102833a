//! The laws of a device that readers want, each the contract of a function that does nothing. Own to this project.
ghost use Rattle.std.specs.Prelude.{◌≡◌, ◌<◌, ◌≤◌, ℕ, suc, Bool, List, [], None, length};
ghost use Rattle.vmx_switch.specs.Ports.{Wiring};
ghost use Rattle.vmx_switch.specs.declared.answer.TheConstants.{MAX_PORTS};
ghost use Rattle.vmx_link.specs.Views.{LinkOutView, LinkInView};
ghost use Rattle.vmx_regs.specs.declared.known.Calls.{Calls};
ghost use Rattle.vmx_regs.specs.declared.known.Masks.{Masks};
ghost use Rattle.vmx_model.specs.Bags.{EachQueue, DeviceLeaves};
ghost use Rattle.vmx_model.specs.Journal.{Beside, is_activation};
ghost use Rattle.vmx_model.specs.Lists.{count};
ghost use Rattle.vmx_model.specs.Views.{GuestView};
ghost use Rattle.vmx_device_laws.specs.Views.{DeviceView};
ghost use Rattle.vmx_device_laws.specs.Keeps.{Keeps};
ghost use Rattle.vmx_device_laws.specs.New.{IsNewOut, IsNewIn, new_device};
ghost use Rattle.vmx_device_laws.specs.Steps.{TurnsOnce};
ghost use Rattle.vmx_device_laws.specs.Pairs.{PairsUp};
ghost use Rattle.vmx_device_laws.specs.Quiet.{StopsDevice, Goes, last_of, StaysQuiet};
ghost use Rattle.vmx_device_laws.specs.Leaves.{HasEnded, IsOfDevice, LinksSay};

/// What holds of a device at all times holds of a new one, and after each turn.
pub fn turns_keep()
    ensures new { (port : ℕ) (mac : List ℕ) (table : Wiring) (key : List ℕ) (calls : Calls) (masks : Masks) (out : List LinkOutView) (input : List LinkInView)
        → calls.served ≡ [] → calls.serving ≡ None → 17 ≤ calls.interrupts → EachQueue (IsNewOut port) 0 out → EachQueue (IsNewIn port) 0 input
        → (port < length table.macs) × (suc (length out) ≡ length table.macs) × (length input ≡ length out) × (length table.macs ≤ MAX_PORTS) → Keeps (new_device port mac table key calls masks out input) }
    ensures turn { (worked : Bool) (d d' : DeviceView) → TurnsOnce worked d d' → Keeps d → Keeps d' }
{}

/// The exact step of a turn after its command, pairwise: each transmit end and each link is looked at once, in order, each receive end
/// gets what came for its queue, and the journal grows by the entries of all of it; port, table, registers and setup stay.
pub fn turns_pair_ends()
    ensures pairs { (worked : Bool) (d d' : DeviceView) (t : TurnsOnce worked d d') → PairsUp t.asked d' }
{}

/// After a quiesce or a reset that was answered 0 a device holds no queue end, and from there until the next activation its turns append
/// commands and `Inactive` alone.
pub fn quiesced_device_is_quiet()
    ensures stopped { (worked : Bool) (d d' : DeviceView) (t : TurnsOnce worked d d') → StopsDevice d t.asked → d'.machine.active ≡ None }
    ensures quiet { (d : DeviceView) (later : List DeviceView) → d.machine.active ≡ None → Goes d later → count is_activation (last_of d later).entries ≡ count is_activation d.entries → StaysQuiet d (last_of d later) }
{}

/// A device that has ended, with a driver behind the words of all ends that it handed back, leaves its part of the premises of a
/// replay's accounts, beside whatever longer lists. At all times its links say what its journal says.
pub fn ended_device_leaves()
    ensures leaves { (d : DeviceView) → Keeps d → (b : Beside) → HasEnded d b → (v : GuestView) → IsOfDevice d v → DeviceLeaves d.table b v }
    ensures links { (d : DeviceView) → Keeps d → LinksSay d }
{}
