//! The laws, each the contract of a function that does nothing. Own to this project.
ghost use Rattle.std.specs.Prelude.{ℕ, Bool, List};
ghost use Rattle.vmx_regs.specs.declared.known.Masks.{Masks};
ghost use Rattle.vmx_machine_state.specs.Views.{MachineView, new_machine};
ghost use Rattle.vmx_model.specs.declared.journal.Fate.{Fate};
ghost use Rattle.vmx_device_laws.specs.Views.{DeviceView, tx_held};
ghost use Rattle.vmx_device_laws.specs.Steps.{SeesNoCommand, Obeys, BellStep, TxSteps, InSteps, TurnsOnce};
ghost use Rattle.vmx_device_looks.specs.Arrivals.{Handles};
ghost use Rattle.vmx_trusted_turns.specs.Trusted.{IsTrusted, BringsTrusted, LooksAll, HandlesTrusted};

/// A new machine is trusted. It stays so over the look at the command register, where the ends that a command brings are trusted, and
/// over all other looks of a turn.
pub fn trusted_devices_stay_trusted()
    ensures new { (mac : List ℕ) → IsTrusted (new_machine mac) }
    ensures none { (d d' : DeviceView) → SeesNoCommand d d' → IsTrusted d.machine → IsTrusted d'.machine }
    ensures obeys { (d d' : DeviceView) (o : Obeys d d') → BringsTrusted o.answers.given → IsTrusted d.machine → IsTrusted d'.machine }
    ensures bells { (d d' : DeviceView) → BellStep d d' → IsTrusted d.machine → IsTrusted d'.machine }
    ensures frames { (found : Bool) (d d' : DeviceView) → TxSteps (tx_held d.machine.active) found d d' → IsTrusted d.machine → IsTrusted d'.machine }
    ensures packets { (n : ℕ) (found : Bool) (d d' : DeviceView) → InSteps n found d d' → IsTrusted d.machine → IsTrusted d'.machine }
    ensures turn { (worked : Bool) (d d' : DeviceView) (t : TurnsOnce worked d d') → IsTrusted t.asked.machine → IsTrusted d'.machine }
{}

/// A trusted device looks at each transmit queue, and takes a frame or finds none; it gives a frame that is let in to the queue of its
/// flow, which delivers it or lacks a buffer.
pub fn trusted_devices_look_at_each_queue()
    ensures frames { (found : Bool) (d d' : DeviceView) → TxSteps (tx_held d.machine.active) found d d' → IsTrusted d.machine → LooksAll d d' }
    ensures packet { (activation : ℕ) (frame : List ℕ) (interrupts : ℕ) (f : Fate) (old : MachineView) (was : Masks) (new : MachineView) (now : Masks) → Handles activation frame interrupts f old was new now → IsTrusted old
        → HandlesTrusted activation frame f old was new now × IsTrusted new }
{}
