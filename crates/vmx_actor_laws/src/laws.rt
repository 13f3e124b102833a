//! Laws of the two actors of a guest: each function does nothing, and its contract is the law.
ghost use Rattle.vmx_actor_laws.specs.Joint.{LeadsItsDevice};

/// Once no command is outstanding and both sides of the registers know the same turns, a device is in the state to
/// which its driver brought it: active with the setup in force while the driver is active, else idle. It holds ends
/// exactly while the driver is active, and those are the ends of the driver's queues in the same order.
pub fn a_device_has_ends_while_its_driver_is_active()
    ensures law { LeadsItsDevice }
{}
