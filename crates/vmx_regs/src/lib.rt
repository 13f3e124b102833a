//! The registers by which a driver commands a device, and by which the two wake each other. Each command is answered once, in
//! order, and a bag with the shared image and queue ends goes over with it and comes back. Beside them stand the masks of the
//! interrupts, the line, doorbells and events. All of it lies in one table of atomic words, between two threads and with no
//! lock.
//!
//! Contracts see a side as a record of plain data (`specs/Ends.antt`). Two rules of the table hold between any two steps of any
//! schedule. That of commands (`specs/Rule.antt`): the j-th answer is that to the j-th command, with the value that the device's
//! state owes (`vmx_device_state`), and ends are where the turns say (`specs/Turns.antt`); `meet` hands it out. That of masks
//! (`specs/Masks.antt`): a mask's word has the number of the driver's writes to it, and is odd only for a cause; `raise` shows
//! what the device can see of it. The number of interrupts is 1 to 25, as in Linux's `vmxnet3_defs.h`; the rest is own to this
//! project.
#![tactic(auto)]

mod bag;
mod ends;
mod known;
mod passing;
mod places;
mod plays;

pub use bag::Bag;
pub use ends::{
    Answer, Bell, DeviceRegs, DriverRegs, Poll, Raised, RegsFacts, RegsNote, make, meet,
};
pub use known::{Calls, Deed, Hint, Known, MaskLook, MaskSet, MaskWrite, Masks, Regs};
pub use passing::pass;
