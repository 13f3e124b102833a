//! The registers of the device. Each has 32 bits and stands at a multiple of 8 in its BAR: the doorbells and the
//! interrupt masks in BAR 0, all others in BAR 1. The offsets are Linux's, and so is the limit of 25 interrupts; that of
//! 8 receive queues is own to this project.

ghost use Rattle.std.specs.Prelude.{◌<◌};
ghost use Rattle.vmx_layout.specs.declared.register.TheConstants.{MAX_INTERRUPTS, MAX_QUEUES};

/// The most interrupts of a device: Linux's VMXNET3_MAX_INTRS, 8 transmit and 16 receive queues' and the events' one.
pub const MAX_INTERRUPTS: u32 = 25;

/// The most queues of a side of a device: Linux's VMXNET3_MAX_TX_QUEUES, and taken for the receive side too (own to this project).
pub const MAX_QUEUES: u32 = 8;

/// The number of an interrupt, 0 to 24.
#[derive(Clone, Copy, Debug, PartialEq, Eq)]
pub struct InterruptIndex {
    pub number: u32,
    ghost below: { number < MAX_INTERRUPTS },
}

/// The number of a queue, 0 to 7.
#[derive(Clone, Copy, Debug, PartialEq, Eq)]
pub struct QueueIndex {
    pub number: u32,
    ghost below: { number < MAX_QUEUES },
}

/// A register.
#[derive(Clone, Copy, Debug, PartialEq, Eq)]
pub enum Register {
    /// The revisions that the device supports.
    Vrrs,
    /// The UPT versions that the device supports.
    Uvrs,
    /// The low half of the shared area's address.
    Dsal,
    /// The high half of the shared area's address.
    Dsah,
    /// The command, and its answer.
    Cmd,
    /// The low four bytes of the MAC address.
    Macl,
    /// The high two bytes of the MAC address.
    Mach,
    /// The causes of the interrupt.
    Icr,
    /// The causes of the events.
    Ecr,
    /// The mask of an interrupt: 1 masks it, 0 unmasks it.
    Imr(InterruptIndex),
    /// The doorbell of a transmit queue.
    TxProd(QueueIndex),
    /// The doorbell of ring 1 of a receive queue.
    RxProd(QueueIndex),
    /// The doorbell of ring 2 of a receive queue.
    RxProd2(QueueIndex),
}

/// The BAR of the interrupt masks and the doorbells, which Linux calls the pass-through one.
pub const DOORBELL_BAR: u32 = 0;

/// The BAR of all other registers, Linux's virtual device one.
pub const DEVICE_BAR: u32 = 1;

/// From a register to the next one of its kind, in bytes.
pub const REGISTER_STRIDE: u32 = 8;

/// Linux's VMXNET3_REG_VRRS, in BAR 1.
pub const VRRS_OFFSET: u32 = 0x0;
/// Linux's VMXNET3_REG_UVRS, in BAR 1.
pub const UVRS_OFFSET: u32 = 0x8;
/// Linux's VMXNET3_REG_DSAL, in BAR 1.
pub const DSAL_OFFSET: u32 = 0x10;
/// Linux's VMXNET3_REG_DSAH, in BAR 1.
pub const DSAH_OFFSET: u32 = 0x18;
/// Linux's VMXNET3_REG_CMD, in BAR 1.
pub const CMD_OFFSET: u32 = 0x20;
/// Linux's VMXNET3_REG_MACL, in BAR 1.
pub const MACL_OFFSET: u32 = 0x28;
/// Linux's VMXNET3_REG_MACH, in BAR 1.
pub const MACH_OFFSET: u32 = 0x30;
/// Linux's VMXNET3_REG_ICR, in BAR 1.
pub const ICR_OFFSET: u32 = 0x38;
/// Linux's VMXNET3_REG_ECR, in BAR 1.
pub const ECR_OFFSET: u32 = 0x40;
/// Linux's VMXNET3_REG_IMR, in BAR 0: the mask of interrupt 0.
pub const IMR_OFFSET: u32 = 0x0;
/// Linux's VMXNET3_REG_TXPROD, in BAR 0: the doorbell of transmit queue 0.
pub const TXPROD_OFFSET: u32 = 0x600;
/// Linux's VMXNET3_REG_RXPROD, in BAR 0: the doorbell of ring 1 of receive queue 0.
pub const RXPROD_OFFSET: u32 = 0x800;
/// Linux's VMXNET3_REG_RXPROD2, in BAR 0: the doorbell of ring 2 of receive queue 0.
pub const RXPROD2_OFFSET: u32 = 0xa00;

impl Register {
    ghost use Rattle.std.specs.Prelude.{◌≡◌, IfSome, IfNone, Some};
    ghost use Rattle.vmx_layout.specs.declared.register.Register.{Register};
    ghost use Rattle.vmx_layout.specs.Register.{bar_of, offset_of, IsNoRegister};

    /// The register at the offset, in bytes, of the BAR, or None exactly where none stands there.
    pub fn of(bar: u32, offset: u32) -> Option<Register>
        ensures found_bar { IfSome result (λ r. bar_of r ≡ bar) }
        ensures found_offset { IfSome result (λ r. offset_of r ≡ offset) }
        ensures none { IfNone result (IsNoRegister bar offset) }
        ensures unique { (r : Register) → bar_of r ≡ bar → offset_of r ≡ offset → result ≡ Some r }
    {
        match bar {
            DOORBELL_BAR => Self::of_bar0(offset),
            DEVICE_BAR => Self::of_bar1(offset),
            _ => None,
        }
    }

    fn of_bar0(offset: u32) -> Option<Register>
        ensures found_bar { IfSome result (λ r. bar_of r ≡ DOORBELL_BAR) }
        ensures found_offset { IfSome result (λ r. offset_of r ≡ offset) }
        ensures none { IfNone result (IsNoRegister DOORBELL_BAR offset) }
        ensures unique { (r : Register) → bar_of r ≡ DOORBELL_BAR → offset_of r ≡ offset → result ≡ Some r }
    {
        if let Some(interrupt) = InterruptIndex::at(offset) {
            return Some(Register::Imr(interrupt));
        }
        if let Some(queue) = QueueIndex::at(TXPROD_OFFSET, offset) {
            return Some(Register::TxProd(queue));
        }
        if let Some(queue) = QueueIndex::at(RXPROD_OFFSET, offset) {
            return Some(Register::RxProd(queue));
        }
        if let Some(queue) = QueueIndex::at(RXPROD2_OFFSET, offset) {
            return Some(Register::RxProd2(queue));
        }
        None
    }

    fn of_bar1(offset: u32) -> Option<Register>
        ensures found_bar { IfSome result (λ r. bar_of r ≡ DEVICE_BAR) }
        ensures found_offset { IfSome result (λ r. offset_of r ≡ offset) }
        ensures none { IfNone result (IsNoRegister DEVICE_BAR offset) }
        ensures unique { (r : Register) → bar_of r ≡ DEVICE_BAR → offset_of r ≡ offset → result ≡ Some r }
    {
        match offset {
            VRRS_OFFSET => Some(Register::Vrrs),
            UVRS_OFFSET => Some(Register::Uvrs),
            DSAL_OFFSET => Some(Register::Dsal),
            DSAH_OFFSET => Some(Register::Dsah),
            CMD_OFFSET => Some(Register::Cmd),
            MACL_OFFSET => Some(Register::Macl),
            MACH_OFFSET => Some(Register::Mach),
            ICR_OFFSET => Some(Register::Icr),
            ECR_OFFSET => Some(Register::Ecr),
            _ => None,
        }
    }

    /// The offset in the register's BAR, in bytes.
    pub fn offset(&self) -> u32
        ensures value { result ≡ offset_of self.now }
    {
        match self {
            Register::Vrrs => VRRS_OFFSET,
            Register::Uvrs => UVRS_OFFSET,
            Register::Dsal => DSAL_OFFSET,
            Register::Dsah => DSAH_OFFSET,
            Register::Cmd => CMD_OFFSET,
            Register::Macl => MACL_OFFSET,
            Register::Mach => MACH_OFFSET,
            Register::Icr => ICR_OFFSET,
            Register::Ecr => ECR_OFFSET,
            Register::Imr(interrupt) => IMR_OFFSET + REGISTER_STRIDE * interrupt.number,
            Register::TxProd(queue) => TXPROD_OFFSET + REGISTER_STRIDE * queue.number,
            Register::RxProd(queue) => RXPROD_OFFSET + REGISTER_STRIDE * queue.number,
            Register::RxProd2(queue) => RXPROD2_OFFSET + REGISTER_STRIDE * queue.number,
        }
    }

    /// The BAR that the register stands in, 0 or 1.
    pub fn bar(&self) -> u32
        ensures value { result ≡ bar_of self.now }
    {
        match self {
            Register::Imr(_) | Register::TxProd(_) | Register::RxProd(_) | Register::RxProd2(_) =>
                DOORBELL_BAR,
            _ => DEVICE_BAR,
        }
    }
}

impl InterruptIndex {
    ghost use Rattle.std.specs.Prelude.{◌≡◌, ◌≢◌, ◌+◌, ◌*◌, IfSome, IfNone, Some};
    ghost use Rattle.vmx_layout.specs.declared.register.InterruptIndex.{InterruptIndex};

    /// The interrupt whose mask stands at the offset.
    fn at(offset: u32) -> Option<InterruptIndex>
        ensures found { IfSome result (λ i. IMR_OFFSET + REGISTER_STRIDE * i.number ≡ offset) }
        ensures unique { (i : InterruptIndex) → IMR_OFFSET + REGISTER_STRIDE * i.number ≡ offset → result ≡ Some i }
        ensures none { IfNone result ((i : InterruptIndex) → IMR_OFFSET + REGISTER_STRIDE * i.number ≢ offset) }
    {
        let number = offset / REGISTER_STRIDE;
        if offset % REGISTER_STRIDE == 0 && number < MAX_INTERRUPTS {
            Some(InterruptIndex { number })
        } else {
            None
        }
    }
}

impl QueueIndex {
    ghost use Rattle.std.specs.Prelude.{◌≡◌, ◌≢◌, ◌+◌, ◌*◌, IfSome, IfNone, Some};
    ghost use Rattle.vmx_layout.specs.declared.register.QueueIndex.{QueueIndex};

    /// The queue whose doorbell stands at the offset, where queue 0's stands at `base`.
    fn at(base: u32, offset: u32) -> Option<QueueIndex>
        ensures found { IfSome result (λ q. base + REGISTER_STRIDE * q.number ≡ offset) }
        ensures unique { (q : QueueIndex) → base + REGISTER_STRIDE * q.number ≡ offset → result ≡ Some q }
        ensures none { IfNone result ((q : QueueIndex) → base + REGISTER_STRIDE * q.number ≢ offset) }
    {
        if offset < base {
            return None;
        }
        let above = offset - base;
        let number = above / REGISTER_STRIDE;
        if above % REGISTER_STRIDE == 0 && number < MAX_QUEUES {
            Some(QueueIndex { number })
        } else {
            None
        }
    }
}
