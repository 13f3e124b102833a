//! The commands that a driver writes into the register CMD. The numbers are Linux's, but those of GET_DID_LO,
//! GET_DID_HI and GET_DEV_EXTRA_INFO, which are own to this project.

ghost use Rattle.std.specs.Prelude.{◌≡◌, IfSome, IfNone, Some};
ghost use Rattle.vmx_layout.specs.declared.command.Command.{Command};
ghost use Rattle.vmx_layout.specs.Command.{number_of, IsNoCommand};

/// A command of the driver: 0xCAFE.... sets something, 0xF00D.... asks for a value.
#[derive(Clone, Copy, Debug, PartialEq, Eq)]
pub enum Command {
    /// Takes the image of the shared area and the queue ends of the bag. Answers 0, or the number of the first failing check, 1 to 9.
    ActivateDev,
    /// Ends the activation: the queue ends go back into the bag.
    QuiesceDev,
    /// Ends the activation as `QuiesceDev` does, and clears stopped queues with their errors.
    ResetDev,
    /// Takes the receive mode, 4 bytes of bits, from the image anew.
    UpdateRxMode,
    /// Takes the multicast table, at most 256 addresses of 6 bytes, from the image anew.
    UpdateMacFilters,
    /// Takes the VLAN table, a bit for each identifier 0 to 4,095, from the image anew.
    UpdateVlanFilters,
    /// Takes the size and the entries of the RSS indirection table from the image anew.
    UpdateRssidt,
    /// Takes the interrupt moderation levels, a byte for each of 25 interrupts, from the image anew.
    UpdateIml,
    /// Power management. Not supported: answered like a number without a command.
    UpdatePmcfg,
    /// Takes the features (RXCSUM, RSS, RXVLAN) from the image anew.
    UpdateFeature,
    /// Writes into the image, for each queue, whether it is stopped, and its error number.
    GetQueueStatus,
    /// Writes into the image the ten statistics of each queue, in frames and bytes.
    GetStats,
    /// Answers the link's speed in megabits a second in bits 16 to 31, and in bit 0 whether it is up.
    GetLink,
    /// Answers bytes 0 to 3 of the permanent MAC address, byte 0 in bits 0 to 7.
    GetPermMacLo,
    /// Answers bytes 4 and 5 of the permanent MAC address, byte 4 in bits 0 to 7.
    GetPermMacHi,
    /// Answers the low half of the device's identity: the PCI device number of vmxnet3.
    GetDidLo,
    /// Answers the high half of the device's identity: the device revision.
    GetDidHi,
    /// Answers further facts about the device: there are none, so 0.
    GetDevExtraInfo,
    /// Answers the interrupts' configuration: the type in bits 0 and 1, the mask mode in bits 2 and 3.
    GetConfIntr,
}

/// Linux's VMXNET3_CMD_ACTIVATE_DEV.
pub const ACTIVATE_DEV: u32 = 0xcafe_0000;
/// Linux's VMXNET3_CMD_QUIESCE_DEV.
pub const QUIESCE_DEV: u32 = 0xcafe_0001;
/// Linux's VMXNET3_CMD_RESET_DEV.
pub const RESET_DEV: u32 = 0xcafe_0002;
/// Linux's VMXNET3_CMD_UPDATE_RX_MODE.
pub const UPDATE_RX_MODE: u32 = 0xcafe_0003;
/// Linux's VMXNET3_CMD_UPDATE_MAC_FILTERS.
pub const UPDATE_MAC_FILTERS: u32 = 0xcafe_0004;
/// Linux's VMXNET3_CMD_UPDATE_VLAN_FILTERS.
pub const UPDATE_VLAN_FILTERS: u32 = 0xcafe_0005;
/// Linux's VMXNET3_CMD_UPDATE_RSSIDT.
pub const UPDATE_RSSIDT: u32 = 0xcafe_0006;
/// Linux's VMXNET3_CMD_UPDATE_IML.
pub const UPDATE_IML: u32 = 0xcafe_0007;
/// Linux's VMXNET3_CMD_UPDATE_PMCFG.
pub const UPDATE_PMCFG: u32 = 0xcafe_0008;
/// Linux's VMXNET3_CMD_UPDATE_FEATURE.
pub const UPDATE_FEATURE: u32 = 0xcafe_0009;
/// Linux's VMXNET3_CMD_GET_QUEUE_STATUS.
pub const GET_QUEUE_STATUS: u32 = 0xf00d_0000;
/// Linux's VMXNET3_CMD_GET_STATS.
pub const GET_STATS: u32 = 0xf00d_0001;
/// Linux's VMXNET3_CMD_GET_LINK.
pub const GET_LINK: u32 = 0xf00d_0002;
/// Linux's VMXNET3_CMD_GET_PERM_MAC_LO.
pub const GET_PERM_MAC_LO: u32 = 0xf00d_0003;
/// Linux's VMXNET3_CMD_GET_PERM_MAC_HI.
pub const GET_PERM_MAC_HI: u32 = 0xf00d_0004;
/// Own to this project: the next number of its group that Linux's revision 1 leaves free.
pub const GET_DID_LO: u32 = 0xf00d_0005;
/// Own to this project: the next number of its group that Linux's revision 1 leaves free.
pub const GET_DID_HI: u32 = 0xf00d_0006;
/// Own to this project: the next number of its group that Linux's revision 1 leaves free.
pub const GET_DEV_EXTRA_INFO: u32 = 0xf00d_0007;
/// Linux's VMXNET3_CMD_GET_CONF_INTR.
pub const GET_CONF_INTR: u32 = 0xf00d_0008;

impl Command {
    /// The command of a number, or None exactly where no command has it.
    pub fn of(number: u32) -> Option<Command>
        ensures found { IfSome result (λ c. number_of c ≡ number) }
        ensures none { IfNone result (IsNoCommand number) }
        ensures unique { (c : Command) → number_of c ≡ number → result ≡ Some c }
    {
        match number {
            ACTIVATE_DEV => Some(Command::ActivateDev),
            QUIESCE_DEV => Some(Command::QuiesceDev),
            RESET_DEV => Some(Command::ResetDev),
            UPDATE_RX_MODE => Some(Command::UpdateRxMode),
            UPDATE_MAC_FILTERS => Some(Command::UpdateMacFilters),
            UPDATE_VLAN_FILTERS => Some(Command::UpdateVlanFilters),
            UPDATE_RSSIDT => Some(Command::UpdateRssidt),
            UPDATE_IML => Some(Command::UpdateIml),
            UPDATE_PMCFG => Some(Command::UpdatePmcfg),
            UPDATE_FEATURE => Some(Command::UpdateFeature),
            GET_QUEUE_STATUS => Some(Command::GetQueueStatus),
            GET_STATS => Some(Command::GetStats),
            GET_LINK => Some(Command::GetLink),
            GET_PERM_MAC_LO => Some(Command::GetPermMacLo),
            GET_PERM_MAC_HI => Some(Command::GetPermMacHi),
            GET_DID_LO => Some(Command::GetDidLo),
            GET_DID_HI => Some(Command::GetDidHi),
            GET_DEV_EXTRA_INFO => Some(Command::GetDevExtraInfo),
            GET_CONF_INTR => Some(Command::GetConfIntr),
            _ => None,
        }
    }

    /// The number of 32 bits that a driver writes into the register CMD.
    pub fn number(&self) -> u32
        ensures value { result ≡ number_of self.now }
    {
        match self {
            Command::ActivateDev => ACTIVATE_DEV,
            Command::QuiesceDev => QUIESCE_DEV,
            Command::ResetDev => RESET_DEV,
            Command::UpdateRxMode => UPDATE_RX_MODE,
            Command::UpdateMacFilters => UPDATE_MAC_FILTERS,
            Command::UpdateVlanFilters => UPDATE_VLAN_FILTERS,
            Command::UpdateRssidt => UPDATE_RSSIDT,
            Command::UpdateIml => UPDATE_IML,
            Command::UpdatePmcfg => UPDATE_PMCFG,
            Command::UpdateFeature => UPDATE_FEATURE,
            Command::GetQueueStatus => GET_QUEUE_STATUS,
            Command::GetStats => GET_STATS,
            Command::GetLink => GET_LINK,
            Command::GetPermMacLo => GET_PERM_MAC_LO,
            Command::GetPermMacHi => GET_PERM_MAC_HI,
            Command::GetDidLo => GET_DID_LO,
            Command::GetDidHi => GET_DID_HI,
            Command::GetDevExtraInfo => GET_DEV_EXTRA_INFO,
            Command::GetConfIntr => GET_CONF_INTR,
        }
    }
}
