//! What is told of a frame beside its bytes.
ghost use Rattle.std.specs.Prelude.{◌≤◌, ◌<◌, ◌≢◌};
ghost use Rattle.vmx_ends.specs.declared.meta.TheConstants.{MAX_KIND, OM_UNLAWFUL, OM_BOUND, HLEN_BOUND, MSSCOF_BOUND};

/// The greatest kind of a hash.
pub const MAX_KIND: u32 = 4;

/// The offload mode that no descriptor may have (Linux `VMXNET3_OM_ENCAP`).
pub const OM_UNLAWFUL: u32 = 1;

/// Offload modes have two bits.
pub const OM_BOUND: u32 = 4;

/// Lengths of headers have ten bits.
pub const HLEN_BOUND: u32 = 1_024;

/// Segment sizes and offsets of checksums have 14 bits.
pub const MSSCOF_BOUND: u32 = 16_384;

/// What a device tells of a frame that it received: the hash of its flow, the kind of hash (0 none, 1 to 4 as in a receive
/// completion's `rssType`), and the two bytes of a tag that was taken out.
#[derive(Clone, Copy, Debug, PartialEq, Eq)]
pub struct RxMeta {
    pub hash: u32,
    pub kind: u32,
    pub tci: Option<u16>,
    pub ghost kinds: { kind ≤ MAX_KIND },
}

/// What a driver asks for with a frame: the two bytes of a tag that is to be put in, and an offload (0 none, 2 checksum,
/// 3 TSO) with its header length and its size or offset.
#[derive(Clone, Copy, Debug, PartialEq, Eq)]
pub struct TxMark {
    pub tci: Option<u16>,
    pub om: u32,
    pub hlen: u32,
    pub msscof: u32,
    pub ghost om_low: { om < OM_BOUND },
    pub ghost om_lawful: { om ≢ OM_UNLAWFUL },
    pub ghost hlen_low: { hlen < HLEN_BOUND },
    pub ghost msscof_low: { msscof < MSSCOF_BOUND },
}

impl TxMark {
    ghost use Rattle.std.specs.Prelude.{◌≡◌};
    ghost use Rattle.vmx_ends.specs.Marks.{plain_mark};

    /// No tag and no offload.
    pub fn plain() -> TxMark
        ensures plain { result ≡ plain_mark }
    {
        TxMark {
            tci: None,
            om: 0,
            hlen: 0,
            msscof: 0,
        }
    }
}
