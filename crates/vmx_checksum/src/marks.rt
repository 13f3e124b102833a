//! What a driver asks for with a seeded frame.

ghost use Rattle.std.specs.Prelude.{◌+◌, ◌<◌};
ghost use Rattle.vmx_checksum.specs.Checksum.{AsksChecksum};
ghost use Rattle.vmx_ends.specs.declared.meta.TheConstants.{HLEN_BOUND};

use crate::answer::Segment;
use crate::segments::CHECKSUM_AT;
use vmx_ends::TxMark;

/// The offload mode that asks for a checksum (Linux `VMXNET3_OM_CSUM`).
pub const OM_CHECKSUM: u32 = 2;

/// The mark of a frame with this segment: its checksum is asked for, summed from `l4` on.
pub fn mark_of(segment: Segment) -> TxMark
    requires low { segment.l4 < HLEN_BOUND }
    ensures mark { AsksChecksum result segment }
{
    TxMark {
        tci: None,
        om: OM_CHECKSUM,
        hlen: segment.l4,
        msscof: segment.l4 + CHECKSUM_AT as u32,
    }
}
