//! A transmit descriptor: the driver's word to the device that a buffer has a piece of a packet.
//! The driver owns it until its generation is the ring's; the first one of a packet gets that last.

ghost use Rattle.std.specs.Prelude.{◌<◌, ◌^◌};
ghost use Rattle.vmx_layout.specs.declared.tx_desc.TheConstants.{LEN_WIDTH, MSSCOF_WIDTH, HLEN_WIDTH, OM_WIDTH, TCI_WIDTH};

use crate::bits::{field, flag};
use crate::fault::FieldFault;

// The lowest bit of each field in the second word, of which part 3 begins at bit 32. The fields and part 3 are Linux's
// (`struct Vmxnet3_TxDesc`); the bits of part 2 are this project's profile.
pub const LEN: u32 = 0;

pub const GENERATION: u32 = 14;

pub const UNNAMED: u32 = 15;

pub const DTYPE: u32 = 16;

pub const EXT1: u32 = 17;

pub const MSSCOF: u32 = 18;

pub const HLEN: u32 = 32;

pub const OM: u32 = 42;

pub const EOP: u32 = 44;

pub const CQ: u32 = 45;

pub const EXT2: u32 = 46;

pub const TI: u32 = 47;

pub const TCI: u32 = 48;

// The width in bits of each field that is wider than a bit.
pub const LEN_WIDTH: u32 = 14;

pub const MSSCOF_WIDTH: u32 = 14;

pub const HLEN_WIDTH: u32 = 10;

pub const OM_WIDTH: u32 = 2;

pub const TCI_WIDTH: u32 = 16;

/// A transmit descriptor.
///
/// ```text
/// part 0, 1   addr                                                              the first word
/// part 2      len 0-13, gen 14, dtype 16, ext1 17, msscof 18-31                 bits 0-31 of the second
/// part 3      hlen 0-9, om 10-11, eop 12, cq 13, ext2 14, ti 15, tci 16-31      bits 32-63 of the second
/// ```
///
/// The fields and part 3 are Linux's; the bit positions in part 2 are this project's profile.
#[derive(Clone, Copy, Debug, PartialEq, Eq)]
pub struct TxDesc {
    /// The guest physical address of the buffer.
    pub addr: u64,
    /// The piece's length in bytes, where 0 stands for 16,384.
    pub len: u16,
    /// Bit 14 of part 2: the ring's generation where the device owns the descriptor.
    pub generation: bool,
    /// Bit 16 of part 2: the descriptor's type. No end reads it.
    pub dtype: bool,
    /// Bit 17 of part 2: an extension. No end reads it.
    pub ext1: bool,
    /// The maximum segment size in bytes (`om` 3), or the checksum's offset from the frame's first byte (`om` 2); 0 to 16,383.
    pub msscof: u16,
    /// The length of the headers in bytes, 0 to 1,023.
    pub hlen: u16,
    /// The offload mode: 0 none, 2 checksum, 3 TSO. The queue ends refuse 1.
    pub om: u8,
    /// Bit 12 of part 3: the last descriptor of its packet.
    pub eop: bool,
    /// Bit 13 of part 3: a completion is wanted.
    pub cq: bool,
    /// Bit 14 of part 3: an extension. No end reads it.
    pub ext2: bool,
    /// Bit 15 of part 3: a tag is to be inserted.
    pub ti: bool,
    /// The tag control information to insert (IEEE 802.1Q): priority in bits 13 to 15, VLAN identifier in bits 0 to 11.
    pub tci: u16,
    ghost addr_fits: { addr < 2 ^ 64 },
    ghost len_fits: { len < 2 ^ LEN_WIDTH },
    ghost msscof_fits: { msscof < 2 ^ MSSCOF_WIDTH },
    ghost hlen_fits: { hlen < 2 ^ HLEN_WIDTH },
    ghost om_fits: { om < 2 ^ OM_WIDTH },
    ghost tci_fits: { tci < 2 ^ TCI_WIDTH },
}

impl TxDesc {
    ghost use Rattle.std.specs.Prelude.{◌≡◌, IfOk, IfErr, Some, None};
    ghost use Rattle.vmx_layout.specs.Bits.{bit, field as field_of};
    ghost use Rattle.vmx_layout.specs.declared.tx_desc.TxDesc.{TxDesc};
    ghost use Rattle.vmx_layout.specs.TxDesc.{words_of, HasFields, fault};

    /// The two words: parts 0 and 1, then parts 2 and 3, the lower part in the lower half.
    pub fn to_words(&self) -> [u64; 2]
        ensures value { result ≡ words_of self.now }
    {
        let second = (u64::from(self.len) << LEN)
            + (u64::from(self.generation) << GENERATION)
            + (u64::from(self.dtype) << DTYPE)
            + (u64::from(self.ext1) << EXT1)
            + (u64::from(self.msscof) << MSSCOF)
            + (u64::from(self.hlen) << HLEN)
            + (u64::from(self.om) << OM)
            + (u64::from(self.eop) << EOP)
            + (u64::from(self.cq) << CQ)
            + (u64::from(self.ext2) << EXT2)
            + (u64::from(self.ti) << TI)
            + (u64::from(self.tci) << TCI);
        [self.addr, second]
    }

    /// The descriptor that two words are.
    ///
    /// # Errors
    ///
    /// `Reserved { part: 2 }` exactly where bit 15 of part 2, the one bit without a name, is set.
    pub fn of_words(words: [u64; 2]) -> Result<TxDesc, FieldFault>
        ensures found { IfOk result (λ d. words ≡ words_of d) }
        ensures unique { (d : TxDesc) → words ≡ words_of d → result ≡ Ok d }
        ensures fields { IfOk result (λ d. HasFields words d) }
        ensures sound { IfOk result (λ _. fault words ≡ None) }
        ensures faults { IfErr result (λ e. fault words ≡ Some e) }
    {
        if flag(words[1], UNNAMED) {
            return Err(FieldFault::Reserved { part: 2 });
        }
        Ok(Self::fields(words))
    }

    /// The length in a second word alone, in bytes, where 0 stands for 16,384.
    pub fn len_of_second(word: u64) -> u16
        ensures field { result ≡ field_of word LEN LEN_WIDTH }
    {
        field(word, LEN, LEN_WIDTH) as u16
    }

    /// Whether a second word alone is that of the last descriptor of its packet.
    pub fn ends_packet(word: u64) -> bool
        ensures field { bit result ≡ field_of word EOP 1 }
    {
        flag(word, EOP)
    }

    /// The fields where they stand, whatever the bit without a name is.
    fn fields(words: [u64; 2]) -> TxDesc
        ensures fields { HasFields words result }
    {
        let [first, second] = words;
        TxDesc {
            addr: first,
            len: field(second, LEN, LEN_WIDTH) as u16,
            generation: flag(second, GENERATION),
            dtype: flag(second, DTYPE),
            ext1: flag(second, EXT1),
            msscof: field(second, MSSCOF, MSSCOF_WIDTH) as u16,
            hlen: field(second, HLEN, HLEN_WIDTH) as u16,
            om: field(second, OM, OM_WIDTH) as u8,
            eop: flag(second, EOP),
            cq: flag(second, CQ),
            ext2: flag(second, EXT2),
            ti: flag(second, TI),
            tci: field(second, TCI, TCI_WIDTH) as u16,
        }
    }
}
