//! A receive descriptor: the driver's word to the device that a buffer may be filled.
//! The driver owns it until its generation is the ring's.

ghost use Rattle.std.specs.Prelude.{◌<◌, ◌^◌, ◌≡◌};
ghost use Rattle.vmx_layout.specs.declared.rx_desc.TheConstants.{LEN_WIDTH};

use crate::bits::{field, flag};
use crate::fault::FieldFault;

/// What a receive buffer may hold.
#[derive(Clone, Copy, Debug, PartialEq, Eq)]
pub enum BufferType {
    /// The first piece of a frame, or any other.
    Head,
    /// Any piece of a frame but the first.
    Body,
}

// The lowest bit of each field in the second word, of which part 3 begins at bit 32.
// The fields are Linux's (`struct Vmxnet3_RxDesc`).
pub const LEN: u32 = 0;

pub const BTYPE: u32 = 14;

pub const DTYPE: u32 = 15;

pub const UNNAMED: u32 = 16;

pub const GENERATION: u32 = 31;

pub const UNNAMED_PART3: u32 = 32;

// The width in bits of each field that is wider than a bit.
pub const LEN_WIDTH: u32 = 14;

pub const UNNAMED_WIDTH: u32 = 15;

pub const UNNAMED_PART3_WIDTH: u32 = 32;

/// A receive descriptor.
///
/// ```text
/// part 0, 1   addr                                    the first word
/// part 2      len 0-13, btype 14, dtype 15, gen 31    bits 0-31 of the second word
/// ```
///
/// These are Linux's fields. All other bits must be 0, which is own to this project.
#[derive(Clone, Copy, Debug, PartialEq, Eq)]
pub struct RxDesc {
    /// The guest physical address of the buffer.
    pub addr: u64,
    /// The buffer's length in bytes, where 0 stands for 16,384.
    pub len: u16,
    /// Bit 14 of part 2: 0 for a head, 1 for a body.
    pub btype: BufferType,
    /// Bit 15 of part 2: the descriptor's type. No end reads it.
    pub dtype: bool,
    /// Bit 31 of part 2: the ring's generation where the device owns the descriptor.
    pub generation: bool,
    ghost addr_fits: { addr < 2 ^ 64 },
    ghost len_fits: { len < 2 ^ LEN_WIDTH },
}

impl RxDesc {
    ghost use Rattle.std.specs.Prelude.{IfOk, IfErr, Some, None};
    ghost use Rattle.vmx_layout.specs.Bits.{bit, field as field_of};
    ghost use Rattle.vmx_layout.specs.declared.rx_desc.RxDesc.{RxDesc};
    ghost use Rattle.vmx_layout.specs.RxDesc.{words_of, HasFields, fault};

    /// The two words: parts 0 and 1, then parts 2 and 3, the lower part in the lower half.
    pub fn to_words(&self) -> [u64; 2]
        ensures value { result ≡ words_of self.now }
    {
        let second = (u64::from(self.len) << LEN)
            + (self.btype.bit() << BTYPE)
            + (u64::from(self.dtype) << DTYPE)
            + (u64::from(self.generation) << GENERATION);
        [self.addr, second]
    }

    /// The descriptor that two words are.
    ///
    /// # Errors
    ///
    /// `Reserved` exactly where a bit without a name is set, with the lowest such part: bits 16 to 30 of part 2,
    /// or any bit of part 3.
    pub fn of_words(words: [u64; 2]) -> Result<RxDesc, FieldFault>
        ensures found { IfOk result (λ d. words ≡ words_of d) }
        ensures unique { (d : RxDesc) → words ≡ words_of d → result ≡ Ok d }
        ensures fields { IfOk result (λ d. HasFields words d) }
        ensures sound { IfOk result (λ _. fault words ≡ None) }
        ensures faults { IfErr result (λ e. fault words ≡ Some e) }
    {
        if field(words[1], UNNAMED, UNNAMED_WIDTH) != 0 {
            return Err(FieldFault::Reserved { part: 2 });
        }
        if field(words[1], UNNAMED_PART3, UNNAMED_PART3_WIDTH) != 0 {
            return Err(FieldFault::Reserved { part: 3 });
        }
        Ok(Self::fields(words))
    }

    /// The length in a second word alone, in bytes, where 0 stands for 16,384.
    pub fn len_of_second(word: u64) -> u16
        ensures field { result ≡ field_of word LEN LEN_WIDTH }
    {
        field(word, LEN, LEN_WIDTH) as u16
    }

    /// Whether a second word alone is that of a body.
    pub fn is_body(word: u64) -> bool
        ensures field { bit result ≡ field_of word BTYPE 1 }
    {
        flag(word, BTYPE)
    }

    /// The fields where they stand, whatever the bits without a name are.
    fn fields(words: [u64; 2]) -> RxDesc
        ensures fields { HasFields words result }
    {
        let [first, second] = words;
        RxDesc {
            addr: first,
            len: field(second, LEN, LEN_WIDTH) as u16,
            btype: BufferType::of_bit(flag(second, BTYPE)),
            dtype: flag(second, DTYPE),
            generation: flag(second, GENERATION),
        }
    }
}

impl BufferType {
    ghost use Rattle.vmx_layout.specs.Bits.{bit};
    ghost use Rattle.vmx_layout.specs.BufferType.{btype_bit};

    fn bit(self) -> u64
        ensures value { result ≡ btype_bit self }
    {
        match self {
            BufferType::Head => 0,
            BufferType::Body => 1,
        }
    }

    fn of_bit(body: bool) -> BufferType
        ensures value { btype_bit result ≡ bit body }
    {
        if body {
            BufferType::Body
        } else {
            BufferType::Head
        }
    }
}
