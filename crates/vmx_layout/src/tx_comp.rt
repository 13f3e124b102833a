//! A transmit completion: the device's word to the driver that a packet has been sent.
//! The device owns it until its generation is the ring's.

ghost use Rattle.std.specs.Prelude.{◌<◌, ◌^◌, ◌≡◌};
ghost use Rattle.vmx_layout.specs.declared.tx_comp.TheConstants.{TX_COMPLETION_TYPE, TXD_IDX_WIDTH};

use crate::bits::{field, flag};
use crate::fault::FieldFault;

/// The type of a transmit completion: Linux's VMXNET3_CDTYPE_TXCOMP.
pub const TX_COMPLETION_TYPE: u8 = 0;

// The lowest bit of each field in its word, of which parts 1 and 3 begin at bit 32.
// The fields are Linux's (`struct Vmxnet3_TxCompDesc`).
pub const TXD_IDX: u32 = 0;

pub const UNNAMED_PART0: u32 = 12;

pub const UNNAMED_PART1: u32 = 32;

pub const UNNAMED_PART2: u32 = 0;

pub const UNNAMED_PART3: u32 = 32;

pub const KIND: u32 = 56;

pub const GENERATION: u32 = 63;

// The width in bits of each field that is wider than a bit.
pub const TXD_IDX_WIDTH: u32 = 12;

pub const UNNAMED_PART0_WIDTH: u32 = 20;

pub const UNNAMED_PART1_WIDTH: u32 = 32;

pub const UNNAMED_PART2_WIDTH: u32 = 32;

pub const UNNAMED_PART3_WIDTH: u32 = 24;

pub const KIND_WIDTH: u32 = 7;

/// A transmit completion.
///
/// ```text
/// part 0      txdIdx 0-11                    bits 0-31 of the first word
/// part 3      type 24-30, gen 31             bits 32-63 of the second word
/// ```
///
/// These are Linux's fields. All other bits must be 0, which is own to this project.
#[derive(Clone, Copy, Debug, PartialEq, Eq)]
pub struct TxComp {
    /// The index of the packet's last descriptor in its ring, 0 to 4,095.
    pub txd_idx: u16,
    /// The type, `TX_COMPLETION_TYPE`.
    pub kind: u8,
    /// Bit 31 of part 3: the ring's generation where the driver owns the completion.
    pub generation: bool,
    ghost txd_idx_fits: { txd_idx < 2 ^ TXD_IDX_WIDTH },
    ghost kind_is: { kind ≡ TX_COMPLETION_TYPE },
}

impl TxComp {
    ghost use Rattle.std.specs.Prelude.{IfOk, IfErr, Some, None, slice_index};
    ghost use Rattle.vmx_layout.specs.Bits.{field as field_of};
    ghost use Rattle.vmx_layout.specs.declared.tx_comp.TxComp.{TxComp};
    ghost use Rattle.vmx_layout.specs.TxComp.{words_of, HasFields, fault};

    /// The two words: parts 0 and 1, then parts 2 and 3, the lower part in the lower half.
    pub fn to_words(&self) -> [u64; 2]
        ensures value { result ≡ words_of self.now }
    {
        let first = u64::from(self.txd_idx) << TXD_IDX;
        let second = (u64::from(self.kind) << KIND) + (u64::from(self.generation) << GENERATION);
        [first, second]
    }

    /// The completion that two words are.
    ///
    /// # Errors
    ///
    /// `Reserved` exactly where a bit without a name is set, with the lowest such part: bits 12 to 31 of part 0,
    /// all of parts 1 and 2, or bits 0 to 23 of part 3. `Kind` exactly where none is and the type is not 0.
    pub fn of_words(words: [u64; 2]) -> Result<TxComp, FieldFault>
        ensures found { IfOk result (λ d. words ≡ words_of d) }
        ensures unique { (d : TxComp) → words ≡ words_of d → result ≡ Ok d }
        ensures fields { IfOk result (λ d. HasFields words d) }
        ensures sound { IfOk result (λ _. fault words ≡ None) }
        ensures faults { IfErr result (λ e. fault words ≡ Some e) }
    {
        if field(words[0], UNNAMED_PART0, UNNAMED_PART0_WIDTH) != 0 {
            return Err(FieldFault::Reserved { part: 0 });
        }
        if field(words[0], UNNAMED_PART1, UNNAMED_PART1_WIDTH) != 0 {
            return Err(FieldFault::Reserved { part: 1 });
        }
        if field(words[1], UNNAMED_PART2, UNNAMED_PART2_WIDTH) != 0 {
            return Err(FieldFault::Reserved { part: 2 });
        }
        if field(words[1], UNNAMED_PART3, UNNAMED_PART3_WIDTH) != 0 {
            return Err(FieldFault::Reserved { part: 3 });
        }
        let found = field(words[1], KIND, KIND_WIDTH) as u32;
        if found != u32::from(TX_COMPLETION_TYPE) {
            return Err(FieldFault::Kind { found });
        }
        Ok(Self::fields(words))
    }

    /// The index of the packet's last descriptor, in a first word alone.
    pub fn index_of_first(word: u64) -> u16
        ensures field { result ≡ field_of word TXD_IDX TXD_IDX_WIDTH }
    {
        field(word, TXD_IDX, TXD_IDX_WIDTH) as u16
    }

    /// The fields where they stand, whatever the bits without a name are.
    fn fields(words: [u64; 2]) -> TxComp
        requires kind { field_of (slice_index words 1) KIND KIND_WIDTH ≡ TX_COMPLETION_TYPE }
        ensures fields { HasFields words result }
    {
        let [first, second] = words;
        TxComp {
            txd_idx: field(first, TXD_IDX, TXD_IDX_WIDTH) as u16,
            kind: TX_COMPLETION_TYPE,
            generation: flag(second, GENERATION),
        }
    }
}
