//! A receive completion: the device's word to the driver that a buffer has a piece of a frame.
//! The device owns it until its generation is the ring's; the first one of a frame gets that last (own).

ghost use Rattle.std.specs.Prelude.{◌<◌, ◌^◌, ◌≡◌};
ghost use Rattle.vmx_layout.specs.declared.rx_comp.TheConstants.{RX_COMPLETION_TYPE, RXD_IDX_WIDTH, RQ_ID_WIDTH, RSS_TYPE_WIDTH, RSS_HASH_WIDTH, LEN_WIDTH, TCI_WIDTH, CSUM_WIDTH};

use crate::bits::{field, flag};
use crate::fault::FieldFault;

/// The type of a receive completion: Linux's VMXNET3_CDTYPE_RXCOMP.
pub const RX_COMPLETION_TYPE: u8 = 3;

// The lowest bit of each field in its word, of which parts 1 and 3 begin at bit 32.
// The fields are Linux's (`struct Vmxnet3_RxCompDesc`).
pub const RXD_IDX: u32 = 0;

pub const UNNAMED: u32 = 12;

pub const EOP: u32 = 14;

pub const SOP: u32 = 15;

pub const RQ_ID: u32 = 16;

pub const RSS_TYPE: u32 = 26;

pub const CNC: u32 = 30;

pub const UNNAMED_LAST: u32 = 31;

pub const RSS_HASH: u32 = 32;

pub const LEN: u32 = 0;

pub const ERR: u32 = 14;

pub const TS: u32 = 15;

pub const TCI: u32 = 16;

pub const CSUM: u32 = 32;

pub const TUC: u32 = 48;

pub const UDP: u32 = 49;

pub const TCP: u32 = 50;

pub const IPC: u32 = 51;

pub const V6: u32 = 52;

pub const V4: u32 = 53;

pub const FRG: u32 = 54;

pub const FCS: u32 = 55;

pub const KIND: u32 = 56;

pub const GENERATION: u32 = 63;

// The width in bits of each field that is wider than a bit.
pub const RXD_IDX_WIDTH: u32 = 12;

pub const UNNAMED_WIDTH: u32 = 2;

pub const RQ_ID_WIDTH: u32 = 10;

pub const RSS_TYPE_WIDTH: u32 = 4;

pub const RSS_HASH_WIDTH: u32 = 32;

pub const LEN_WIDTH: u32 = 14;

pub const TCI_WIDTH: u32 = 16;

pub const CSUM_WIDTH: u32 = 16;

pub const KIND_WIDTH: u32 = 7;

/// A receive completion.
///
/// ```text
/// part 0      rxdIdx 0-11, eop 14, sop 15, rqID 16-25, rssType 26-29, cnc 30     bits 0-31 of the first word
/// part 1      rssHash                                                            bits 32-63 of the first word
/// part 2      len 0-13, err 14, ts 15, tci 16-31                                 bits 0-31 of the second word
/// part 3      csum 0-15, tuc 16, udp 17, tcp 18, ipc 19, v6 20, v4 21, frg 22,   bits 32-63 of the second word
///             fcs 23, type 24-30, gen 31
/// ```
///
/// These are Linux's fields. The bits 12, 13 and 31 of part 0 must be 0, which is own to this project.
#[derive(Clone, Copy, Debug, PartialEq, Eq)]
pub struct RxComp {
    /// The index of the descriptor in its ring, 0 to 4,095.
    pub rxd_idx: u16,
    /// The last piece of its frame.
    pub eop: bool,
    /// The first piece of its frame.
    pub sop: bool,
    /// Of n receive queues, q for ring 1 of queue q and n + q for its ring 2. 2 * n + q says that the frame lies in the
    /// data ring of queue q, at the index of its head in ring 1. The three ranges are own to this project.
    pub rq_id: u16,
    /// The kind of hash: 0 none, 1 IPv4, 2 TCP over IPv4, 3 IPv6, 4 TCP over IPv6.
    pub rss_type: u8,
    /// No checksum was computed.
    pub cnc: bool,
    /// The hash of the frame's flow, or 0.
    pub rss_hash: u32,
    /// The piece's length in bytes, 0 to 16,383.
    pub len: u16,
    /// The frame has an error.
    pub err: bool,
    /// A tag was taken off.
    pub ts: bool,
    /// The tag control information that was taken off (IEEE 802.1Q).
    pub tci: u16,
    /// The ones' complement sum of the frame after its link header (RFC 1071), where one was computed.
    pub csum: u16,
    /// The TCP or UDP checksum is right.
    pub tuc: bool,
    /// The frame is UDP.
    pub udp: bool,
    /// The frame is TCP.
    pub tcp: bool,
    /// The IP checksum is right.
    pub ipc: bool,
    /// The frame is IPv6.
    pub v6: bool,
    /// The frame is IPv4.
    pub v4: bool,
    /// The frame is an IP fragment.
    pub frg: bool,
    /// The frame's check sequence is right.
    pub fcs: bool,
    /// The type, `RX_COMPLETION_TYPE`.
    pub kind: u8,
    /// Bit 31 of part 3: the ring's generation where the driver owns the completion.
    pub generation: bool,
    ghost rxd_idx_fits: { rxd_idx < 2 ^ RXD_IDX_WIDTH },
    ghost rq_id_fits: { rq_id < 2 ^ RQ_ID_WIDTH },
    ghost rss_type_fits: { rss_type < 2 ^ RSS_TYPE_WIDTH },
    ghost rss_hash_fits: { rss_hash < 2 ^ RSS_HASH_WIDTH },
    ghost len_fits: { len < 2 ^ LEN_WIDTH },
    ghost tci_fits: { tci < 2 ^ TCI_WIDTH },
    ghost csum_fits: { csum < 2 ^ CSUM_WIDTH },
    ghost kind_is: { kind ≡ RX_COMPLETION_TYPE },
}

impl RxComp {
    ghost use Rattle.std.specs.Prelude.{IfOk, IfErr, Some, None, slice_index};
    ghost use Rattle.vmx_layout.specs.Bits.{bit, field as field_of};
    ghost use Rattle.vmx_layout.specs.declared.rx_comp.RxComp.{RxComp};
    ghost use Rattle.vmx_layout.specs.RxComp.{words_of, HasFields, fault};

    /// The two words: parts 0 and 1, then parts 2 and 3, the lower part in the lower half.
    pub fn to_words(&self) -> [u64; 2]
        ensures value { result ≡ words_of self.now }
    {
        let first = (u64::from(self.rxd_idx) << RXD_IDX)
            + (u64::from(self.eop) << EOP)
            + (u64::from(self.sop) << SOP)
            + (u64::from(self.rq_id) << RQ_ID)
            + (u64::from(self.rss_type) << RSS_TYPE)
            + (u64::from(self.cnc) << CNC)
            + (u64::from(self.rss_hash) << RSS_HASH);
        let second = (u64::from(self.len) << LEN)
            + (u64::from(self.err) << ERR)
            + (u64::from(self.ts) << TS)
            + (u64::from(self.tci) << TCI)
            + (u64::from(self.csum) << CSUM)
            + (u64::from(self.tuc) << TUC)
            + (u64::from(self.udp) << UDP)
            + (u64::from(self.tcp) << TCP)
            + (u64::from(self.ipc) << IPC)
            + (u64::from(self.v6) << V6)
            + (u64::from(self.v4) << V4)
            + (u64::from(self.frg) << FRG)
            + (u64::from(self.fcs) << FCS)
            + (u64::from(self.kind) << KIND)
            + (u64::from(self.generation) << GENERATION);
        [first, second]
    }

    /// The completion that two words are.
    ///
    /// # Errors
    ///
    /// `Reserved { part: 0 }` exactly where bit 12, 13 or 31 of part 0 is set. `Kind` exactly where none is and the
    /// type is not 3.
    pub fn of_words(words: [u64; 2]) -> Result<RxComp, FieldFault>
        ensures found { IfOk result (λ d. words ≡ words_of d) }
        ensures unique { (d : RxComp) → words ≡ words_of d → result ≡ Ok d }
        ensures fields { IfOk result (λ d. HasFields words d) }
        ensures sound { IfOk result (λ _. fault words ≡ None) }
        ensures faults { IfErr result (λ e. fault words ≡ Some e) }
    {
        if field(words[0], UNNAMED, UNNAMED_WIDTH) != 0 || flag(words[0], UNNAMED_LAST) {
            return Err(FieldFault::Reserved { part: 0 });
        }
        let found = field(words[1], KIND, KIND_WIDTH) as u32;
        if found != u32::from(RX_COMPLETION_TYPE) {
            return Err(FieldFault::Kind { found });
        }
        Ok(Self::fields(words))
    }

    /// The piece's length in a second word alone, in bytes.
    pub fn len_of_second(word: u64) -> u16
        ensures field { result ≡ field_of word LEN LEN_WIDTH }
    {
        field(word, LEN, LEN_WIDTH) as u16
    }

    /// Whether a first word alone is that of the last piece of its frame.
    pub fn ends_packet(word: u64) -> bool
        ensures field { bit result ≡ field_of word EOP 1 }
    {
        flag(word, EOP)
    }

    /// The fields where they stand, whatever the bits without a name are.
    fn fields(words: [u64; 2]) -> RxComp
        requires kind { field_of (slice_index words 1) KIND KIND_WIDTH ≡ RX_COMPLETION_TYPE }
        ensures fields { HasFields words result }
    {
        let [first, second] = words;
        RxComp {
            rxd_idx: field(first, RXD_IDX, RXD_IDX_WIDTH) as u16,
            eop: flag(first, EOP),
            sop: flag(first, SOP),
            rq_id: field(first, RQ_ID, RQ_ID_WIDTH) as u16,
            rss_type: field(first, RSS_TYPE, RSS_TYPE_WIDTH) as u8,
            cnc: flag(first, CNC),
            rss_hash: field(first, RSS_HASH, RSS_HASH_WIDTH) as u32,
            len: field(second, LEN, LEN_WIDTH) as u16,
            err: flag(second, ERR),
            ts: flag(second, TS),
            tci: field(second, TCI, TCI_WIDTH) as u16,
            csum: field(second, CSUM, CSUM_WIDTH) as u16,
            tuc: flag(second, TUC),
            udp: flag(second, UDP),
            tcp: flag(second, TCP),
            ipc: flag(second, IPC),
            v6: flag(second, V6),
            v4: flag(second, V4),
            frg: flag(second, FRG),
            fcs: flag(second, FCS),
            kind: RX_COMPLETION_TYPE,
            generation: flag(second, GENERATION),
        }
    }
}
