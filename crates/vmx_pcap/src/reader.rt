//! Reading a capture. A record counts where all its bytes are there; what stands after the last whole record and is
//! shorter than the record that it begins is the tail. Each frame is copied once, into memory of just its length.

ghost use Rattle.std.specs.Prelude.{◌≡◌, ◌⊎◌, ◌≤◌, length, IfOk, IfErr};
ghost use Rattle.vmx_pcap.specs.Capture.{IsWhole, IsTail, IsCapture, AreRecords, record_at, after_record, captured_length};
ghost use Rattle.vmx_pcap.specs.Faults.{Reads, Answers, fault_at, record_fault};
ghost use Rattle.vmx_pcap.specs.Front.{IsFront};

use crate::encoding::encoding_of;
use crate::fault::CaptureFault;
use crate::fields::{micros_of, u16_field, u32_field};
use crate::format::{
    CAPTURED_OFFSET, FILE_HEADER_SIZE, FRACTION_OFFSET, LINK_ETHERNET, LINK_OFFSET, MAGIC_OFFSET,
    MAJOR_OFFSET, MAX_CAPTURE, MAX_CAPTURED, MINOR_OFFSET, RECORD_HEADER_SIZE, SECONDS_OFFSET,
    VERSION_MAJOR, VERSION_MINOR,
};
use crate::kinds::{Encoding, Endian};
use crate::records::{Capture, Stamped};
use std::alloc::{AllocError, Global};
use vmx_io::{Bytes, List};

/// Reads a capture of at most `most` records.
///
/// The caller keeps the file within 67,108,864 bytes (`MAX_CAPTURE`). The checks are made in this order, and the first that
/// fails is the answer: `Header` below 24 bytes; `Magic`; `Version` where it is not 2.4; `Link` where it is not Ethernet; then
/// record by record `Long` where a record's header is there and its captured length is above 262,144 bytes, and `Many` where
/// another whole record follows after `most`. A last record that is cut is no fault: its bytes are the tail.
#[tactic(auto, using(crate::specs::Unique::fault_answers))]
pub fn read(alloc: Global, bytes: &[u8], most: u32) -> Result<Capture, CaptureFault>
    requires size { length bytes.now ≤ MAX_CAPTURE }
    // What the answer says of the bytes.
    ensures reads { Reads result bytes.now most }
    // A fault is answered exactly where it is the first check that fails.
    ensures fault { (e : CaptureFault) → fault_at bytes.now most ≡ Some e → Answers result (Err e) }
    // A capture within `most` records is read as just that.
    ensures capture { (c : Capture) → IsCapture bytes.now c.records c.tail → length c.records ≤ most → Answers result (Ok c) }
{
    read_file(alloc, bytes, most)
}

#[tactic(auto, using(crate::proofs::Bodies::capture_of), unfolding(crate::specs::Faults::fault_at))]
fn read_file(alloc: Global, bytes: &[u8], most: u32) -> Result<Capture, CaptureFault>
    requires size { length bytes.now ≤ MAX_CAPTURE }
    ensures reads { Reads result bytes.now most }
{
    if bytes.len() < FILE_HEADER_SIZE {
        return Err(CaptureFault::Header {
            len: bytes.len() as u32,
        });
    }
    let magic = u32_field(Endian::Big, bytes, MAGIC_OFFSET);
    let Some(encoding) = encoding_of(magic) else {
        return Err(CaptureFault::Magic { found: magic });
    };
    let major = u16_field(encoding.endian, bytes, MAJOR_OFFSET);
    let minor = u16_field(encoding.endian, bytes, MINOR_OFFSET);
    if major != VERSION_MAJOR || minor != VERSION_MINOR {
        return Err(CaptureFault::Version { major, minor });
    }
    let link = u32_field(encoding.endian, bytes, LINK_OFFSET);
    if link != LINK_ETHERNET {
        return Err(CaptureFault::Link { found: link });
    }
    let (_, body) = bytes.split_at(FILE_HEADER_SIZE);
    match read_records(alloc, encoding, body, most) {
        Ok((records, tail)) => Ok(Capture {
            records: List::of(records),
            tail: tail.len() as u32,
        }),
        Err(fault) => Err(fault),
    }
}

/// The whole records that the bytes begin with, and the tail after them.
#[tactic(auto, using(crate::proofs::Bodies::records_push, crate::specs::Unique::many_fault))]
fn read_records(
    alloc: Global,
    encoding: Encoding,
    bytes: &[u8],
    most: u32,
) -> Result<(Vec<Stamped>, &[u8]), CaptureFault>
    ensures found { IfOk result (λ x. AreRecords encoding bytes.now x.0.items x.1.now × IsTail encoding x.1.now × (length x.0.items ≤ most)) }
    ensures fault { IfErr result (λ e. (e ≡ CaptureFault.Memory) ⊎ (record_fault encoding 0 most bytes.now ≡ Some e)) }
{
    let mut records = Vec::new(alloc);
    let mut rest = bytes;
    for index in 0..most {
        match front_of(encoding, rest) {
            Front::Tail => return Ok((records, rest)),
            Front::Long(found) => return Err(CaptureFault::Long { index, found }),
            Front::Whole(len) => {
                let record = record_of(alloc, encoding, rest, len).map_err(
                    |_| CaptureFault::Memory,
                )?;
                records.push(record).map_err(|_| CaptureFault::Memory)?;
                rest = rest_of(encoding, rest, len);
            }
        }
    }
    match front_of(encoding, rest) {
        Front::Tail => Ok((records, rest)),
        Front::Long(found) => Err(CaptureFault::Long { index: most, found }),
        Front::Whole(_) => Err(CaptureFault::Many { index: most }),
    }
}

/// What bytes begin with.
enum Front {
    /// A whole record, whose frame has so many bytes.
    Whole(usize),
    /// A tail, which no whole record follows.
    Tail,
    /// A record whose captured length, which this is, is above the limit.
    Long(u32),
}

fn front_of(encoding: Encoding, bytes: &[u8]) -> Front
    ensures front { IsFront encoding result bytes.now }
{
    if bytes.len() < RECORD_HEADER_SIZE {
        return Front::Tail;
    }
    let captured = u32_field(encoding.endian, bytes, CAPTURED_OFFSET);
    if captured > MAX_CAPTURED {
        return Front::Long(captured);
    }
    let len = captured as usize;
    if bytes.len() < RECORD_HEADER_SIZE + len {
        return Front::Tail;
    }
    Front::Whole(len)
}

/// The record that bytes begin with.
fn record_of(
    alloc: Global,
    encoding: Encoding,
    bytes: &[u8],
    len: usize,
) -> Result<Stamped, AllocError>
    requires whole { IsWhole encoding bytes.now }
    requires len { len ≡ captured_length encoding bytes.now }
    ensures stamped { IfOk result (λ r. r ≡ record_at encoding bytes.now) }
{
    let fraction = u32_field(encoding.endian, bytes, FRACTION_OFFSET);
    Ok(Stamped {
        seconds: u32_field(encoding.endian, bytes, SECONDS_OFFSET),
        micros: micros_of(encoding.unit, fraction),
        frame: Bytes::from_slice(alloc, &bytes[RECORD_HEADER_SIZE..RECORD_HEADER_SIZE + len])?,
    })
}

/// The bytes after the record that bytes begin with.
fn rest_of(encoding: Encoding, bytes: &[u8], len: usize) -> &[u8]
    requires whole { IsWhole encoding bytes.now }
    requires len { len ≡ captured_length encoding bytes.now }
    ensures rest { result.now ≡ after_record encoding bytes.now }
{
    &bytes[RECORD_HEADER_SIZE + len..]
}
