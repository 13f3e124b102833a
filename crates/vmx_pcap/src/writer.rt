//! Writing a capture. The file header comes first, then each record: seconds, microseconds, captured and original
//! length, which are both the frame's, and the frame. The room for all is reserved before the first record.

ghost use Rattle.std.specs.Prelude.{◌≡◌, ◌≤◌, ◌++◌, ℕ, All, length, OnOk, OnErr, IfOk, []};
ghost use Rattle.vmx_pcap.specs.Capture.{IsCapture};
ghost use Rattle.vmx_pcap.specs.Fields.{u32_bytes};
ghost use Rattle.vmx_pcap.specs.Written.{Fits, record_bytes, header_bytes, capture_bytes};

use crate::format::{FILE_HEADER, RECORD_HEADER_SIZE, SNAP_LENGTH};
use crate::records::Stamped;
use byteorder::{ByteOrder, LittleEndian};
use std::alloc::{AllocError, Global};
use std::marker::Model;
use vmx_io::Bytes;

/// The capture of these records, each of at most 65,535 bytes.
pub fn write(alloc: Global, records: &[Stamped]) -> Result<Bytes, AllocError>
    requires short { All (λ r. length r.frame ≤ SNAP_LENGTH) records.now }
    // The file header and the records in order.
    ensures bytes { IfOk result (λ b. b ≡ capture_bytes records.now) }
    // They are a capture of just these records.
    ensures round_trip { IfOk result (λ b. IsCapture b records.now 0) }
{
    write_over(Bytes::new(alloc), records)
}

/// As `write`, in the memory of `old`, whose bytes are given up. It grows only where that is too short.
pub fn write_over(old: Bytes, records: &[Stamped]) -> Result<Bytes, AllocError>
    requires short { All (λ r. length r.frame ≤ SNAP_LENGTH) records.now }
    ensures bytes { IfOk result (λ b. b ≡ capture_bytes records.now) }
    ensures round_trip { IfOk result (λ b. IsCapture b records.now 0) }
{
    let mut out = CaptureWriter::over(old, room_of(records))?;
    for r in records {
        push_record(&mut out, r)?;
    }
    Ok(out.into_bytes())
}

fn push_record(out: &mut CaptureWriter, r: &Stamped) -> Result<(), AllocError>
    requires short { length r.now.frame ≤ SNAP_LENGTH }
    ensures bytes { OnOk result (out.new ≡ out.old ++ record_bytes r.now) }
    ensures fits { OnOk result (Fits r.now) }
{
    out.push(r.seconds, r.micros, r.frame.as_slice())
}

/// The number of bytes of these records, or the greatest number where that is more.
fn room_of(records: &[Stamped]) -> usize {
    records.iter().fold(0, |room, r| {
        room.saturating_add(RECORD_HEADER_SIZE)
            .saturating_add(r.frame.len())
    })
}

/// A capture that is written record by record, out of frames that stand elsewhere. A contract sees its bytes so far.
#[derive(Drop)]
pub struct CaptureWriter {
    bytes: Vec<u8>,
}

impl Model for CaptureWriter {
    ghost use Rattle.std.specs.Prelude.{List, ℕ};

    ghost Value = { List ℕ };

    ghost view = { λ w. w.bytes.items };
}

impl CaptureWriter {
    /// A capture with no record yet, and room for `room` bytes of records: 16 for each, and its frame's.
    pub fn new(alloc: Global, room: usize) -> Result<CaptureWriter, AllocError>
        ensures header { IfOk result (λ w. w ≡ capture_bytes []) }
    {
        CaptureWriter::over(Bytes::new(alloc), room)
    }

    /// The same in the memory of `old`, whose bytes are given up.
    #[tactic(auto, unfolding(crate::specs::Written::header_bytes))]
    pub fn over(old: Bytes, room: usize) -> Result<CaptureWriter, AllocError>
        ensures header { IfOk result (λ w. w ≡ capture_bytes []) }
    {
        let mut bytes = old.into_vec();
        bytes.clear();
        bytes.reserve_exact(room.saturating_add(FILE_HEADER.len()))?;
        bytes.extend_from_slice(&FILE_HEADER)?;
        Ok(CaptureWriter { bytes })
    }

    /// Appends a record with this stamp. Where there is no memory, nothing is appended.
    pub fn push(&mut self, seconds: u32, micros: u32, frame: &[u8]) -> Result<(), AllocError>
        requires short { length frame.now ≤ SNAP_LENGTH }
        ensures ok { OnOk result (self.new ≡ self.old ++ record_bytes (record { seconds = seconds; micros = micros; frame = frame.now })) }
        ensures err { OnErr result (self.new ≡ self.old) }
    {
        let header = record_header(seconds, micros, frame.len() as u32);
        self.bytes.reserve(RECORD_HEADER_SIZE + frame.len())?;
        self.bytes.extend_from_slice(&header)?;
        self.bytes.extend_from_slice(frame)
    }

    /// The bytes of the capture.
    pub fn into_bytes(self) -> Bytes
        ensures bytes { result ≡ self }
    {
        let CaptureWriter { bytes } = self;
        Bytes::of(bytes)
    }
}

/// The header of a record whose frame has `len` bytes.
#[tactic(auto, unfolding(crate::specs::Fields::u32_bytes))]
fn record_header(seconds: u32, micros: u32, len: u32) -> [u8; RECORD_HEADER_SIZE]
    ensures fields { result ≡ u32_bytes seconds ++ u32_bytes micros ++ u32_bytes len ++ u32_bytes len }
{
    let mut header = [0; RECORD_HEADER_SIZE];
    LittleEndian::write_u32_into(&[seconds, micros, len, len], &mut header);
    header
}
