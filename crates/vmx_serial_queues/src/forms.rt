//! The three forms of a frame: as its driver posts it, as it goes over the wire, and as a device delivers it.
ghost use Rattle.std.specs.Prelude.{◌≡◌, ◌≤◌, length, vec_len, IfOk};
ghost use Rattle.vmx_device_state.specs.SetupView.{setup_view};
ghost use Rattle.vmx_model.specs.Wire.{posted_form, wire_form as wire_form_of};
ghost use Rattle.vmx_model.specs.Meta.{taken_out as taken_out_of, delivered_as as delivered_by};
ghost use Rattle.vmx_ends.specs.Marks.{mark_with as mark_with_of};
ghost use Rattle.vmx_serial_queues.specs.Queues.{marked};
ghost use Rattle.vmx_serial_queues.specs.Forms.{stripped, arrival_of};

use crate::setups::meta_of;
use std::alloc::{AllocError, Global};
use vmx_ends::{RxMeta, TxMark};
use vmx_frame::{HEADER_LEN, TAG_LEN, is_tagged, put, strip};
use vmx_io::Bytes;
use vmx_model::GuestPlan;
use vmx_shared_area::Setup;

/// A frame as it is delivered, and what is told of it.
#[derive(Drop)]
pub struct Arrival {
    pub frame: Bytes,
    pub meta: RxMeta,
}

/// The mark with which a guest posts a captured frame: its VLAN as tag where it has one and the frame has no tag.
pub fn mark_of(guest: &GuestPlan, frame: &[u8]) -> TxMark
    requires header { HEADER_LEN ≤ length frame.now }
    ensures mark { marked frame.now result ≡ posted_form guest.now frame.now }
{
    if is_tagged(frame) {
        TxMark::plain()
    } else {
        mark_with(guest.vlan)
    }
}

/// A tag's two bytes alone.
fn mark_with(tci: Option<u16>) -> TxMark
    ensures mark { result ≡ mark_with_of tci }
{
    TxMark {
        tci,
        om: 0,
        hlen: 0,
        msscof: 0,
    }
}

/// The frame as it goes over the wire: with its mark's tag put in.
pub fn wire_form(alloc: Global, frame: &[u8], mark: &TxMark) -> Result<Vec<u8>, AllocError>
    requires header { HEADER_LEN ≤ length frame.now }
    ensures wire { IfOk result (λ w. w.items ≡ wire_form_of (marked frame.now mark.now)) }
{
    match mark.tci {
        Some(tci) => {
            let mut wire = Vec::with_capacity(alloc, frame.len() + TAG_LEN)?;
            put(frame, tci, &mut wire);
            Ok(wire)
        }
        None => {
            let mut wire = Vec::with_capacity(alloc, frame.len())?;
            wire.extend_from_slice(frame)?;
            Ok(wire)
        }
    }
}

/// A packet's frame as it is delivered under a setup: without its tag where the setup asks for that, hash and kind as it came.
pub fn delivered_as(alloc: Global, setup: &Setup, frame: &[u8]) -> Result<Arrival, AllocError>
    requires header { HEADER_LEN ≤ length frame.now }
    ensures form { IfOk result (λ a. arrival_of a ≡ delivered_by (setup_view setup.now) frame.now) }
    ensures few { IfOk result (λ a. length a.frame ≤ length frame.now) }
{
    let (bytes, tci) = taken_out(alloc, setup.strip, frame)?;
    let meta = meta_of(setup, tci, frame);
    Ok(Arrival {
        frame: Bytes::of(bytes),
        meta,
    })
}

/// The frame, and its tag where one is taken out.
fn taken_out(
    alloc: Global,
    strips: bool,
    frame: &[u8],
) -> Result<(Vec<u8>, Option<u16>), AllocError>
    requires header { HEADER_LEN ≤ length frame.now }
    ensures form { IfOk result (λ x. stripped x.0.items x.1 ≡ taken_out_of strips frame.now) }
    ensures few { IfOk result (λ x. vec_len x.0 ≤ length frame.now) }
{
    let mut bytes = Vec::with_capacity(alloc, frame.len())?;
    let tci = if strips {
        strip(frame, &mut bytes)
    } else {
        bytes.extend_from_slice(frame)?;
        None
    };
    Ok((bytes, tci))
}
