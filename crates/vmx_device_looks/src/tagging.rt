//! The wire form of a frame that was taken.
ghost use Rattle.std.specs.Prelude.{◌≡◌, ◌≤◌, length, vec_capacity};
ghost use Rattle.vmx_io.specs.declared.buffer.TheConstants.{MAX_FRAME};
ghost use Rattle.vmx_ends.specs.declared.limits.TheConstants.{MAX_TAGLESS_FRAME};
ghost use Rattle.vmx_frame.specs.Tags.{with_tag};
ghost use Rattle.vmx_ends.specs.Frames.{IsFrame, IsSome as IsThere};

use std::mem;
use vmx_frame::put;

/// Puts a tag into a frame, where there is one to put in; `spare` is room for it. No frame is copied where there is none.
pub fn tag_in(frame: &mut Vec<u8>, spare: &mut Vec<u8>, tci: Option<u16>)
    requires frame { IsFrame frame.old.items }
    requires fits { IsThere tci → length frame.old.items ≤ MAX_TAGLESS_FRAME }
    requires rooms { (MAX_FRAME ≤ vec_capacity frame.old) × (MAX_FRAME ≤ vec_capacity spare.old) }
    ensures bytes { frame.new.items ≡ with_tag tci frame.old.items }
    ensures frame { IsFrame frame.new.items }
    ensures rooms { (MAX_FRAME ≤ vec_capacity frame.new) × (MAX_FRAME ≤ vec_capacity spare.new) }
{
    match tci {
        None => {}
        Some(tci) => {
            spare.clear();
            put(frame.as_slice(), tci, spare);
            mem::swap(frame, spare);
        }
    }
}
