//! Notes between the two ends of a link.
ghost use Rattle.vmx_replay_guests.specs.Passing.{LinkAt, LinkPassed};

use vmx_device::{Device, LinkSide};
use vmx_ends::Fabric;

/// Passes a note of the sender's end of the link between two devices to the receiver's end, and one back.
pub fn pass_link<F: Fabric>(sender: &mut Device<F>, receiver: &mut Device<F>)
    requires link { LinkAt sender.old receiver.old }
    ensures passed { LinkPassed sender.old receiver.old sender.new receiver.new }
{
    let from = sender.port();
    let to = receiver.port();
    let pushed = sender.note_link(LinkSide::Out, to);
    receiver.hear_link(LinkSide::In, from, pushed);
    let pulled = receiver.note_link(LinkSide::In, from);
    sender.hear_link(LinkSide::Out, to, pulled);
}
