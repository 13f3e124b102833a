//! One look at a queue of an active machine, as what it does to the machine.
ghost use Rattle.std.specs.Prelude.{◌≡◌, ◌≤◌, vec_len, vec_capacity};
ghost use Rattle.vmx_io.specs.declared.buffer.TheConstants.{MAX_FRAME};
ghost use Rattle.vmx_ends.specs.Frames.{IsFrame};
ghost use Rattle.vmx_model.specs.Meta.{Arrival};
ghost use Rattle.vmx_device_looks.specs.Looks.{MayTake, TakesAs, MayDeliver, DeliversAs};

use vmx_commands::Machine;
use vmx_ends::{Deliver, EndFault, Fabric, RxDevice, RxMeta, Take, TxDevice, TxMark};

/// What a look at a transmit queue found.
#[derive(Clone, Copy, Debug, PartialEq, Eq)]
pub enum Found {
    /// The frame of this place, with its mark.
    Frame { place: u64, mark: TxMark },
    Nothing,
    /// The given words of a descriptor show a fault.
    Bad { fault: EndFault },
}

/// Takes the next frame of a transmit queue into an empty buffer with room for 9,022 bytes, and completes it.
pub fn take_from<F: Fabric>(machine: &mut Machine<F>, queue: u32, into: &mut Vec<u8>) -> Found
    requires ready { MayTake machine.old queue }
    requires empty { vec_len into.old ≡ 0 }
    requires room { MAX_FRAME ≤ vec_capacity into.old }
    ensures found { TakesAs queue into.new.items result machine.old machine.new }
    ensures room { MAX_FRAME ≤ vec_capacity into.new }
{
    let Some(ends) = machine.ends_mut() else {
        unreachable!()
    };
    let end = ends.tx.at_mut(queue as usize);
    match end.take(into) {
        Take::Frame { place, mark } => {
            end.complete();
            Found::Frame { place, mark }
        }
        Take::Empty { word: _ } => Found::Nothing,
        Take::Bad { words: _, fault } => Found::Bad { fault },
    }
}

/// Gives a frame to a receive queue.
pub fn deliver_as<F: Fabric>(
    machine: &mut Machine<F>,
    queue: u32,
    frame: &[u8],
    meta: &RxMeta,
) -> Deliver
    requires ready { MayDeliver machine.old queue }
    requires frame { IsFrame frame.now }
    ensures delivers { DeliversAs queue (record { frame = frame.now; meta = meta.now }) result machine.old machine.new }
{
    let Some(ends) = machine.ends_mut() else {
        unreachable!()
    };
    let end = ends.rx.at_mut(queue as usize);
    end.deliver(frame, meta)
}
