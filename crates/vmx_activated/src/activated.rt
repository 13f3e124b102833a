//! What is held from an activation to the next quiesce or reset.

ghost use Rattle.std.specs.Prelude.{◌≡◌, ◌==◌, ◌&&◌, if◌then◌else◌, None, length};
ghost use Rattle.vmx_device_state.specs.ImageSetup.{image_setup};
ghost use Rattle.vmx_device_state.specs.DeviceState.{Idle, Active, activate_answer, stop_answer, update_answer, after_update};
ghost use Rattle.vmx_device_state.specs.Deals.{Stops, Passes};
ghost use Rattle.vmx_machine_state.specs.Ends.{ends_back};
ghost use Rattle.vmx_machine_state.specs.Views.{ends_in, counts_in, state_by};
ghost use Rattle.vmx_activated.specs.Held.{held_view, ends_by};

use vmx_device_state::{ALREADY_ACTIVE, OTHER_ENDS, Part, check_of, update_of};
use vmx_ends::{Ends, Fabric};
use vmx_regs::Bag;
use vmx_shared_area::{Image, Setup, read};

/// The setup in force and the queue ends. Both lie in one `Option`, so ends are held exactly while there is a setup.
#[derive(Drop)]
pub struct Activated<F: Fabric> {
    pub setup: Setup,
    pub ends: Ends<F>,
}

/// Activates an idle device by the setup of the image and the ends of the bag, and gives the bag back: without its ends where the
/// answer is 0, else as it came.
///
/// The answer is 0, or the number of the first check that the image fails, 1 to 9; `ALREADY_ACTIVE`, where the device is active;
/// `OTHER_ENDS`, where the bag has no ends, or not as many of each side as the setup has queues.
pub fn activate<F: Fabric>(
    held: &mut Option<Activated<F>>,
    bag: Bag<Ends<F>>,
) -> (u32, Bag<Ends<F>>)
    ensures answer { result.0 ≡ activate_answer (state_by (held_view F.TxDevice.view F.RxDevice.view held.old)) bag.image (counts_in (ends_in F.TxDevice.view F.RxDevice.view bag)) }
    ensures state { state_by (held_view F.TxDevice.view F.RxDevice.view held.new) ≡ (if result.0 == 0 then Active (image_setup bag.image) else state_by (held_view F.TxDevice.view F.RxDevice.view held.old)) }
    ensures held { ends_by (held_view F.TxDevice.view F.RxDevice.view held.new) ≡ (if result.0 == 0 then ends_in F.TxDevice.view F.RxDevice.view bag else ends_by (held_view F.TxDevice.view F.RxDevice.view held.old)) }
    ensures image { result.1.image ≡ bag.image }
    ensures ends { ends_in F.TxDevice.view F.RxDevice.view result.1 ≡ (if result.0 == 0 then None else ends_in F.TxDevice.view F.RxDevice.view bag) }
{
    if held.is_some() {
        return (ALREADY_ACTIVE, bag);
    }
    let setup = match read(&bag.image) {
        Ok(setup) => setup,
        Err(fault) => return (fault.number(), bag),
    };
    let Bag { image, ends } = bag;
    match ends {
        None => (OTHER_ENDS, Bag { image, ends: None }),
        Some(ends) => {
            if !has_counts(&ends, &setup) {
                let ends = Some(ends);
                return (OTHER_ENDS, Bag { image, ends });
            }
            *held = Some(Activated { setup, ends });
            (0, Bag { image, ends: None })
        }
    }
}

/// Quiesces or resets a device, and gives the bag back: with the ends that were held, where the device was active and the answer is
/// 0, else as it came.
///
/// The answer is 0, or `OTHER_ENDS`, where the device is active and the bag has ends.
pub fn quiesce<F: Fabric>(held: &mut Option<Activated<F>>, bag: Bag<Ends<F>>) -> (u32, Bag<Ends<F>>)
    ensures answer { result.0 ≡ stop_answer (state_by (held_view F.TxDevice.view F.RxDevice.view held.old)) (counts_in (ends_in F.TxDevice.view F.RxDevice.view bag)) }
    ensures state { state_by (held_view F.TxDevice.view F.RxDevice.view held.new) ≡ (if result.0 == 0 then Idle else state_by (held_view F.TxDevice.view F.RxDevice.view held.old)) }
    ensures held { ends_by (held_view F.TxDevice.view F.RxDevice.view held.new) ≡ (if result.0 == 0 then None else ends_by (held_view F.TxDevice.view F.RxDevice.view held.old)) }
    ensures image { result.1.image ≡ bag.image }
    ensures ends { ends_in F.TxDevice.view F.RxDevice.view result.1 ≡ ends_back (if result.0 == 0 then Stops else Passes) (ends_by (held_view F.TxDevice.view F.RxDevice.view held.old)) (ends_in F.TxDevice.view F.RxDevice.view bag) }
{
    if held.is_some() && bag.ends.is_some() {
        return (OTHER_ENDS, bag);
    }
    match held.take() {
        None => (0, bag),
        Some(active) => {
            let Bag { image, ends: _ } = bag;
            let Activated { setup: _, ends } = active;
            let ends = Some(ends);
            (0, Bag { image, ends })
        }
    }
}

/// Takes a part of the image into the setup in force; the ends stay. An idle device answers 0, and nothing changes.
///
/// The answer of an active device is 0, or the number of the check that the part fails (`check_of`), and then nothing changes.
pub fn update<F: Fabric>(held: &mut Option<Activated<F>>, part: Part, image: &Image) -> u32
    ensures answer { result ≡ update_answer part (state_by (held_view F.TxDevice.view F.RxDevice.view held.old)) image.now }
    ensures state { state_by (held_view F.TxDevice.view F.RxDevice.view held.new) ≡ (if result == 0 then after_update part (state_by (held_view F.TxDevice.view F.RxDevice.view held.old)) image.now else state_by (held_view F.TxDevice.view F.RxDevice.view held.old)) }
    ensures held { ends_by (held_view F.TxDevice.view F.RxDevice.view held.new) ≡ ends_by (held_view F.TxDevice.view F.RxDevice.view held.old) }
{
    match held.as_mut() {
        None => 0,
        Some(active) => match update_of(part, &active.setup, image) {
            None => check_of(part),
            Some(setup) => {
                active.setup = setup;
                0
            }
        },
    }
}

/// Whether there are as many ends of each side as the setup has queues.
fn has_counts<F: Fabric>(ends: &Ends<F>, setup: &Setup) -> bool
    ensures counts { result ≡ (length ends.now.tx == setup.now.tx_queues) && (length ends.now.rx == setup.now.rx_queues) }
{
    ends.tx.len() == setup.tx_queues as usize && ends.rx.len() == setup.rx_queues as usize
}
