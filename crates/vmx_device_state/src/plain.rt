//! The plain program that computes a device's state and its answers, one command at a time. It holds no queue ends: of a bag
//! it is told the image and how many ends there are. Own to this project.

ghost use Rattle.std.specs.Prelude.{◌≡◌, ◌==◌, if◌then◌else◌, unwrap_or};
ghost use Rattle.vmx_device_state.specs.DeviceState.{Idle, activate_answer, stop_answer, update_answer, set_answer, after_order, after_update, after_answer};
ghost use Rattle.vmx_device_state.specs.Plain.{state_of};
ghost use Rattle.vmx_device_state.specs.declared.order.Order.TheVariants.{Activate, Stop};

use crate::answers::{ALREADY_ACTIVE, OTHER_ENDS, UNKNOWN_COMMAND};
use crate::order::{Order, Part};
use crate::turn::EndCounts;
use crate::updates::{check_of, update_of};
use vmx_shared_area::{Image, Setup, read};

/// A device that was told some commands.
#[derive(Drop)]
pub struct PlainDevice {
    /// None while it is idle.
    pub setup: Option<Setup>,
}

impl PlainDevice {
    /// A device that was told nothing yet.
    pub fn new() -> PlainDevice
        ensures idle { state_of result ≡ Idle }
    {
        PlainDevice { setup: None }
    }

    /// Takes a command with its image and the numbers of queue ends in its bag, where it has ends. The answer is None for a
    /// GET, which changes nothing.
    pub fn command(&mut self, number: u32, image: &Image, ends: Option<EndCounts>) -> Option<u32>
        ensures answer { result ≡ set_answer (state_of self.old) number image.now ends }
        ensures state { state_of self.new ≡ after_answer (state_of self.old) number image.now (unwrap_or result 0) }
    {
        match Order::of(number) {
            Order::Activate => Some(self.activate(image, ends)),
            Order::Stop => Some(self.stop(ends)),
            Order::Update { part } => Some(self.update(part, image)),
            Order::Unknown => Some(UNKNOWN_COMMAND),
            Order::Get => None,
        }
    }

    fn activate(&mut self, image: &Image, ends: Option<EndCounts>) -> u32
        ensures answer { result ≡ activate_answer (state_of self.old) image.now ends }
        ensures state { state_of self.new ≡ (if result == 0 then after_order Activate (state_of self.old) image.now else state_of self.old) }
    {
        if self.setup.is_some() {
            return ALREADY_ACTIVE;
        }
        let setup = match read(image) {
            Ok(setup) => setup,
            Err(fault) => return fault.number(),
        };
        match ends {
            None => OTHER_ENDS,
            Some(counts) => {
                if counts.tx == u64::from(setup.tx_queues)
                    && counts.rx == u64::from(setup.rx_queues)
                {
                    self.setup = Some(setup);
                    return 0;
                }
                OTHER_ENDS
            }
        }
    }

    fn stop(&mut self, ends: Option<EndCounts>) -> u32
        ensures answer { result ≡ stop_answer (state_of self.old) ends }
        ensures state { state_of self.new ≡ (if result == 0 then Idle else state_of self.old) }
    {
        if self.setup.is_none() {
            return 0;
        }
        if ends.is_some() {
            return OTHER_ENDS;
        }
        self.setup = None;
        0
    }

    fn update(&mut self, part: Part, image: &Image) -> u32
        ensures answer { result ≡ update_answer part (state_of self.old) image.now }
        ensures state { state_of self.new ≡ (if result == 0 then after_update part (state_of self.old) image.now else state_of self.old) }
    {
        match self.setup {
            None => 0,
            Some(setup) => match update_of(part, &setup, image) {
                None => check_of(part),
                Some(setup) => {
                    self.setup = Some(setup);
                    0
                }
            },
        }
    }
}
