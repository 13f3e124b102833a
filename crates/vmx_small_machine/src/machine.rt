//! The least machine that answers over the registers: it keeps the state that the plain program computes, and the ends that a
//! bag brought. It shows that the contracts of the two sides are enough for a device and for its driver.

ghost use Rattle.std.specs.Prelude.{◌≡◌, ◌+◌, ◌^◌, ◌<◌, ◌≤◌, [], true, false, length, None, Some, IsSome, IfSome, is_some, option_map};
ghost use Rattle.vmx_device_state.specs.DeviceState.{counts as counts_of_view};
ghost use Rattle.vmx_device_state.specs.Plain.{state_of};
ghost use Rattle.vmx_regs.specs.Turns.{IsWhole, held_as, held_after, command_of, answer_of};
ghost use Rattle.vmx_regs.specs.Ends.{driver_key, driver_view, device_view, device_masks, device_key};
ghost use Rattle.vmx_small_machine.specs.Machine.{machine, Applied, Tracks, IsQuiesce};

use vmx_device_state::{EndCounts, Order, PlainDevice};
use vmx_io::Handed;
use vmx_layout::Command;
use vmx_regs::{Answer, Bag, DeviceRegs, DriverRegs, Poll};
use vmx_shared_area::Image;

/// Ends that can be counted.
pub trait Counted: Handed {
    /// How many transmit and receive ends they are.
    fn counts(&self) -> EndCounts
        ensures counts { result ≡ counts_of_view (Self.handed self.now) };
}

/// A machine that was told some commands.
#[derive(Drop)]
pub struct SmallMachine<E: Handed> {
    /// What it computes by.
    pub plain: PlainDevice,
    /// The ends that it holds: some exactly while it is active.
    pub held: Option<E>,
}

impl<E: Counted> SmallMachine<E> {
    /// A machine that is idle and holds no ends.
    pub fn new() -> SmallMachine<E>
        ensures new { Tracks (machine (state_of result.plain) (option_map E.handed result.held)) [] }
    {
        SmallMachine {
            plain: PlainDevice::new(),
            held: None,
        }
    }

    /// Whether it holds ends.
    pub fn holds(&self) -> bool
        ensures held { result ≡ is_some self.now.held }
    {
        self.held.is_some()
    }

    /// Answers a command and deals with the ends. A GET is answered 0.
    fn apply(&mut self, number: u32, bag: Bag<E>) -> (u32, Bag<E>)
        requires held { IsWhole (option_map E.handed self.old.held) }
        requires given { IsWhole (option_map E.handed bag.ends) }
        ensures applied { Applied (machine (state_of self.old.plain) (option_map E.handed self.old.held)) (command_of E.handed number bag) (answer_of E.handed result.0 result.1) (machine (state_of self.new.plain) (option_map E.handed self.new.held)) }
    {
        let counts = match &bag.ends {
            None => None,
            Some(ends) => Some(ends.counts()),
        };
        match self.plain.command(number, &bag.image, counts) {
            None => (0, bag),
            Some(value) => {
                if value != 0 {
                    return (value, bag);
                }
                match Order::of(number) {
                    Order::Activate => (0, self.begin(bag)),
                    Order::Stop => (0, self.give_back(bag)),
                    _ => (0, bag),
                }
            }
        }
    }

    /// Keeps the ends of a bag.
    fn begin(&mut self, bag: Bag<E>) -> Bag<E>
        ensures image { result.image ≡ bag.image }
        ensures ends { result.ends ≡ None }
        ensures held { self.new ≡ record self.old { held = bag.ends } }
    {
        let Bag { image, ends } = bag;
        self.held = ends;
        Bag { image, ends: None }
    }

    /// Gives the held ends back, where there are some.
    fn give_back(&mut self, bag: Bag<E>) -> Bag<E>
        ensures image { result.image ≡ bag.image }
        ensures none { self.old.held ≡ None → result.ends ≡ bag.ends }
        ensures some { IsSome self.old.held → result.ends ≡ self.old.held }
        ensures held { self.new ≡ record self.old { held = None } }
    {
        match self.held.take() {
            None => bag,
            Some(held) => {
                let Bag { image, ends: _ } = bag;
                Bag {
                    image,
                    ends: Some(held),
                }
            }
        }
    }
}

/// Answers a command, if there is one, and says whether there was.
pub fn serve<E: Counted>(served: &mut SmallMachine<E>, regs: &mut DeviceRegs<E>) -> bool
    requires tracks { Tracks (machine (state_of served.old.plain) (option_map E.handed served.old.held)) (device_view regs.old).served }
    requires none { (device_view regs.old).serving ≡ None }
    requires few { length (device_view regs.old).served < 2 ^ 62 }
    ensures tracks { Tracks (machine (state_of served.new.plain) (option_map E.handed served.new.held)) (device_view regs.new).served }
    ensures none { (device_view regs.new).serving ≡ None }
    ensures key { device_key regs.new ≡ device_key regs.old }
    ensures masks { device_masks regs.new ≡ device_masks regs.old }
    ensures count { length (device_view regs.new).served ≤ length (device_view regs.old).served + 1 }
    // Whichever it is, it was looked for: a look more that found nothing, or a turn more.
    ensures kept { result ≡ false → (device_view regs.new).served ≡ (device_view regs.old).served }
    ensures looked { result ≡ false → length (device_view regs.new).looks ≡ length (device_view regs.old).looks + 1 }
    ensures answered { result ≡ true → length (device_view regs.new).served ≡ length (device_view regs.old).served + 1 }
{
    match regs.poll() {
        Poll::Quiet { word: _ } => false,
        Poll::Command { number, bag } => {
            let (value, bag) = served.apply(number, bag);
            regs.reply(value, bag);
            true
        }
    }
}

/// The ends that the answer to a quiesce of an active device brings; None while there is no answer. They have the keys of those
/// that the device held, and as many of each kind.
pub fn take_back<E: Handed>(regs: &mut DriverRegs<E>) -> Option<E>
    requires quiesce { IsQuiesce (driver_view regs.old).asked }
    requires active { IsSome (held_after (driver_view regs.old).turns) }
    requires few { length (driver_view regs.old).turns < 2 ^ 62 }
    ensures none { result ≡ None → (driver_view regs.new).turns ≡ (driver_view regs.old).turns }
    ensures looked { result ≡ None → length (driver_view regs.new).looks ≡ length (driver_view regs.old).looks + 1 }
    ensures held { IfSome result (λ e. held_after (driver_view regs.old).turns ≡ Some (held_as (E.handed e))) }
    ensures whole { IfSome result (λ e. (E.handed e).whole ≡ true) }
{
    match regs.answer() {
        Answer::Pending { word: _ } => None,
        Answer::Done { value, bag } => {
            if value != 0 {
                unreachable!()
            }
            let Bag { image: _, ends } = bag;
            Some(ends.unwrap())
        }
    }
}

/// Sends an update with ends in its bag, which need not be fresh.
pub fn update_with<E: Handed>(driver: &mut DriverRegs<E>, image: Image, ends: E)
    requires none { (driver_view driver.old).asked ≡ None }
    requires whole { (E.handed ends).whole ≡ true }
    requires few { length (driver_view driver.old).turns < 2 ^ 62 }
    ensures sent { IsSome (driver_view driver.new).asked }
    ensures turns { (driver_view driver.new).turns ≡ (driver_view driver.old).turns }
    ensures key { driver_key driver.new ≡ driver_key driver.old }
{
    driver.command(
        Command::UpdateRxMode.number(),
        Bag {
            image,
            ends: Some(ends),
        },
    );
}
