//! What no clause says: what the words of masks, line, doorbells and events are when they are read back, and that two threads raise and
//! unmask to the end.

ghost use Rattle.std.specs.Prelude.{◌≡◌, ◌≤◌, ◌<◌, None};
ghost use Rattle.vmx_regs.specs.Ends.{driver_key, device_key, driver_view, device_view, driver_interrupts, device_interrupts};

use std::test::Fail;
use std::thread;
use vmx_io::Handed;
use vmx_regs::{Bell, DeviceRegs, DriverRegs, Raised, make, meet, pass};

/// How many interrupts go over between two threads.
const TURNS: u64 = 1_000;

/// A side is looked at no more often than this: far more often than any run needs.
const TRIES: u64 = 1 << 40;

/// Ends that no test hands over.
#[derive(Drop)]
struct Toy {
    key: u64,
}

impl Handed for Toy {
    ghost use Rattle.std.specs.Prelude.{[], ◌∷◌, true, false};

    ghost handed = { λ e. record { keys = (e.key ∷ []) ∷ []; lists = []; tx = 0; rx = 0; given = false; whole = true; fresh = true } };
}

#[test]
fn a_raise_masks_itself(rt: HostRuntime) -> Result<(), Fail> {
    let (mut driver, mut device) = make::<Toy>(rt.alloc(), 1)?;
    let Raised::Masked { word } = device.raise(0, false) else {
        panic!(rt; "raised")
    };
    assert!(rt; word == 1 && driver.line() == 0);
    driver.unmask(0);
    let Raised::Yes = device.raise(0, true) else {
        panic!(rt; "masked")
    };
    assert!(rt; driver.line() == 1);
    assert!(rt; driver.line() == 0);
    let Raised::Masked { word } = device.raise(0, true) else {
        panic!(rt; "raised")
    };
    assert!(rt; word == 3);
    driver.mask(0);
    let Raised::Masked { word } = device.raise(0, true) else {
        panic!(rt; "raised")
    };
    assert!(rt; word == 5 && driver.line() == 0);
    driver.unmask(0);
    let Raised::Yes = device.raise(0, false) else {
        panic!(rt; "masked")
    };
    let Raised::Yes = device.raise(0, false) else {
        panic!(rt; "masked")
    };
    assert!(rt; driver.line() == 1);
    Ok(())
}

/// Unmasks the first interrupts, as a driver does after an activation.
fn unmask_all(driver: &mut DriverRegs<Toy>, count: u32)
    requires few { count ≤ driver_interrupts driver.old }
    ensures key { driver_key driver.new ≡ driver_key driver.old }
    ensures calls { driver_view driver.new ≡ driver_view driver.old }
{
    for i in 0..count {
        driver.unmask(i);
    }
}

#[test]
fn lines_and_masks_are_apart(rt: HostRuntime) -> Result<(), Fail> {
    let (mut driver, mut device) = make::<Toy>(rt.alloc(), 25)?;
    unmask_all(&mut driver, 23);
    driver.unmask(24);
    let Raised::Masked { word } = device.raise(23, false) else {
        panic!(rt; "raised")
    };
    assert!(rt; word == 1);
    let Raised::Yes = device.raise(24, true) else {
        panic!(rt; "masked")
    };
    let Raised::Yes = device.raise(0, false) else {
        panic!(rt; "masked")
    };
    assert!(rt; driver.line() == 0x100_0001);
    assert!(rt; driver.events() == 0 && device.doorbell(Bell::Tx { queue: 0 }) == 0);
    assert!(rt; device.doorbell(Bell::Rx { queue: 7, ring: 2 }) == 0);
    Ok(())
}

#[test]
fn doorbells_and_events_are_what_was_written(rt: HostRuntime) -> Result<(), Fail> {
    let (mut driver, mut device) = make::<Toy>(rt.alloc(), 1)?;
    device.event(2);
    device.event(1);
    assert!(rt; driver.events() == 3);
    driver.ack(2);
    assert!(rt; driver.events() == 1);
    assert!(rt; device.doorbell(Bell::Tx { queue: 0 }) == 0);
    driver.ring(Bell::Tx { queue: 0 }, 7);
    assert!(rt; device.doorbell(Bell::Tx { queue: 0 }) == 7);
    driver.ring(Bell::Rx { queue: 7, ring: 2 }, u32::MAX);
    assert!(rt; device.doorbell(Bell::Rx { queue: 7, ring: 2 }) == u32::MAX);
    assert!(rt; device.doorbell(Bell::Rx { queue: 7, ring: 1 }) == 0);
    assert!(rt; driver.events() == 1 && driver.line() == 0);
    Ok(())
}

#[test]
fn a_heard_note_tells_of_the_masks(rt: HostRuntime) -> Result<(), Fail> {
    let (mut driver, mut device) = make::<Toy>(rt.alloc(), 2)?;
    driver.mask(1);
    driver.unmask(0);
    let note = driver.note();
    device.hear(note);
    match device.raise(0, false) {
        Raised::Yes => {}
        Raised::Masked { word } => {
            // No write was told but this one, which did not mask, and the device has set no mask.
            if word == 3 || word == 1 {
                unreachable!()
            }
            panic!(rt; "masked")
        }
    }
    Ok(())
}

/// Unmasks and reads the line, as often as it takes until the device sets an event.
fn reads_lines(driver: DriverRegs<Toy>) -> DriverRegs<Toy>
    requires idle { (driver_view driver).asked ≡ None }
    requires some { 0 < driver_interrupts driver }
    ensures key { driver_key result ≡ driver_key driver }
    ensures idle { (driver_view result).asked ≡ None }
{
    let mut driver = driver;
    for tries in 0..TRIES {
        driver.unmask(0);
        driver.line();
        driver.ring(Bell::Tx { queue: 0 }, 9);
        if driver.events() == 1 {
            break;
        }
        thread::yield_now();
    }
    driver.ack(1);
    driver
}

/// Raises one interrupt many times, which masks itself each time.
fn raises_lines<E: Handed>(device: DeviceRegs<E>) -> DeviceRegs<E>
    requires some { 0 < device_interrupts device }
    ensures key { device_key result ≡ device_key device }
{
    let mut device = device;
    let mut done = 0u64;
    for tries in 0..TRIES {
        if done >= TURNS {
            break;
        }
        match device.raise(0, true) {
            Raised::Yes => done += 1,
            Raised::Masked { word: _ } => thread::yield_now(),
        }
    }
    device.event(1);
    device
}

#[test]
fn two_threads_raise_and_unmask(rt: HostRuntime) -> Result<(), Fail> {
    let (driver, device) = make::<Toy>(rt.alloc(), 1)?;
    let (driver, device) = thread::join(
        &rt,
        move ||
            requires ready { ((driver_view driver).asked ≡ None) × (0 < driver_interrupts driver) }
            ensures kept { (driver_key result ≡ driver_key driver) × ((driver_view result).asked ≡ None) }
        { reads_lines(driver) },
        move ||
            requires ready { 0 < device_interrupts device }
            ensures key { device_key result ≡ device_key device }
        { raises_lines(device) },
    );
    let mut driver = driver;
    let mut device = device;
    assert!(rt; driver.events() == 0 && device.doorbell(Bell::Tx { queue: 0 }) == 9);
    pass(&mut driver, &mut device);
    let facts = meet(driver, device);
    assert!(rt; facts.commands() == 0);
    Ok(())
}
