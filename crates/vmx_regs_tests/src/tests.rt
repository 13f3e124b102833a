//! What no clause says: that memory for registers can be had, the words of looks as numbers, and that two threads carry commands to
//! the end.

ghost use Rattle.std.specs.Prelude.{◌≡◌, [], None};
ghost use Rattle.vmx_regs.specs.Ends.{driver_key, device_key, driver_view, device_view};

use std::test::Fail;
use std::thread;
use vmx_device_state::EndCounts;
use vmx_io::Handed;
use vmx_layout::Command;
use vmx_regs::{Answer, Bag, DeviceRegs, DriverRegs, Poll, make, meet};
use vmx_shared_area::{Image, Setup, write};
use vmx_small_machine::{Counted, SmallMachine, serve, update_with};

/// How many commands go over between two threads.
const TURNS: u64 = 1_000;

/// A side is looked at no more often than this: far more often than any run needs.
const TRIES: u64 = 1 << 40;

/// Ends that are only counted.
#[derive(Drop)]
struct Toy {
    key: u64,
    tx: u64,
    rx: u64,
    frames: u64,
}

impl Handed for Toy {
    ghost use Rattle.std.specs.Prelude.{[], ◌∷◌, true, false, ◌==◌};

    ghost handed = { λ e. record { keys = (e.key ∷ []) ∷ []; lists = (e.frames ∷ []) ∷ []; tx = e.tx; rx = e.rx; given = false; whole = true; fresh = e.frames == 0 } };
}

impl Counted for Toy {
    fn counts(&self) -> EndCounts {
        EndCounts {
            tx: self.tx,
            rx: self.rx,
        }
    }
}

/// One end each way, with this key.
fn fresh_ends(key: u64) -> Toy
    ensures fresh { result.frames ≡ 0 }
{
    Toy {
        key,
        tx: 1,
        rx: 1,
        frames: 0,
    }
}

#[test]
fn a_refused_activation_gives_the_bag_back(rt: HostRuntime) -> Result<(), Fail> {
    let (mut driver, mut device) = make::<Toy>(rt.alloc(), 1)?;
    let mut machine = SmallMachine::<Toy>::new();
    let Poll::Quiet { word } = device.poll() else {
        panic!(rt; "a command")
    };
    assert!(rt; word == 0 && !driver.outstanding());
    let image = Image::new(rt.alloc())?;
    let ends = Some(fresh_ends(5));
    driver.command(Command::ActivateDev.number(), Bag { image, ends });
    let Answer::Pending { word } = driver.answer() else {
        panic!(rt; "answered")
    };
    assert!(rt; word == 0 && driver.outstanding());
    serve(&mut machine, &mut device);
    assert!(rt; !machine.holds());
    let Poll::Quiet { word } = device.poll() else {
        panic!(rt; "a command")
    };
    assert!(rt; word == 0x1_cafe_0000);
    let Answer::Done { value, bag } = driver.answer() else {
        panic!(rt; "no answer")
    };
    let Bag { image, ends } = bag;
    assert!(rt; value == 1 && image.bytes().iter().all(|byte| *byte == 0));
    let Some(ends) = ends else {
        panic!(rt; "no ends")
    };
    assert!(rt; ends.key == 5 && ends.tx == 1 && ends.rx == 1 && ends.frames == 0);
    let facts = meet(driver, device);
    assert!(rt; facts.commands() == 1 && facts.answers() == 1);
    Ok(())
}

#[test]
fn ends_go_over_stay_and_come_back(rt: HostRuntime) -> Result<(), Fail> {
    let (mut driver, mut device) = make::<Toy>(rt.alloc(), 25)?;
    let mut machine = SmallMachine::<Toy>::new();
    let mut image = Image::new(rt.alloc())?;
    write(&Setup::by_default(), &mut image);
    let ends = Some(fresh_ends(5));
    driver.command(Command::ActivateDev.number(), Bag { image, ends });
    serve(&mut machine, &mut device);
    assert!(rt; machine.holds());
    let Answer::Done { value, bag } = driver.answer() else {
        panic!(rt; "no answer")
    };
    let Bag { image, ends } = bag;
    assert!(rt; value == 0 && ends.is_none());
    driver.command(Command::QuiesceDev.number(), Bag { image, ends: None });
    serve(&mut machine, &mut device);
    assert!(rt; !machine.holds());
    let Answer::Done { value, bag } = driver.answer() else {
        panic!(rt; "no answer")
    };
    let Bag { image, ends } = bag;
    let Some(ends) = ends else {
        panic!(rt; "no ends")
    };
    assert!(rt; value == 0 && ends.key == 5 && ends.tx == 1 && ends.rx == 1);
    let ends = Some(fresh_ends(6));
    driver.command(Command::ActivateDev.number(), Bag { image, ends });
    serve(&mut machine, &mut device);
    assert!(rt; machine.holds());
    let Answer::Done { value, bag: _ } = driver.answer() else {
        panic!(rt; "no answer")
    };
    let facts = meet(driver, device);
    assert!(rt; value == 0 && facts.commands() == 3 && facts.answers() == 3);
    Ok(())
}

#[test]
fn used_ends_come_back_from_an_update(rt: HostRuntime) -> Result<(), Fail> {
    let (mut driver, mut device) = make::<Toy>(rt.alloc(), 1)?;
    let mut machine = SmallMachine::<Toy>::new();
    let image = Image::new(rt.alloc())?;
    let ends = Toy {
        key: 6,
        tx: 2,
        rx: 3,
        frames: 4,
    };
    update_with(&mut driver, image, ends);
    serve(&mut machine, &mut device);
    let Answer::Done { value, bag } = driver.answer() else {
        panic!(rt; "no answer")
    };
    let Some(ends) = bag.ends else {
        panic!(rt; "no ends")
    };
    assert!(rt; value == 0 && ends.key == 6 && ends.tx == 2 && ends.rx == 3 && ends.frames == 4);
    Ok(())
}

#[test]
fn notes_go_both_ways(rt: HostRuntime) -> Result<(), Fail> {
    let (mut driver, mut device) = make::<Toy>(rt.alloc(), 3)?;
    let mut machine = SmallMachine::<Toy>::new();
    let image = Image::new(rt.alloc())?;
    driver.command(Command::UpdateRxMode.number(), Bag { image, ends: None });
    let note = driver.note();
    device.hear(note);
    let served = serve(&mut machine, &mut device);
    assert!(rt; served);
    let note = device.note();
    driver.hear(note);
    let Answer::Done { value, bag: _ } = driver.answer() else {
        panic!(rt; "no answer")
    };
    assert!(rt; value == 0);
    Ok(())
}

/// Sends all commands, one after another, as often as it takes.
fn drive(driver: DriverRegs<Toy>, image: Image) -> DriverRegs<Toy>
    requires idle { (driver_view driver).asked ≡ None }
    requires fresh { (driver_view driver).turns ≡ [] }
    ensures key { driver_key result ≡ driver_key driver }
{
    let mut driver = driver;
    let mut kept = Some(image);
    let mut sent = 0u64;
    for tries in 0..TRIES {
        match kept.take() {
            Some(image) => {
                if sent >= TURNS {
                    break;
                }
                driver.command(Command::UpdateRxMode.number(), Bag { image, ends: None });
                sent += 1;
            }
            None => match driver.answer() {
                Answer::Pending { word: _ } => thread::yield_now(),
                Answer::Done { value: _, bag } => {
                    let Bag { image, ends: _ } = bag;
                    kept = Some(image);
                }
            },
        }
    }
    driver
}

/// Answers all commands.
fn attend<E: Counted>(device: DeviceRegs<E>) -> DeviceRegs<E>
    requires idle { (device_view device).serving ≡ None }
    requires fresh { (device_view device).served ≡ [] }
    ensures key { device_key result ≡ device_key device }
{
    let mut device = device;
    let mut machine = SmallMachine::<E>::new();
    let mut done = 0u64;
    for tries in 0..TRIES {
        if done >= TURNS {
            break;
        }
        if serve(&mut machine, &mut device) {
            done += 1;
        } else {
            thread::yield_now();
        }
    }
    device
}

#[test]
fn two_threads_carry_all_commands_in_order(rt: HostRuntime) -> Result<(), Fail> {
    let image = Image::new(rt.alloc())?;
    let (driver, device) = make::<Toy>(rt.alloc(), 1)?;
    let (driver, device) = thread::join(
        &rt,
        move ||
            requires ready { ((driver_view driver).asked ≡ None) × ((driver_view driver).turns ≡ []) }
            ensures key { driver_key result ≡ driver_key driver }
        { drive(driver, image) },
        move ||
            requires ready { ((device_view device).serving ≡ None) × ((device_view device).served ≡ []) }
            ensures key { device_key result ≡ device_key device }
        { attend(device) },
    );
    assert!(rt; !driver.outstanding());
    let facts = meet(driver, device);
    assert!(rt; facts.commands() == TURNS && facts.answers() == TURNS);
    Ok(())
}
