//! A machine behind registers.

use std::alloc::{AllocError, AllocGlobal};
use std::process::Abort;
use std::test::Fail;
use vmx_commands::{Answered, Machine, answer_next};
use vmx_ends::{Ends, Fabric};
use vmx_lists::ListFabric;
use vmx_regs::{Answer, Bag, make, meet};
use vmx_shared_area::Image;

const GET_LINK: u32 = 0xf00d_0002;

/// The permanent address of the machine under test.
const MAC: [u8; 6] = [0x00, 0x50, 0x56, 0x01, 0x02, 0x03];

/// A new machine behind registers: a look that finds nothing, and a command that it answers.
fn serves_a_command<F: Fabric, R: Abort + AllocGlobal>(rt: &R) -> Result<(), AllocError> {
    let (mut driver, mut device) = make::<Ends<F>>(rt.alloc(), 17)?;
    let mut machine = Machine::<F>::new(MAC);
    assert!(rt; answer_next(&mut machine, &mut device).is_none());
    let image = Image::new(rt.alloc())?;
    driver.command(GET_LINK, Bag { image, ends: None });
    let number = GET_LINK;
    let value = 0x2710_0001;
    assert!(rt; answer_next(&mut machine, &mut device) == Some(Answered { number, value }));
    let Answer::Done { value, bag } = driver.answer() else {
        panic!(rt; "no answer")
    };
    assert!(rt; value == 0x2710_0001 && bag.ends.is_none());
    let facts = meet(driver, device);
    assert!(rt; facts.commands() == 1 && facts.answers() == 1 && machine.mac() == MAC);
    Ok(())
}

#[test]
fn a_machine_serves_registers(rt: HostRuntime) -> Result<(), Fail> {
    serves_a_command::<ListFabric, HostRuntime>(&rt)?;
    Ok(())
}
