//! A configuration that says of eight guests what the generator's format says, and nothing else.

use std::alloc::{AllocError, Global};
use std::process::Abort;
use std::test::Fail;
use vmx_config::read;
use vmx_generator::generated_plan;
use vmx_model::{GuestPlan, Plan};

/// The text of the configuration.
fn text(alloc: Global) -> Result<String, AllocError> {
    let mut text = String::from_str(alloc, "poll_every = 4\n")?;
    for guest in 0..8u8 {
        let table = format!(in alloc;
            "[[guest]]\nname = \"g{guest}\"\nmac = \"00:50:56:00:01:0{guest}\"\n"
        )?;
        text.push_str(table.as_str())?;
        text.push_str("tx_queues = 2\nrx_queues = 4\nrss = {}\n")?;
    }
    text.push_str("sniffer = true\nmode = [\"promisc\"]\n")?;
    Ok(text)
}

/// Whether both have the same settings; captures are not looked at.
fn is_same(one: &GuestPlan, other: &GuestPlan) -> bool {
    one.name.as_str() == other.name.as_str()
        && one.mac == other.mac
        && one.sniffer == other.sniffer
        && one.vlan == other.vlan
        && one.piece == other.piece
        && one.bodies == other.bodies
        && one.setup == other.setup
        && one.script.is_empty()
        && other.script.is_empty()
}

/// The plan that the configuration asks for; its captures are empty.
fn configured(rt: &impl Abort, alloc: Global, text: &str) -> Plan {
    read(alloc, text.as_bytes())
        .ok()
        .expect(rt, "a configuration")
        .plan
}

#[test]
fn guests_are_as_a_configuration_has_them_by_default(rt: HostRuntime) -> Result<(), Fail> {
    let alloc = rt.alloc();
    let text = text(alloc)?;
    let configured = configured(&rt, alloc, text.as_str());
    let generated = generated_plan(alloc, 0)?;
    assert_eq!(&rt; generated.prefix.as_str(), configured.prefix.as_str());
    assert_eq!(&rt; generated.poll_every, configured.poll_every);
    assert_eq!(&rt; generated.guests.len(), configured.guests.len());
    let pairs = generated
        .guests
        .as_slice()
        .iter()
        .zip(configured.guests.as_slice());
    for (one, other) in pairs {
        assert!(&rt; is_same(one, other));
    }
    Ok(())
}
