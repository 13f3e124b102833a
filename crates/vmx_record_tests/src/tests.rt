//! The facts of ends that met at once.

use std::alloc::{AllocError, Global};
use std::test::Fail;
use vmx_ends::{Ends, Fabric, QueueName, RxFacts, TxFacts};
use vmx_io::{List, Roomy};
use vmx_link::LinkFacts;
use vmx_lists::{ListFabric, ListRxFacts, ListTxFacts};
use vmx_model::Journal;
use vmx_record::{GuestRecordOf, RecordOf};
use vmx_regs::RegsFacts;
use vmx_shared_area::Stats;

const NAME: QueueName = QueueName {
    guest: 0,
    activation: 0,
    queue: 0,
};

fn tx(alloc: Global) -> Result<List<ListTxFacts>, AllocError> {
    let (driver, device) = ListFabric::make_tx(alloc, NAME, 32, 4_096, false)?;
    let mut facts = List::new(alloc);
    facts.push(ListFabric::meet_tx(driver, device))?;
    Ok(facts)
}

fn rx(alloc: Global) -> Result<List<ListRxFacts>, AllocError> {
    let (driver, device) = ListFabric::make_rx(alloc, NAME, 32, 32, 0, 1, false)?;
    let mut facts = List::new(alloc);
    facts.push(ListFabric::meet_rx(driver, device))?;
    Ok(facts)
}

fn regs(alloc: Global) -> Result<RegsFacts, AllocError> {
    let (driver, device) = vmx_regs::make::<Ends<ListFabric>>(alloc, 17)?;
    Ok(vmx_regs::meet(driver, device))
}

fn links(alloc: Global) -> Result<List<LinkFacts>, AllocError> {
    let (output, input) = vmx_link::pair(alloc, 0, 1, 64)?;
    let mut links = List::new(alloc);
    links.push(vmx_link::meet(output, input))?;
    Ok(links)
}

fn guest(alloc: Global) -> Result<GuestRecordOf<ListFabric>, AllocError> {
    let none = Stats { counts: [0; 10] };
    let one = Stats { counts: [1; 10] };
    Ok(GuestRecordOf {
        journal: Journal {
            entries: Roomy::new(alloc),
            setups: Roomy::new(alloc),
        },
        received: List::new(alloc),
        tx: tx(alloc)?,
        rx: rx(alloc)?,
        regs: regs(alloc)?,
        tx_stats: [one, none, none, none, none, none, none, none],
        rx_stats: [none, none, none, none, none, none, none, one],
    })
}

fn record(alloc: Global) -> Result<RecordOf<ListFabric>, AllocError> {
    let mut guests = List::new(alloc);
    guests.push(guest(alloc)?)?;
    Ok(RecordOf {
        guests,
        links: links(alloc)?,
    })
}

/// Whether a guest did nothing, on one queue a side, as its readers tell.
fn is_idle(guest: &GuestRecordOf<ListFabric>) -> bool {
    if guest.tx_queues() != 1 || guest.rx_queues() != 1 {
        return false;
    }
    guest.tx(0).sent() == 0
        && guest.rx(0).delivered() == 0
        && guest.regs().commands() == 0
        && guest.entries().is_empty()
        && guest.setups().is_empty()
        && guest.received().is_empty()
}

#[test]
fn a_record_tells_its_parts(rt: HostRuntime) -> Result<(), Fail> {
    let record = record(rt.alloc())?;
    assert_eq!(rt; record.guests(), 1);
    assert_eq!(rt; record.links(), 1);
    assert_eq!(rt; record.link(0).to(), 1);
    assert_eq!(rt; record.journals(rt.alloc())?.len(), 1);
    let guest = record.guest(0);
    assert!(rt; is_idle(guest));
    for queue in 0..8 {
        assert_eq!(rt; guest.tx_stats(queue).counts[9] == 1, queue == 0);
        assert_eq!(rt; guest.rx_stats(queue).counts[0] == 1, queue == 7);
    }
    Ok(())
}
