//! What an activation takes memory for: the image, and both ends of all queues.
ghost use Rattle.std.specs.Prelude.{◌≡◌, ◌≤◌, ℕ, map, IfOk, OnOk};
ghost use Rattle.vmx_shared_area.specs.Layout.{image_of};
ghost use Rattle.vmx_driver_steps.specs.Activating.{ArePrepared};

use std::alloc::{AllocError, Global};
use vmx_ends::{Ends, Fabric, make_queues, make_rx_queues};
use vmx_io::{List, Roomy};
use vmx_model::GuestPlan;
use vmx_shared_area::{Image, Setup, write};

/// New queues, and the image of a setup.
#[derive(Drop)]
pub struct Fresh<F: Fabric> {
    pub image: Image,
    pub tx: List<F::TxDriver>,
    pub rx: List<F::RxDriver>,
    pub ends: Ends<F>,
}

/// The image of a setup.
pub fn image_for(alloc: Global, setup: &Setup) -> Result<Image, AllocError>
    ensures image { IfOk result (λ i. i ≡ image_of setup.now) }
{
    let mut image = Image::new(alloc)?;
    write(setup, &mut image);
    Ok(image)
}

/// The queues of an activation of a guest, made by its plan.
pub fn prepare<F: Fabric>(
    alloc: Global,
    guest: u32,
    activation: u32,
    plan: &GuestPlan,
    setup: &Setup,
) -> Result<Fresh<F>, AllocError>
    ensures image { IfOk result (λ n. n.image ≡ image_of setup.now) }
    ensures queues { IfOk result (λ n. ArePrepared guest plan.now activation (map F.TxDriver.view n.tx) (map F.RxDriver.view n.rx) (map F.TxDevice.view n.ends.tx) (map F.RxDevice.view n.ends.rx)) }
{
    let image = image_for(alloc, setup)?;
    let asked = &plan.setup;
    let tx = make_queues::<F>(
        alloc,
        guest,
        activation,
        u32::from(asked.tx_queues),
        asked.tx_ring,
        plan.piece,
        asked.tx_data,
    )?;
    let rx = make_rx_queues::<F>(
        alloc,
        guest,
        activation,
        u32::from(asked.rx_queues),
        asked.rx_ring1,
        asked.rx_ring2,
        plan.bodies,
        asked.rx_data,
    )?;
    Ok(Fresh {
        image,
        tx: tx.drivers,
        rx: rx.drivers,
        ends: Ends {
            tx: tx.devices,
            rx: rx.devices,
        },
    })
}

/// The same, with room for the facts of these queues. `AllocError` leaves the facts as they were.
pub fn provide<F: Fabric>(
    alloc: Global,
    guest: u32,
    activation: u32,
    plan: &GuestPlan,
    setup: &Setup,
    tx_facts: &mut Roomy<F::TxFacts>,
    rx_facts: &mut Roomy<F::RxFacts>,
) -> Result<Fresh<F>, AllocError>
    ensures same { (tx_facts.new.0 ≡ tx_facts.old.0) × (rx_facts.new.0 ≡ rx_facts.old.0) }
    ensures kept { (tx_facts.old.1 ≤ tx_facts.new.1) × (rx_facts.old.1 ≤ rx_facts.new.1) }
    ensures room { OnOk result ((plan.now.setup.tx_queues ≤ tx_facts.new.1) × (plan.now.setup.rx_queues ≤ rx_facts.new.1)) }
    ensures image { IfOk result (λ n. n.image ≡ image_of setup.now) }
    ensures queues { IfOk result (λ n. ArePrepared guest plan.now activation (map F.TxDriver.view n.tx) (map F.RxDriver.view n.rx) (map F.TxDevice.view n.ends.tx) (map F.RxDevice.view n.ends.rx)) }
{
    tx_facts.reserve(usize::from(plan.setup.tx_queues))?;
    rx_facts.reserve(usize::from(plan.setup.rx_queues))?;
    prepare::<F>(alloc, guest, activation, plan, setup)
}
