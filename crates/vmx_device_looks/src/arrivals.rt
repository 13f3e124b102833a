//! What a machine makes of a frame that came over a link.
ghost use Rattle.std.specs.Prelude.{◌≡◌, ◌<◌, ◌≤◌, ◌-◌, length, Some, IsSome, vec_capacity};
ghost use Rattle.vmx_io.specs.declared.buffer.TheConstants.{MAX_FRAME};
ghost use Rattle.vmx_ends.specs.Frames.{IsFrame};
ghost use Rattle.vmx_device_state.specs.SetupView.{SetupView as SetupValue, setup_view};
ghost use Rattle.vmx_regs.specs.Ends.{device_key, device_view, device_masks, device_interrupts};
ghost use Rattle.vmx_machine_state.specs.Views.{ActiveView};
ghost use Rattle.vmx_model.specs.Setups.{admits as admits_by};
ghost use Rattle.vmx_model.specs.Wire.{rx_choice};
ghost use Rattle.vmx_model.specs.Meta.{delivered_as};
ghost use Rattle.vmx_device_looks.specs.Looks.{MayDeliver, DeliversAs};
ghost use Rattle.vmx_device_looks.specs.Arrivals.{AreTerms, IsLetIn, IsWayIn, DeliversTo, Handles, MayReceive};

use crate::ends::deliver_as;
use crate::events::RX_ERROR_EVENT;
use crate::interrupts::{alarm, signal};
use vmx_commands::{Count, Machine};
use vmx_ends::{Deliver, EndFault, Ends, Fabric, RxMeta};
use vmx_filters::{Rule, Verdict, admits};
use vmx_frame::{class, flow, strip};
use vmx_model::Fate;
use vmx_regs::DeviceRegs;
use vmx_rss::{Choice, choose};
use vmx_shared_area::{Setup, Side};

/// How a frame is delivered: by the flow's choice, and by the setup in force.
#[derive(Clone, Copy)]
pub struct Terms {
    pub queue: u32,
    pub hash: u32,
    pub kind: u32,
    /// Its tag is taken out.
    pub strip: bool,
    /// Interrupts mask themselves when they are raised.
    pub auto: bool,
    /// The queue's interrupt.
    pub interrupt: u32,
    /// The interrupt of events.
    pub event: u32,
}

/// Where a frame goes.
#[derive(Clone, Copy)]
pub(crate) enum Admission {
    Inactive,
    Refused { rule: Rule },
    Stopped { queue: u32 },
    To { terms: Terms },
}

/// The queue of a frame's flow, with its hash and kind.
fn choice_of(setup: &Setup, frame: &[u8]) -> Choice
    requires frame { IsFrame frame.now }
    ensures choice { result ≡ rx_choice (setup_view setup.now).rss frame.now }
    ensures below { result.queue < setup.now.rx_queues }
{
    choose(setup.rss.as_ref(), &flow(frame))
}

/// How a frame is delivered under a setup.
fn terms_of(setup: &Setup, frame: &[u8]) -> Terms
    requires frame { IsFrame frame.now }
    ensures terms { AreTerms (setup_view setup.now) frame.now result }
{
    let choice = choice_of(setup, frame);
    let tx = setup.tx_queues as u32;
    let rx = setup.rx_queues as u32;
    Terms {
        queue: choice.queue,
        hash: choice.hash,
        kind: choice.kind,
        strip: setup.strip,
        auto: setup.auto_mask,
        interrupt: tx + choice.queue,
        event: tx + rx,
    }
}

/// Whether the filter lets a frame in at a device with this address.
fn admitted(setup: &Setup, mac: &[u8; 6], frame: &[u8]) -> Verdict
    requires frame { IsFrame frame.now }
    ensures verdict { result ≡ admits_by (setup_view setup.now) mac.now frame.now }
{
    admits(&setup.filter, mac, frame)
}

/// Where a frame goes, by the setup in force.
fn way_in<F: Fabric>(machine: &Machine<F>, frame: &[u8]) -> Admission
    requires frame { IsFrame frame.now }
    ensures way { IsWayIn machine.now frame.now result }
{
    match machine.setup() {
        None => Admission::Inactive,
        Some(setup) => match admitted(setup, &machine.mac(), frame) {
            Verdict::No { rule } => Admission::Refused { rule },
            Verdict::Yes => {
                let terms = terms_of(setup, frame);
                match machine.stopped(Side::Rx, terms.queue) {
                    Some(_) => Admission::Stopped { queue: terms.queue },
                    None => Admission::To { terms },
                }
            }
        },
    }
}

/// What is told of a frame beside its bytes.
fn meta_with(terms: &Terms, tci: Option<u16>) -> RxMeta
    requires kind { terms.now.kind ≤ 4 }
    ensures hash { result.hash ≡ terms.now.hash }
    ensures kind { result.kind ≡ terms.now.kind }
    ensures tci { result.tci ≡ tci }
{
    RxMeta {
        hash: terms.hash,
        kind: terms.kind,
        tci,
    }
}

/// Gives a frame to the queue of its flow, without its tag where the setup says so; `spare` is room for it.
fn deliver_form<F: Fabric>(
    machine: &mut Machine<F>,
    terms: &Terms,
    frame: &[u8],
    spare: &mut Vec<u8>,
) -> Deliver
    requires frame { IsFrame frame.now }
    requires ready { MayDeliver machine.old terms.now.queue }
    requires kind { terms.now.kind ≤ 4 }
    requires room { MAX_FRAME ≤ vec_capacity spare.old }
    ensures delivers { (s : SetupValue) → AreTerms s frame.now terms.now → DeliversAs terms.now.queue (delivered_as s frame.now) result machine.old machine.new }
    ensures room { MAX_FRAME ≤ vec_capacity spare.new }
{
    if terms.strip {
        spare.clear();
        let tci = strip(frame, spare);
        let meta = meta_with(terms, tci);
        return deliver_as(machine, terms.queue, spare.as_slice(), &meta);
    }
    let meta = meta_with(terms, None);
    deliver_as(machine, terms.queue, frame, &meta)
}

/// Counts a frame that came up.
fn count_up<F: Fabric>(machine: &mut Machine<F>, queue: u32, frame: &[u8])
    requires queue { queue < 8 }
    requires frame { IsFrame frame.now }
    ensures counted { machine.new ≡ counted_up queue frame.now machine.old }
{
    let what = Count::Frame {
        class: class(frame),
        bytes: frame.len() as u64,
    };
    machine.count(Side::Rx, queue, what);
}

ghost use Rattle.vmx_device_looks.specs.Arrivals.{counted_up, counted_stop};
ghost use Rattle.vmx_machine_state.specs.Stopped.{IsInUse};
ghost use Rattle.vmx_machine_state.specs.Views.{state_of};
ghost use Rattle.vmx_shared_area.specs.declared.stats.Side.TheVariants as side;

/// Counts the error of a queue, and stops it.
fn stop_queue<F: Fabric>(machine: &mut Machine<F>, queue: u32, fault: &EndFault)
    requires queue { queue < 8 }
    requires used { IsInUse side.Rx queue (state_of machine.old) }
    ensures stopped { machine.new ≡ counted_stop queue fault.now machine.old }
{
    machine.count(Side::Rx, queue, Count::Error);
    machine.stop(Side::Rx, queue, fault);
}

/// Delivers a frame to the queue of its flow, counts it, and raises interrupts.
fn deliver<F: Fabric>(
    machine: &mut Machine<F>,
    regs: &mut DeviceRegs<Ends<F>>,
    spare: &mut Vec<u8>,
    activation: u32,
    terms: &Terms,
    frame: &[u8],
) -> Fate
    requires frame { IsFrame frame.now }
    requires active { IsSome machine.old.active }
    requires terms { (a : ActiveView) → machine.old.active ≡ Some a → AreTerms a.setup frame.now terms.now }
    requires ready { (a : ActiveView) → machine.old.active ≡ Some a → MayReceive machine.old (device_interrupts regs.old) a }
    requires room { MAX_FRAME ≤ vec_capacity spare.old }
    ensures key { device_key regs.new ≡ device_key regs.old }
    ensures calls { device_view regs.new ≡ device_view regs.old }
    ensures delivers { (a : ActiveView) → machine.old.active ≡ Some a → DeliversTo a.setup activation terms.now.queue frame.now (device_interrupts regs.old) result machine.old (device_masks regs.old) machine.new (device_masks regs.new) }
    ensures room { MAX_FRAME ≤ vec_capacity spare.new }
{
    match deliver_form(machine, terms, frame, spare) {
        Deliver::Done { place } => {
            count_up(machine, terms.queue, frame);
            signal(regs, terms.interrupt, terms.auto);
            Fate::Up {
                activation,
                queue: terms.queue,
                place,
            }
        }
        Deliver::NoBuffer {
            ring,
            position,
            word: _,
            look,
        } => {
            machine.count(Side::Rx, terms.queue, Count::NoBuffer);
            Fate::NoBuffer {
                activation,
                queue: terms.queue,
                ring,
                position,
                look,
            }
        }
        Deliver::Bad { words: _, fault } => {
            stop_queue(machine, terms.queue, &fault);
            alarm(regs, RX_ERROR_EVENT, terms.event, terms.auto);
            Fate::Stopped {
                activation,
                queue: terms.queue,
            }
        }
    }
}

/// Makes of a frame what the state, the filter and the queues say, and says its fate. `begun` is the number of activations so far.
pub fn handle<F: Fabric>(
    machine: &mut Machine<F>,
    regs: &mut DeviceRegs<Ends<F>>,
    spare: &mut Vec<u8>,
    begun: u32,
    frame: &[u8],
) -> Fate
    requires frame { IsFrame frame.now }
    requires begun { IsSome machine.old.active → 1 ≤ begun }
    requires ready { (a : ActiveView) → machine.old.active ≡ Some a → MayReceive machine.old (device_interrupts regs.old) a }
    requires room { MAX_FRAME ≤ vec_capacity spare.old }
    ensures key { device_key regs.new ≡ device_key regs.old }
    ensures calls { device_view regs.new ≡ device_view regs.old }
    ensures handles { Handles (begun - 1) frame.now (device_interrupts regs.old) result machine.old (device_masks regs.old) machine.new (device_masks regs.new) }
    ensures room { MAX_FRAME ≤ vec_capacity spare.new }
{
    match way_in(machine, frame) {
        Admission::Inactive => Fate::Inactive,
        Admission::Refused { rule } => Fate::Filtered { rule },
        Admission::Stopped { queue } => Fate::Stopped {
            activation: begun - 1,
            queue,
        },
        Admission::To { terms } => deliver(machine, regs, spare, begun - 1, &terms, frame),
    }
}
