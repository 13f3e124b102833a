//! The copies of one guest's frames.
ghost use Rattle.std.specs.Prelude.{◌≡◌, ◌<◌, ◌≤◌, ◌+◌, ◌*◌, ◌^◌, ◌++◌, ◌∷◌, ℕ, [], length, map, filter_map, slice_get, slice_index, OnOk, IfOk, Some, Option};
ghost use Rattle.vmx_frame.specs.declared.ethernet.TheConstants.{HEADER_LEN};
ghost use Rattle.vmx_layout.specs.declared.register.TheConstants.{MAX_QUEUES};
ghost use Rattle.vmx_model.specs.Plan.{captured_as, verdict_on};
ghost use Rattle.vmx_model.specs.Wire.{targets as targets_by};
ghost use Rattle.vmx_pcap.specs.declared.records.Stamped.{Stamped as StampedValue};
ghost use Rattle.vmx_buckets.specs.Buckets.{HasSwitched};
ghost use Rattle.vmx_copies.specs.Join.{AreInOrder, IsInOrder, IsPassed, guest_rows, frame_rows, untaken, alone, before, here, row_if, arrival_at};

use crate::copy::FrameCopy;
use std::alloc::{AllocError, Global};
use vmx_buckets::{QUEUES, Switched, by_queue, key_of};
use vmx_io::List;
use vmx_model::{Entry, Fate, GuestPlan, Sending, Way};
use vmx_switch::{Table, targets};
use vmx_verdicts::Verdicts;

/// A guest that sends, and what the fates of its copies rest on.
#[derive(Clone, Copy)]
pub struct Sender<'a> {
    pub switch: &'a Table,
    pub port: u32,
    pub guest: &'a GuestPlan,
    /// The journal of the guest's device.
    pub entries: &'a [Entry],
    /// By target and then sender, the fates of the packets that the target took.
    pub arrivals: &'a List<List<List<Fate>>>,
}

/// Puts the copies of a guest's frames behind the rows.
pub fn rows_of(alloc: Global, sender: &Sender, rows: &mut List<FrameCopy>) -> Result<(), AllocError>
    requires port { sender.now.port < length sender.now.switch.now.macs }
    requires few { length sender.now.guest.now.capture.records < 2 ^ 32 }
    ensures rows { AreInOrder sender.now.guest.now sender.now.entries.now
        → OnOk result (rows.new ≡ rows.old ++ guest_rows sender.now.switch.now sender.now.arrivals.now sender.now.entries.now sender.now.port sender.now.guest.now) }
{
    let count = (sender.guest.script.len() + 1) * QUEUES;
    let sends = by_queue(alloc, sender.entries, count)?;
    let mut passed = Vec::from_elem(alloc, 0usize, count)?;
    let mut walk = Verdicts::new(sender.guest);
    for number in 0..sender.guest.capture.records.len() as u32 {
        let sending = walk.next();
        frame_copies(sender, number, sending, &sends, &mut passed, rows)?;
    }
    Ok(())
}

/// The copies of a captured frame, by the verdict on it. `passed` has the cursors of the queues.
fn frame_copies(
    sender: &Sender,
    number: u32,
    sending: Sending,
    sends: &List<List<Switched>>,
    passed: &mut Vec<usize>,
    rows: &mut List<FrameCopy>,
) -> Result<(), AllocError>
    requires port { sender.now.port < length sender.now.switch.now.macs }
    requires number { number < length sender.now.guest.now.capture.records }
    requires verdict { (r : StampedValue) → slice_get sender.now.guest.now.capture.records number ≡ Some r → sending ≡ verdict_on sender.now.guest.now (captured_as sender.now.guest.now number r) }
    requires sends { HasSwitched sender.now.entries.now ((length sender.now.guest.now.script + 1) * MAX_QUEUES) sends.now }
    requires cursors { length passed.old.items ≡ (length sender.now.guest.now.script + 1) * MAX_QUEUES }
    ensures rows { (r : StampedValue) → slice_get sender.now.guest.now.capture.records number ≡ Some r → AreInOrder sender.now.guest.now sender.now.entries.now → IsPassed sender.now.guest.now sender.now.entries.now number passed.old.items
        → OnOk result (rows.new ≡ rows.old ++ frame_rows sender.now.switch.now sender.now.arrivals.now sender.now.entries.now sender.now.port sender.now.guest.now (captured_as sender.now.guest.now number r)) }
    ensures passed { AreInOrder sender.now.guest.now sender.now.entries.now → IsPassed sender.now.guest.now sender.now.entries.now number passed.old.items
        → OnOk result (IsPassed sender.now.guest.now sender.now.entries.now (number + 1) passed.new.items) }
    ensures cursors { length passed.new.items ≡ length passed.old.items }
{
    match sending {
        Sending::Down => push_alone(sender, number, Fate::Down, rows),
        Sending::Short => push_alone(sender, number, Fate::Short, rows),
        Sending::TooLong => push_alone(sender, number, Fate::TooLong, rows),
        Sending::Sent {
            activation,
            queue,
            place,
        } => {
            let key = key_of(activation, queue);
            let begun = passed[key];
            let end = sent_or_not(sender, number, place, sends.at(key).as_slice(), begun, rows)?;
            passed[key] = end;
            Ok(())
        }
    }
}

/// A frame that counts as one copy without target.
fn push_alone(
    sender: &Sender,
    number: u32,
    fate: Fate,
    rows: &mut List<FrameCopy>,
) -> Result<(), AllocError>
    ensures alone { OnOk result (rows.new ≡ rows.old ++ alone sender.now.port number fate) }
{
    rows.push(FrameCopy {
        sender: sender.port,
        number,
        target: None,
        fate,
    })?;
    Ok(())
}

ghost use Rattle.vmx_model.specs.Wire.{posted_form, wire_form};
ghost use Rattle.vmx_copies.specs.Join.{sent_rows};

/// The copies of a frame that is sent, whether it was taken or not; the answer is where its queue's cursor then stands.
fn sent_or_not(
    sender: &Sender,
    number: u32,
    place: u64,
    list: &[Switched],
    begun: usize,
    rows: &mut List<FrameCopy>,
) -> Result<usize, AllocError>
    requires port { sender.now.port < length sender.now.switch.now.macs }
    requires number { number < length sender.now.guest.now.capture.records }
    requires header { (r : StampedValue) → slice_get sender.now.guest.now.capture.records number ≡ Some r → HEADER_LEN ≤ length r.frame }
    ensures rows { (r : StampedValue) → slice_get sender.now.guest.now.capture.records number ≡ Some r → IsInOrder list.now → begun ≡ length (before place list.now)
        → OnOk result (rows.new ≡ rows.old ++ sent_rows sender.now.arrivals.now sender.now.port number (targets_by sender.now.switch.now sender.now.port (wire_form (posted_form sender.now.guest.now r.frame))) (here place list.now)) }
    ensures cursor { IsInOrder list.now → begun ≡ length (before place list.now) → IfOk result (λ end. end ≡ length (before (place + 1) list.now)) }
{
    let end = sent_copies(sender, number, place, list, begun, rows)?;
    if end == begun {
        untaken_copies(sender, number, rows)?;
    }
    Ok(end)
}

/// The copies of the frame of this place, which stand in its queue's list from `begun` on; the answer is where they end.
fn sent_copies(
    sender: &Sender,
    number: u32,
    place: u64,
    list: &[Switched],
    begun: usize,
    rows: &mut List<FrameCopy>,
) -> Result<usize, AllocError>
    ensures rows { IsInOrder list.now → begun ≡ length (before place list.now) → OnOk result (rows.new ≡ rows.old ++ filter_map (row_if sender.now.arrivals.now sender.now.port number) (here place list.now)) }
    ensures end { IsInOrder list.now → begun ≡ length (before place list.now) → IfOk result (λ end. end ≡ begun + length (here place list.now)) }
{
    let mut at = begun;
    while at < list.len() && list[at].place == place {
        push_row(sender, number, &list[at], rows)?;
        at += 1;
    }
    Ok(at)
}

/// A copy that its sender's journal shows, where it has a fate.
fn push_row(
    sender: &Sender,
    number: u32,
    switched: &Switched,
    rows: &mut List<FrameCopy>,
) -> Result<(), AllocError>
    ensures row { OnOk result (rows.new ≡ rows.old ++ filter_map (row_if sender.now.arrivals.now sender.now.port number) (switched.now ∷ [])) }
{
    if let Some(row) = row_of(sender, number, switched) {
        rows.push(row)?;
    }
    Ok(())
}

fn row_of(sender: &Sender, number: u32, switched: &Switched) -> Option<FrameCopy>
    ensures row { result ≡ row_if sender.now.arrivals.now sender.now.port number switched.now }
{
    match switched.to {
        None => row_with(sender, number, None, Some(Fate::NoPort)),
        Some(toward) => row_with(
            sender,
            number,
            Some(toward.target),
            fate_of(sender, toward.target, toward.way),
        ),
    }
}

ghost use Rattle.vmx_copies.specs.Join.{row_with as row_with_of, fate_by};

/// A row, where there is a fate.
fn row_with(
    sender: &Sender,
    number: u32,
    target: Option<u32>,
    fate: Option<Fate>,
) -> Option<FrameCopy>
    ensures row { result ≡ row_with_of sender.now.port number target fate }
{
    match fate {
        None => None,
        Some(fate) => Some(FrameCopy {
            sender: sender.port,
            number,
            target,
            fate,
        }),
    }
}

/// A full link is a fate of its own, and a packet has that of its arrival.
fn fate_of(sender: &Sender, target: u32, way: Way) -> Option<Fate>
    ensures fate { result ≡ fate_by sender.now.arrivals.now sender.now.port target way }
{
    match way {
        Way::Full { look } => Some(Fate::LinkFull { look }),
        Way::Link { place } => arrival(sender, target, place),
    }
}

/// The fate of the packet of a place, where the target took it.
fn arrival(sender: &Sender, target: u32, place: u64) -> Option<Fate>
    ensures fate { result ≡ arrival_at sender.now.arrivals.now target sender.now.port place }
{
    let from = sender.arrivals.as_slice().get(target as usize)?;
    let fates = from.as_slice().get(sender.port as usize)?;
    fates.as_slice().get(place as usize).copied()
}

/// The copies of a frame that was sent and not taken: its tag changes nothing of its targets.
fn untaken_copies(
    sender: &Sender,
    number: u32,
    rows: &mut List<FrameCopy>,
) -> Result<(), AllocError>
    requires port { sender.now.port < length sender.now.switch.now.macs }
    requires number { number < length sender.now.guest.now.capture.records }
    requires header { (r : StampedValue) → slice_get sender.now.guest.now.capture.records number ≡ Some r → HEADER_LEN ≤ length r.frame }
    ensures rows { (r : StampedValue) → slice_get sender.now.guest.now.capture.records number ≡ Some r
        → OnOk result (rows.new ≡ rows.old ++ untaken sender.now.port number (targets_by sender.now.switch.now sender.now.port r.frame)) }
{
    let frame = sender.guest.capture.records.as_slice()[number as usize]
        .frame
        .as_slice();
    let found = targets(sender.switch, sender.port, frame);
    if found.count == 0 {
        return push_alone(sender, number, Fate::NoPort, rows);
    }
    push_discarded(sender, number, &found.ports[..found.count as usize], rows)
}

ghost use Rattle.vmx_copies.specs.Join.{discarded_for};

/// A discarded copy for each of these targets.
fn push_discarded(
    sender: &Sender,
    number: u32,
    targets: &[u32],
    rows: &mut List<FrameCopy>,
) -> Result<(), AllocError>
    ensures rows { OnOk result (rows.new ≡ rows.old ++ map (discarded_for sender.now.port number) targets.now) }
{
    for target in targets {
        rows.push(FrameCopy {
            sender: sender.port,
            number,
            target: Some(*target),
            fate: Fate::Discarded,
        })?;
    }
    Ok(())
}
