//! A quiesce and a reset: what becomes of frames before and after, and that the device holds nothing then.

use std::test::Fail;
use vmx_layout::Command;
use vmx_model::Fate;
use vmx_one_guest::{Bench, Sample, Settings, Step, answered, came, sent, up};

/// The driver quiesces after its second frame, and goes on posting; three packets come to the idle device. The command is looked at
/// before the queue and before the link. Then the driver activates again with new queues.
const QUIESCE: [Step; 26] = [
    Step::Activate(Settings::Default),
    Step::Works,
    Step::Answer(0, false),
    Step::Holds(true),
    Step::Post(Sample::ToSecond),
    Step::Post(Sample::ToSecond),
    Step::Send(Sample::ToFirst),
    Step::Send(Sample::ToFirst),
    Step::Works,
    Step::Works,
    Step::Command(Command::QuiesceDev, Settings::Default),
    Step::Post(Sample::ToSecond),
    Step::Send(Sample::ToFirst),
    Step::Send(Sample::ToFirst),
    Step::Send(Sample::ToFirst),
    Step::Works,
    Step::Holds(false),
    Step::Works,
    Step::Works,
    Step::Idles,
    Step::Answer(0, true),
    Step::Activate(Settings::Default),
    Step::Works,
    Step::Post(Sample::ToSecond),
    Step::Send(Sample::ToFirst),
    Step::Works,
];

#[test]
fn after_a_quiesce_nothing_is_taken(rt: HostRuntime) -> Result<(), Fail> {
    let mut bench = Bench::new(rt.alloc())?;
    assert_eq!(rt; bench.plays(&QUIESCE)?, None);
    let journal = [
        answered(Command::ActivateDev, Some(0)),
        sent(0, 0, 0),
        came(0, up(0, 0, 0)),
        sent(0, 1, 1),
        came(1, up(0, 0, 1)),
        answered(Command::QuiesceDev, None),
        came(2, Fate::Inactive),
        came(3, Fate::Inactive),
        came(4, Fate::Inactive),
        answered(Command::ActivateDev, Some(1)),
        sent(1, 0, 2),
        came(5, up(1, 0, 0)),
    ];
    assert_eq!(rt; bench.entries(), journal.as_slice());
    Ok(())
}

/// The driver resets before two frames are taken, which are discarded. It activates again with new queues, and a frame goes out.
const RESET: [Step; 15] = [
    Step::Activate(Settings::Default),
    Step::Works,
    Step::Answer(0, false),
    Step::Post(Sample::ToSecond),
    Step::Post(Sample::ToSecond),
    Step::Command(Command::ResetDev, Settings::Default),
    Step::Works,
    Step::Holds(false),
    Step::Answer(0, true),
    Step::Idles,
    Step::Activate(Settings::Default),
    Step::Works,
    Step::Answer(0, false),
    Step::Post(Sample::ToSecond),
    Step::Works,
];

#[test]
fn a_reset_leaves_frames_that_were_not_taken(rt: HostRuntime) -> Result<(), Fail> {
    let mut bench = Bench::new(rt.alloc())?;
    assert_eq!(rt; bench.plays(&RESET)?, None);
    let journal = [
        answered(Command::ActivateDev, Some(0)),
        answered(Command::ResetDev, None),
        answered(Command::ActivateDev, Some(1)),
        sent(1, 0, 0),
    ];
    assert_eq!(rt; bench.entries(), journal.as_slice());
    // of both activations one unicast frame was taken, of 60 bytes
    assert_eq!(rt; bench.sent_stats().counts, [0, 0, 1, 60, 0, 0, 0, 0, 0, 0]);
    Ok(())
}
