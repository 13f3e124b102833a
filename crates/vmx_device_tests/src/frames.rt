//! Frames out and in: before an activation, while the device is active, and a quiesce behind them.

use std::test::Fail;
use vmx_layout::Command;
use vmx_model::Fate;
use vmx_one_guest::{Bench, Sample, Settings, Step, answered, came, lost, refused, sent, up};

/// A packet comes to an idle device. Then two frames go out, of which the second has no target, and two packets come in, of which
/// the second is not for this guest.
const STEPS: [Step; 19] = [
    Step::Idles,
    Step::Send(Sample::ToFirst),
    Step::Works,
    Step::Activate(Settings::Default),
    Step::NoAnswer,
    Step::Works,
    Step::Answer(0, false),
    Step::Post(Sample::ToSecond),
    Step::Post(Sample::ToFirst),
    Step::Send(Sample::ToFirst),
    Step::Send(Sample::ToSecond),
    Step::Works,
    Step::Works,
    Step::Idles,
    Step::Get(Sample::ToSecond),
    Step::Receive(Sample::ToFirst),
    Step::Command(Command::QuiesceDev, Settings::Default),
    Step::Works,
    Step::Answer(0, true),
];

#[test]
fn frames_go_out_and_come_in(rt: HostRuntime) -> Result<(), Fail> {
    let mut bench = Bench::new(rt.alloc())?;
    assert_eq!(rt; bench.plays(&STEPS)?, None);
    let journal = [
        came(0, Fate::Inactive),
        answered(Command::ActivateDev, Some(0)),
        sent(0, 0, 0),
        came(1, up(0, 0, 0)),
        lost(0, 1),
        came(2, refused()),
        answered(Command::QuiesceDev, None),
    ];
    assert_eq!(rt; bench.entries(), journal.as_slice());
    Ok(())
}
