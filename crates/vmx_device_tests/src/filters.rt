//! What the filter lets in, before and after an update of the receive mode.

use std::test::Fail;
use vmx_layout::Command;
use vmx_one_guest::{Bench, Sample, Settings, Step, answered, came, refused, up};

/// Frames to all are let in, and no other. Then all frames are, also one to the other guest.
const STEPS: [Step; 12] = [
    Step::Activate(Settings::Broadcasts),
    Step::Works,
    Step::Answer(0, false),
    Step::Send(Sample::ToFirst),
    Step::Send(Sample::ToAll),
    Step::Works,
    Step::Works,
    Step::Command(Command::UpdateRxMode, Settings::Everything),
    Step::Send(Sample::ToSecond),
    Step::Works,
    Step::Receive(Sample::ToAll),
    Step::Receive(Sample::ToSecond),
];

#[test]
fn an_update_of_the_mode_lets_others_in(rt: HostRuntime) -> Result<(), Fail> {
    let mut bench = Bench::new(rt.alloc())?;
    assert_eq!(rt; bench.plays(&STEPS)?, None);
    let journal = [
        answered(Command::ActivateDev, Some(0)),
        came(0, refused()),
        came(1, up(0, 0, 0)),
        answered(Command::UpdateRxMode, Some(1)),
        came(2, up(0, 0, 1)),
    ];
    assert_eq!(rt; bench.entries(), journal.as_slice());
    Ok(())
}
