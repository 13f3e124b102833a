//! An update of the RSS table while the device is active.

use std::test::Fail;
use vmx_layout::Command;
use vmx_one_guest::{Bench, Sample, Settings, Step, answered, came, up};

/// A packet of a flow, one of no flow, and one more of the flow, which comes in one turn with the update.
const STEPS: [Step; 11] = [
    Step::Activate(Settings::FlowsToQueue1),
    Step::Works,
    Step::Answer(0, false),
    Step::Send(Sample::FlowToFirst),
    Step::Send(Sample::ToFirst),
    Step::Send(Sample::FlowToFirst),
    Step::Works,
    Step::Works,
    Step::Command(Command::UpdateRssidt, Settings::FlowsToQueue0),
    Step::Works,
    Step::Idles,
];

#[test]
fn an_update_moves_flows_to_another_queue(rt: HostRuntime) -> Result<(), Fail> {
    let mut bench = Bench::new(rt.alloc())?;
    assert_eq!(rt; bench.plays(&STEPS)?, None);
    // a frame of no flow is on queue 0 all the time
    let journal = [
        answered(Command::ActivateDev, Some(0)),
        came(0, up(0, 1, 0)),
        came(1, up(0, 0, 0)),
        answered(Command::UpdateRssidt, Some(1)),
        came(2, up(0, 0, 1)),
    ];
    assert_eq!(rt; bench.entries(), journal.as_slice());
    Ok(())
}
