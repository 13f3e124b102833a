//! Tags: one is put into a frame where its mark says so, and one is taken out of a packet where the setup says so.

use std::test::Fail;
use vmx_one_guest::{Bench, Sample, Settings, Step};

/// A frame goes out with a tag put in, and a packet with a tag comes up as it is.
const KEPT: [Step; 8] = [
    Step::Activate(Settings::Default),
    Step::Works,
    Step::PostWithTag(Sample::ToSecond),
    Step::Post(Sample::TaggedToSecond),
    Step::Send(Sample::TaggedToFirst),
    Step::Works,
    Step::Works,
    Step::Receive(Sample::TaggedToFirst),
];

/// The other guest gets the same bytes of both frames: those of the second, which had its tag.
const BOTH: [Step; 2] = [
    Step::Get(Sample::TaggedToSecond),
    Step::Get(Sample::TaggedToSecond),
];

#[test]
fn a_tag_is_put_in_and_one_stays(rt: HostRuntime) -> Result<(), Fail> {
    let mut bench = Bench::new(rt.alloc())?;
    assert_eq!(rt; bench.plays(&KEPT)?, None);
    assert_eq!(rt; bench.plays(&BOTH)?, None);
    Ok(())
}

/// A packet with a tag comes up without it, and one that has none as it is.
const STRIPPED: [Step; 8] = [
    Step::Activate(Settings::Strip),
    Step::Works,
    Step::Send(Sample::TaggedToFirst),
    Step::Send(Sample::ToFirst),
    Step::Works,
    Step::Works,
    Step::ReceiveWithTag(Sample::ToFirst),
    Step::Receive(Sample::ToFirst),
];

#[test]
fn a_tag_is_taken_out_under_strip(rt: HostRuntime) -> Result<(), Fail> {
    let mut bench = Bench::new(rt.alloc())?;
    assert_eq!(rt; bench.plays(&STRIPPED)?, None);
    Ok(())
}
