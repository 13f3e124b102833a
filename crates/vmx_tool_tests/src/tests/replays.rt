//! What comes out of a replay: OUT byte for byte, the summary, the fates.

use super::THREE;
use crate::captures::{Filled, capture, front};
use crate::runs::pair;
use std::alloc::{AllocError, Global};
use std::test::Fail;
use vmx_model::Fate;
use vmx_tool::Record;

/// Handed up first.
const FIRST: Fate = Fate::Up {
    activation: 0,
    queue: 0,
    place: 0,
};

/// Handed up second.
const SECOND: Fate = Fate::Up {
    activation: 0,
    queue: 0,
    place: 1,
};

/// Handed up third.
const THIRD: Fate = Fate::Up {
    activation: 0,
    queue: 0,
    place: 2,
};

/// Captured frames, the bytes that are cut off behind them, the console's text, the frames that come out, and the fates.
type Replay = (
    &'static [Filled],
    usize,
    &'static str,
    &'static [Filled],
    &'static [Fate],
);

const REPLAYS: [Replay; 4] = [
    (
        &THREE,
        0,
        "guests 2 captured 3 copies 3 tail 0\nup 3 link-full 0 inactive 0 filtered 0 no-buffer 0 discarded 0 no-port 0 down 0 short 0 too-long 0\n",
        &THREE,
        &[FIRST, SECOND, THIRD],
    ),
    (
        &[],
        0,
        "guests 2 captured 0 copies 0 tail 0\nup 0 link-full 0 inactive 0 filtered 0 no-buffer 0 discarded 0 no-port 0 down 0 short 0 too-long 0\n",
        &[],
        &[],
    ),
    (
        &[(5, 1, 13), (6, 2, 14), (7, 3, 1518), (8, 4, 1519)],
        0,
        "guests 2 captured 4 copies 4 tail 0\nup 2 link-full 0 inactive 0 filtered 0 no-buffer 0 discarded 0 no-port 0 down 0 short 1 too-long 1\n",
        &[(6, 2, 14), (7, 3, 1518)],
        &[Fate::Short, FIRST, SECOND, Fate::TooLong],
    ),
    (
        &[(1, 1, 60), (2, 2, 60)],
        30,
        "guests 2 captured 1 copies 1 tail 46\nup 1 link-full 0 inactive 0 filtered 0 no-buffer 0 discarded 0 no-port 0 down 0 short 0 too-long 0\n",
        &[(1, 1, 60)],
        &[FIRST],
    ),
];

/// A capture of these frames without its last bytes.
fn cut_capture(alloc: Global, frames: &[Filled], cut: usize) -> Result<Vec<u8>, AllocError> {
    let whole = capture(alloc, frames)?;
    front(alloc, whole.as_slice(), whole.len().saturating_sub(cut))
}

/// Whether OUT is there and holds these bytes.
fn holds(out: &Option<Vec<u8>>, bytes: &[u8]) -> bool {
    match out {
        Some(out) => out.as_slice() == bytes,
        None => false,
    }
}

/// Whether there is a record with these fates and so many frames that were handed up.
fn tells(account: &Option<Record>, fates: &[Fate], received: usize) -> bool {
    match account {
        Some(account) => account.fates.as_slice() == fates && account.received.len() == received,
        None => false,
    }
}

/// Whether a replay ends with 0 and leaves what its row says.
fn comes_out(alloc: Global, replay: &Replay) -> Result<bool, AllocError> {
    let (captured, cut, text, kept, fates) = replay;
    let ended = pair(alloc, cut_capture(alloc, captured, *cut)?)?;
    let kept_bytes = capture(alloc, kept)?;
    Ok(
        ended.number == 0
            && ended.text.as_slice() == text.as_bytes()
            && holds(&ended.out, kept_bytes.as_slice())
            && tells(&ended.account, fates, kept.len()),
    )
}

#[test]
fn sent_frames_come_out_with_their_stamps(rt: HostRuntime) -> Result<(), Fail> {
    for replay in &REPLAYS {
        assert!(rt; comes_out(rt.alloc(), replay)?, "{}", replay.2);
    }
    Ok(())
}

#[test]
fn three_frames_make_1706_bytes(rt: HostRuntime) -> Result<(), Fail> {
    let ended = pair(rt.alloc(), capture(rt.alloc(), &THREE)?)?;
    let out = ended.out.expect(&rt, "what was saved");
    assert!(rt; out.len() == 24 + 3 * 16 + 1634);
    Ok(())
}
