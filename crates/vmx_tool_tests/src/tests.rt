//! The tests of the top call, by what they are about. Texts and lengths are written by hand.

use crate::captures::Filled;

mod faults;
mod fronts;
mod replays;

/// Three frames, of which the first and the third are equal.
const THREE: [Filled; 3] = [(100, 1, 60), (101, 2, 1514), (102, 1, 60)];
