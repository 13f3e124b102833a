//! What the calls of a serial replay keep of every device, besides what the serial run tells: laws, each the contract of a function that
//! does nothing. Own to this project.
#![tactic(auto)]

mod laws;

pub use laws::devices_stay_sound;
