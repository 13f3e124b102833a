//! The configuration of a replay: what a TOML text asks for, or the first fault in a fixed order (own to this project).
//!
//! `settings` answers what `settings_at` gives for the bytes, and `read` the plan that such settings ask for, or want of memory.
#![tactic(auto)]

mod checks;
mod config;
mod copies;
mod guest;
mod parts;
mod plan;
mod reading;
mod script;

pub use config::Config;
pub use parts::{
    ActionSettings, DeedSettings, FilterSettings, GuestSettings, PortSettings, RingSettings,
    RssSettings, Settings,
};
pub use reading::{read, settings};
