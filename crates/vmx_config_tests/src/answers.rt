//! What a text is answered, in words.

use std::alloc::{AllocError, Global};
use vmx_config::read;
use vmx_config_rows::{ConfigFault, Spot};

/// `ok`, or the fault: where it is, its key and what is wrong there.
pub fn answer(alloc: Global, text: &str) -> Result<String, AllocError> {
    match read(alloc, text.as_bytes()) {
        Ok(_) => format!(in alloc; "ok"),
        Err(fault) => told(alloc, &fault),
    }
}

fn told(alloc: Global, fault: &ConfigFault) -> Result<String, AllocError> {
    match fault {
        ConfigFault::Text => format!(in alloc; "text"),
        ConfigFault::Unknown { spot, key } => at_key(alloc, *spot, key.as_str(), "unknown"),
        ConfigFault::Missing { spot, key } => at_key(alloc, *spot, key.as_str(), "missing"),
        ConfigFault::Kind { spot, key } => at_key(alloc, *spot, key.as_str(), "kind"),
        ConfigFault::Form { spot, key } => at_key(alloc, *spot, key.as_str(), "form"),
        ConfigFault::Range { spot, key, found } => {
            let what = format!(in alloc; "{found} out of range")?;
            at_key(alloc, *spot, key.as_str(), what.as_str())
        }
        ConfigFault::Script { spot } => {
            let place = place(alloc, *spot)?;
            format!(in alloc; "{place}: out of turn")
        }
        ConfigFault::Twice { guest, key } => {
            let key = key.as_str();
            format!(in alloc; "guest {guest} {key}: twice")
        }
        ConfigFault::Total { found } => format!(in alloc; "{found} descriptors"),
        ConfigFault::Memory => format!(in alloc; "memory"),
    }
}

fn at_key(alloc: Global, spot: Spot, key: &str, what: &str) -> Result<String, AllocError> {
    let place = place(alloc, spot)?;
    format!(in alloc; "{place} {key}: {what}")
}

fn place(alloc: Global, spot: Spot) -> Result<String, AllocError> {
    match (spot.guest, spot.action) {
        (None, _) => format!(in alloc; "top"),
        (Some(guest), None) => format!(in alloc; "guest {guest}"),
        (Some(guest), Some(action)) => format!(in alloc; "guest {guest} script {action}"),
    }
}
