//! The targets of the last frame, by the journal of the device that took it.
ghost use Rattle.std.specs.Prelude.{◌≡◌, length, take};
ghost use Rattle.vmx_switch.specs.declared.answer.TheConstants.{MAX_PORTS};
ghost use Rattle.vmx_replay_chains.specs.Targets.{target_in, targets_behind};

use vmx_model::Entry;
use vmx_switch::{MAX_PORTS, Targets};

/// No targets.
pub(crate) fn no_targets() -> Targets
    ensures none { result.count ≡ 0 }
    ensures room { length result.ports ≡ MAX_PORTS }
{
    Targets {
        count: 0,
        ports: [0; MAX_PORTS],
    }
}

/// The first 16 ports to which the entries behind the first `from` say that frames were given, in order.
pub(crate) fn targets_from(entries: &[Entry], from: usize) -> Targets
    ensures targets { take result.count result.ports ≡ take MAX_PORTS (targets_behind from entries.now) }
    ensures room { length result.ports ≡ MAX_PORTS }
{
    let mut ports = [0; MAX_PORTS];
    let mut count: u32 = 0;
    for index in from..entries.len() {
        if count as usize == MAX_PORTS {
            break;
        }
        if let Some(port) = target_of(&entries[index]) {
            ports[count as usize] = port;
            count += 1;
        }
    }
    Targets { count, ports }
}

/// The port to which an entry says that a frame was given.
fn target_of(entry: &Entry) -> Option<u32>
    ensures target { result ≡ target_in entry.now }
{
    match entry {
        Entry::Out {
            tag: _,
            target,
            way: _,
        } => Some(*target),
        Entry::Setting {
            number: _,
            answer: _,
            setup: _,
        }
        | Entry::Lost { tag: _ }
        | Entry::In {
            from: _,
            place: _,
            fate: _,
        } => None,
    }
}
