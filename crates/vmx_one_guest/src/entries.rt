//! Entries of the journal of a device at port 0 of two, as tests want them.

ghost use Rattle.std.specs.Prelude.{◌≡◌};
ghost use Rattle.vmx_layout.specs.Command.{number_of};
ghost use Rattle.vmx_model.specs.declared.journal.Entry.TheVariants as entry_value;
ghost use Rattle.vmx_model.specs.declared.journal.Way.TheVariants as way_value;
ghost use Rattle.vmx_model.specs.declared.journal.Fate.TheVariants as fate_value;
ghost use Rattle.vmx_filters.specs.declared.answer.Rule.TheVariants as rule_value;

use vmx_ends::Tag;
use vmx_filters::Rule;
use vmx_layout::Command;
use vmx_model::{Entry, Fate, Way};

/// A command that was answered 0, with the index of the setup that is in force after it.
pub fn answered(command: Command, setup: Option<u32>) -> Entry
    ensures value { result ≡ entry_value.Setting (number_of command) 0 setup }
{
    Entry::Setting {
        number: command.number(),
        answer: 0,
        setup,
    }
}

/// The tag of a frame of transmit queue 0.
fn tag(activation: u32, place: u64) -> Tag
    ensures value { result ≡ record { guest = 0; activation = activation; queue = 0; place = place } }
{
    Tag {
        guest: 0,
        activation,
        queue: 0,
        place,
    }
}

/// A frame of transmit queue 0 that went to the other guest, as the packet `at` of its link.
pub fn sent(activation: u32, place: u64, at: u64) -> Entry
    ensures value { result ≡ entry_value.Out (record { guest = 0; activation = activation; queue = 0; place = place }) 1 (way_value.Link at) }
{
    Entry::Out {
        tag: tag(activation, place),
        target: 1,
        way: Way::Link { place: at },
    }
}

/// A frame of transmit queue 0 that has no target.
pub fn lost(activation: u32, place: u64) -> Entry
    ensures value { result ≡ entry_value.Lost (record { guest = 0; activation = activation; queue = 0; place = place }) }
{
    Entry::Lost {
        tag: tag(activation, place),
    }
}

/// The packet of this place on the link from the other guest.
pub fn came(place: u64, fate: Fate) -> Entry
    ensures value { result ≡ entry_value.In 1 place fate }
{
    Entry::In {
        from: 1,
        place,
        fate,
    }
}

/// The fate of a frame that came up.
pub fn up(activation: u32, queue: u32, place: u64) -> Fate
    ensures value { result ≡ fate_value.Up activation queue place }
{
    Fate::Up {
        activation,
        queue,
        place,
    }
}

/// The fate of a frame to one guest that the filter refuses.
pub fn refused() -> Fate
    ensures value { result ≡ fate_value.Filtered rule_value.Unicast }
{
    Fate::Filtered {
        rule: Rule::Unicast,
    }
}
