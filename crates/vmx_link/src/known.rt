//! What a seat of a link's table knows, and the rule of the table.
//! The rule stands in `specs/Rule.antt`: the words and slots are a ring that holds the packets pushed and not yet pulled,
//! and what each seat knows is true. It holds between any two steps. Own to this project.
use atomic_table::TableRule;
use std::collections::LinkedList;
use vmx_ends::Packet;

/// What a seat knows. No value of it is made: it stands in proofs alone.
pub struct Known {
    /// This is the seat of the end that pushes, of the end that pulls, or of both where they are not apart.
    pub sends: bool,
    pub receives: bool,
    /// A slot is out with the seat.
    pub busy: bool,
    pub pushed: LinkedList<Packet>,
    pub pulled: LinkedList<Packet>,
    /// The looks that found no room, each with the number of packets pushed before it and the word found.
    pub full: LinkedList<(u64, u64)>,
    /// The looks that found no packet, each with the number of packets pulled before it and the word found.
    pub empty: LinkedList<(u64, u64)>,
    /// The longest lists of which notes told. In a note, the lists of which it tells.
    pub heard_pushed: LinkedList<Packet>,
    pub heard_pulled: LinkedList<Packet>,
    /// The lists of which the last note told.
    pub last_pushed: LinkedList<Packet>,
    pub last_pulled: LinkedList<Packet>,
    /// This is the seat of a note of the end that pushes, or of the end that pulls, which was not heard yet.
    pub tells_pushed: bool,
    pub tells_pulled: bool,
    /// How many notes the two ends gave and heard.
    pub sender_gave: u64,
    pub sender_heard: u64,
    pub receiver_gave: u64,
    pub receiver_heard: u64,
}

/// The rule of a link's table.
pub struct Entries;

impl TableRule<Option<Packet>, Known, ()> for Entries {
    ghost use Rattle.vmx_link.specs.Rule.{Link};
    ghost use Rattle.vmx_link.specs.Seats.{newcomer};

    ghost holds = { λ _. Link };

    ghost first = { λ _. newcomer };
}
