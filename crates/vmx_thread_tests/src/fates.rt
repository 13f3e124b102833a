//! What a journal says of the frames that went out and of the packets that came.

use vmx_model::{Entry, Fate, Journal, Way};

fn is_on_link(entry: &Entry) -> bool {
    match entry {
        Entry::Out { way, .. } => matches!(way, Way::Link { .. }),
        _ => false,
    }
}

fn is_packet(entry: &Entry) -> bool {
    matches!(entry, Entry::In { .. })
}

fn is_up(entry: &Entry) -> bool {
    match entry {
        Entry::In { fate, .. } => matches!(fate, Fate::Up { .. }),
        _ => false,
    }
}

/// How many frames got onto a link.
pub(crate) fn on_the_link(journal: &Journal) -> usize {
    let entries = journal.entries.as_slice();
    entries.iter().filter(|entry| is_on_link(*entry)).count()
}

/// How many packets came.
pub(crate) fn came(journal: &Journal) -> usize {
    let entries = journal.entries.as_slice();
    entries.iter().filter(|entry| is_packet(*entry)).count()
}

/// How many of them came up.
pub(crate) fn came_up(journal: &Journal) -> usize {
    let entries = journal.entries.as_slice();
    entries.iter().filter(|entry| is_up(*entry)).count()
}
