//! Where in a configuration a fault is.

/// A table of a configuration: the top table, a guest's (its `rss` table too), or that of an action of a guest's script.
#[derive(Clone, Copy, Debug, Drop, PartialEq, Eq)]
pub struct Spot {
    /// The guest, counted from 0 in the text's order. None: the top table.
    pub guest: Option<u32>,
    /// The action of its script, counted from 0. None: the guest's own table.
    pub action: Option<u32>,
}
