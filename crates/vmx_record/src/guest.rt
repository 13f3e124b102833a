//! What the actors of one guest left.
ghost use Rattle.std.specs.Prelude.{◌≡◌, ◌<◌, ◌≤◌, [], length, slice_index_or};
ghost use Rattle.vmx_layout.specs.declared.register.TheConstants.{MAX_QUEUES};

use std::marker::Model;
use vmx_ends::Fabric;
use vmx_io::List;
use vmx_layout::MAX_QUEUES;
use vmx_model::{Entry, Journal, Received};
use vmx_regs::RegsFacts;
use vmx_shared_area::{Setup, Stats};

/// The queues of a side that have statistics, whether the guest has so many or not.
const QUEUES: usize = MAX_QUEUES as usize;

/// What the device and the driver of a guest left. Contracts see it as the model's `GuestView`.
#[derive(Drop)]
pub struct GuestRecordOf<F: Fabric> {
    /// All that the device did, in order.
    pub journal: Journal,
    /// The frames that the driver handed up, in order.
    pub received: List<Received>,
    /// The facts of the transmit queues, by activation and then queue.
    pub tx: List<F::TxFacts>,
    /// The facts of the receive queues, likewise.
    pub rx: List<F::RxFacts>,
    /// The facts of the registers: each command with its answer.
    pub regs: RegsFacts,
    /// The statistics of the eight transmit queues, over all activations.
    pub tx_stats: [Stats; QUEUES],
    /// The statistics of the eight receive queues, likewise.
    pub rx_stats: [Stats; QUEUES],
}

impl<F: Fabric> Model for GuestRecordOf<F> {
    ghost use Rattle.std.specs.Prelude.{◌≡◌, length, map};
    ghost use Rattle.vmx_layout.specs.declared.register.TheConstants.{MAX_QUEUES};
    ghost use Rattle.vmx_regs.specs.Ends.{facts_turns};
    ghost use Rattle.vmx_model.specs.Views.{GuestView};

    ghost Value = { GuestView };

    ghost view = { λ g. record { entries = g.journal.entries.0; setups = g.journal.setups.0; received = g.received; tx = map F.TxFacts.view g.tx; rx = map F.RxFacts.view g.rx; told = facts_turns g.regs; tx_stats = map (λ s. s.counts) g.tx_stats; rx_stats = map (λ s. s.counts) g.rx_stats } };

    ghost invariant = { λ g. (length g.tx_stats ≡ MAX_QUEUES) × (length g.rx_stats ≡ MAX_QUEUES) };
}

impl<F: Fabric> GuestRecordOf<F> {
    ghost use Rattle.std.specs.Prelude.{map};
    ghost use Rattle.vmx_regs.specs.Ends.{facts_turns};

    /// The entries of the device's journal, in order.
    pub fn entries(&self) -> &[Entry]
        ensures entries { result.now ≡ self.now.entries }
    {
        self.journal.entries.as_slice()
    }

    /// The setups that the commands of the journal put in force, in order.
    pub fn setups(&self) -> &[Setup]
        ensures setups { result.now ≡ self.now.setups }
    {
        self.journal.setups.as_slice()
    }

    /// The frames that the driver handed up, in order.
    pub fn received(&self) -> &[Received]
        ensures received { result.now ≡ self.now.received }
    {
        self.received.as_slice()
    }

    /// How many transmit queues there were, over all activations.
    pub fn tx_queues(&self) -> usize
        ensures count { result ≡ length self.now.tx }
    {
        self.tx.len()
    }

    /// The facts of a transmit queue, by activation and then queue.
    pub fn tx(&self, index: usize) -> &F::TxFacts
        requires within { index < length self.now.tx }
        ensures facts { F.TxFacts.view result.now ≡ slice_index_or self.now.tx index (F.TxFacts.view result.now) }
    {
        self.tx.at(index)
    }

    /// How many receive queues there were, over all activations.
    pub fn rx_queues(&self) -> usize
        ensures count { result ≡ length self.now.rx }
    {
        self.rx.len()
    }

    /// The facts of a receive queue, by activation and then queue.
    pub fn rx(&self, index: usize) -> &F::RxFacts
        requires within { index < length self.now.rx }
        ensures facts { F.RxFacts.view result.now ≡ slice_index_or self.now.rx index (F.RxFacts.view result.now) }
    {
        self.rx.at(index)
    }

    /// The facts of the registers.
    pub fn regs(&self) -> &RegsFacts
        ensures turns { facts_turns result.now ≡ self.now.told }
    {
        &self.regs
    }

    /// The statistics of a transmit queue, below 8.
    pub fn tx_stats(&self, queue: u32) -> Stats
        requires queue { queue < MAX_QUEUES }
        ensures stats { result.counts ≡ slice_index_or self.now.tx_stats queue [] }
    {
        self.tx_stats[queue as usize]
    }

    /// The statistics of a receive queue, below 8.
    pub fn rx_stats(&self, queue: u32) -> Stats
        requires queue { queue < MAX_QUEUES }
        ensures stats { result.counts ≡ slice_index_or self.now.rx_stats queue [] }
    {
        self.rx_stats[queue as usize]
    }
}
