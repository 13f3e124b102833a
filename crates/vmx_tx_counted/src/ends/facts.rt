//! What is left when the two ends have met.
ghost use Rattle.std.specs.Prelude.{◌≡◌};

use super::RingTxFacts;
use vmx_ends::QueueName;

impl vmx_ends::TxFacts for RingTxFacts {
    ghost use Rattle.vmx_tx_counted.specs.Ends.{facts_view};

    ghost view = { facts_view };

    fn name(&self) -> QueueName {
        let made = self.meeting.made;
        made.name
    }

    fn sent(&self) -> u64 {
        self.meeting.sent
    }

    fn taken(&self) -> u64 {
        self.meeting.taken
    }

    fn completed(&self) -> u64 {
        self.meeting.completed
    }

    fn reaped(&self) -> u64 {
        self.meeting.reaped
    }
}
