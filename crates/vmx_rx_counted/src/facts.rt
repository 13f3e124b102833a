//! What is left of the two ends.
ghost use Rattle.std.specs.Prelude.{◌≡◌};

use vmx_ends::{QueueName, RxFacts};
use vmx_rx_ends::RxMeeting;

/// What is known of a queue whose ends have met.
#[derive(Drop)]
pub struct RingRxFacts {
    pub(crate) meeting: RxMeeting,
}

impl RxFacts for RingRxFacts {
    ghost use Rattle.vmx_rx_counted.specs.FactsView.{facts_view};

    ghost view = { facts_view };

    fn name(&self) -> QueueName {
        let shape = self.meeting.shape;
        shape.name
    }

    fn delivered(&self) -> u64 {
        self.meeting.delivered
    }

    fn received(&self) -> u64 {
        self.meeting.received
    }

    fn refused(&self) -> u64 {
        self.meeting.refused
    }
}
