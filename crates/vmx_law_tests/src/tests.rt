//! Each law is called where completions have a ring of their own or generation bits, and where one word counts them.
ghost use Rattle.std.specs.Prelude.{true, false};
ghost use Rattle.vmx_tx_counted.specs.Counting.{Counted};
ghost use Rattle.vmx_txq.specs.Completions.{Rows};
ghost use Rattle.vmx_tx_laws.specs.Laws as sent;
ghost use Rattle.vmx_rx_laws.specs.Laws as received;

use std::test::Fail;
use vmx_rx_ring::{ByCount, ByGeneration};
use vmx_tx_counted::InCount;
use vmx_txq::InRows;

fn of_the_atomic_transmit_queue()
    ensures owner { sent.OneOwner Rows }
    ensures frames { sent.TakenBegins Rows × sent.AtMostOnce Rows }
    ensures descriptors { sent.CompletedOnce Rows × sent.NeverOverwritten Rows }
    ensures completions { sent.NeverOverrun Rows }
{
    vmx_tx_laws::a_buffer_has_one_owner::<InRows>();
    vmx_tx_laws::taken_begins_sent::<InRows>();
    vmx_tx_laws::a_frame_is_completed_and_reaped_at_most_once::<InRows>();
    vmx_tx_laws::a_descriptor_is_completed_at_most_once_a_post::<InRows>();
    vmx_tx_laws::descriptors_are_never_overwritten::<InRows>();
    vmx_tx_laws::completions_are_never_overrun::<InRows>();
}

fn of_the_counting_transmit_queue()
    ensures owner { sent.OneOwner Counted }
    ensures frames { sent.TakenBegins Counted × sent.AtMostOnce Counted }
    ensures descriptors { sent.CompletedOnce Counted × sent.NeverOverwritten Counted }
    ensures completions { sent.NeverOverrun Counted }
{
    vmx_tx_laws::a_buffer_has_one_owner::<InCount>();
    vmx_tx_laws::taken_begins_sent::<InCount>();
    vmx_tx_laws::a_frame_is_completed_and_reaped_at_most_once::<InCount>();
    vmx_tx_laws::a_descriptor_is_completed_at_most_once_a_post::<InCount>();
    vmx_tx_laws::descriptors_are_never_overwritten::<InCount>();
    vmx_tx_laws::completions_are_never_overrun::<InCount>();
}

fn of_the_atomic_receive_queue()
    ensures owner { received.OneOwner false }
    ensures frames { received.VisibleAllOrNone false × received.ReceivedBegins false }
    ensures descriptors { received.CompletedOnce false }
    ensures completions { received.NeverOverrun false }
{
    vmx_rx_laws::a_buffer_has_one_owner::<ByGeneration>();
    vmx_rx_laws::a_frames_completions_are_visible_all_or_none::<ByGeneration>();
    vmx_rx_laws::received_begins_delivered::<ByGeneration>();
    vmx_rx_laws::a_descriptor_is_completed_at_most_once_a_post::<ByGeneration>();
    vmx_rx_laws::completions_are_never_overrun::<ByGeneration>();
}

fn of_the_counting_receive_queue()
    ensures owner { received.OneOwner true }
    ensures frames { received.VisibleAllOrNone true × received.ReceivedBegins true }
    ensures descriptors { received.CompletedOnce true }
    ensures completions { received.NeverOverrun true }
{
    vmx_rx_laws::a_buffer_has_one_owner::<ByCount>();
    vmx_rx_laws::a_frames_completions_are_visible_all_or_none::<ByCount>();
    vmx_rx_laws::received_begins_delivered::<ByCount>();
    vmx_rx_laws::a_descriptor_is_completed_at_most_once_a_post::<ByCount>();
    vmx_rx_laws::completions_are_never_overrun::<ByCount>();
}

#[test]
fn every_queue_keeps_the_laws(rt: HostRuntime) -> Result<(), Fail> {
    let _rt = rt;
    of_the_atomic_transmit_queue();
    of_the_counting_transmit_queue();
    of_the_atomic_receive_queue();
    of_the_counting_receive_queue();
    Ok(())
}
