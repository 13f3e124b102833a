//! The laws of notes, each the contract of a function that does nothing. Own to this project.
//!
//! `Passes` says that one note went each way between two ends and that nothing else happened, `IsTold` that each end heard all that
//! the other did.
ghost use Rattle.std.specs.Prelude.{◌≡◌, ◌≤◌, ◌<◌, ◌+◌, ℕ, List, [], ◌∷◌, ◌++◌, length, None};
ghost use Rattle.vmx_ends.specs.declared.frames.Delivery.{Delivery};
ghost use Rattle.vmx_ends.specs.declared.meta.TxMark.{TxMark};
ghost use Rattle.vmx_ends.specs.declared.meta.RxMeta.{RxMeta};
ghost use Rattle.vmx_ends.specs.declared.made.Bodies.TheVariants.{Every};
ghost use Rattle.vmx_ends.specs.declared.packet.Packet.{Packet};
ghost use Rattle.vmx_ends.specs.Frames.{sent_of};
ghost use Rattle.vmx_ends.specs.Transmit.{TxDriverView, TxDeviceView};
ghost use Rattle.vmx_ends.specs.TransmitClauses as tx;
ghost use Rattle.vmx_ends.specs.Receive.{RxDriverView, RxDeviceView, posted1, posted2, consumed1, consumed2};
ghost use Rattle.vmx_ends.specs.ReceiveClauses as rx;
ghost use Rattle.vmx_ends.specs.Walk.{further_pieces};
ghost use Rattle.vmx_ends.specs.Exactness.{IsTaken, IsMissing};
ghost use Rattle.vmx_link.specs.Views.{LinkOutView, LinkInView};
ghost use Rattle.vmx_device_state.specs.declared.turn.CommandView.{CommandView};
ghost use Rattle.vmx_device_state.specs.declared.turn.Turn.{Turn as TurnValue};
ghost use Rattle.vmx_regs.specs.declared.known.Calls.{Calls};
ghost use Rattle.vmx_model.specs.Bags.{Pairwise};
ghost use Rattle.vmx_note_laws.specs.Each.{EachPasses};
ghost use Rattle.vmx_note_laws.specs.Queues.{AreOneTx, IsToldTx, NotesBothTx, PassesTx, TakesNextSent, IsBehindRx, IsToldRx, NotesBothRx, PassesRx, GoesOnRxDriver, GoesOnRxDevice, ReceivesNext};
ghost use Rattle.vmx_note_laws.specs.Links.{IsToldLink, PassesLink, PullsNext};
ghost use Rattle.vmx_note_laws.specs.Registers.{PassesRegs, AreTold, IsAsked, IsAnswered};

/// Once notes went both ways between the ends of each transmit queue, each end was told all that the other did.
pub fn transmit_ends_are_told()
    ensures both { (d d' : TxDriverView) (e e' : TxDeviceView) → NotesBothTx d e d' e' → PassesTx d e d' e' }
    ensures passes { (ds ds' : List TxDriverView) (es es' : List TxDeviceView) → Pairwise AreOneTx ds es → EachPasses PassesTx ds es ds' es' → Pairwise IsToldTx ds' es' }
{}

/// A device's end that was told all and finds no frame has taken all that were sent; one that takes a frame takes the next. A driver's
/// end that was told all and reaps until it finds no more has reaped all that are completed.
pub fn transmit_ends_do_what_is_next()
    ensures none { (d : TxDriverView) (e n : TxDeviceView) (word : ℕ) → IsToldTx d e → tx.FindsNone e word n → sent_of e.taken ≡ d.sent }
    ensures takes { (d d' : TxDriverView) (e mid n n' : TxDeviceView) (frame : List ℕ) (place : ℕ) (mark : TxMark) → tx.TakesFrame e frame place mark mid → tx.Completes mid n → PassesTx d n d' n' → TakesNextSent d e frame mark }
    ensures reaps { (d d' d'' : TxDriverView) (e e'' : TxDeviceView) → IsToldTx d e → d.heard ≤ d'.reaped → PassesTx d' e d'' e'' → d'.reaped ≡ e.completed }
{}

/// The same of receive queues, where the device's end has delivered nothing yet, or both ends went on since notes went both ways.
pub fn receive_ends_are_told()
    ensures both { (d d' : RxDriverView) (e e' : RxDeviceView) → NotesBothRx d e d' e' → PassesRx d e d' e' }
    ensures passes { (ds ds' : List RxDriverView) (es es' : List RxDeviceView) → Pairwise IsBehindRx ds es → EachPasses PassesRx ds es ds' es' → Pairwise IsToldRx ds' es' }
    ensures on { (ds ds' : List RxDriverView) (es es' : List RxDeviceView) → Pairwise IsToldRx ds es → Pairwise GoesOnRxDriver ds ds' → Pairwise GoesOnRxDevice es es' → Pairwise IsBehindRx ds' es' }
{}

/// A driver's end that was told all and finds no frame has received all that were delivered; one that receives a frame receives the
/// next. What a device's end that was told all delivers or refuses is what the core says of the positions that the driver posted,
/// where its note afterwards shows that it knows of no more.
pub fn receive_ends_do_what_is_next()
    ensures none { (d : RxDriverView) (e : RxDeviceView) → IsToldRx d e → length d.heard ≤ length d.received → d.received ≡ e.delivered }
    ensures receives { (d d' d'' : RxDriverView) (e e'' : RxDeviceView) (x : Delivery) → d'.received ≡ d.received ++ x ∷ [] → PassesRx d' e d'' e'' → ReceivesNext d e x }
    ensures delivers { (d : RxDriverView) (e n : RxDeviceView) (bodies : ℕ) → IsToldRx d e → e.made.bodies ≡ Every bodies → 0 < e.made.size1 → n.seen1 ≤ posted1 d.made d.received → n.seen2 ≤ posted2 d.made d.received
        → (frame : List ℕ) (meta : RxMeta) (g : rx.DeliversFrame e frame meta n) → IsTaken e.made (consumed1 e) (consumed2 e) (posted1 e.made d.received) (posted2 e.made d.received) (further_pieces (length frame)) g.passed g.end }
    ensures refuses { (d : RxDriverView) (e n : RxDeviceView) (bodies : ℕ) → IsToldRx d e → e.made.bodies ≡ Every bodies → 0 < e.made.size1 → n.seen1 ≤ posted1 d.made d.received → n.seen2 ≤ posted2 d.made d.received
        → (bytes ring position word look : ℕ) → rx.Refuses e bytes ring position word look n → IsMissing e.made (consumed1 e) (consumed2 e) (posted1 e.made d.received) (posted2 e.made d.received) (further_pieces bytes) ring position }
{}

/// The same of a link.
pub fn link_ends_are_told()
    ensures passes { (o o' : LinkOutView) (i i' : LinkInView) → o.key ≡ i.key → PassesLink o i o' i' → IsToldLink o' i' }
{}

/// A receiver that was told all and finds no packet has pulled all that were pushed; one that pulls a packet pulls the next. A sender
/// that was told all finds its link full only where as many packets as it has entries are not pulled.
pub fn link_ends_do_what_is_next()
    ensures none { (o : LinkOutView) (i : LinkInView) → IsToldLink o i → length i.filled ≤ length i.pulled → i.pulled ≡ o.pushed }
    ensures pulls { (o o' : LinkOutView) (i n n' : LinkInView) (x : Packet) → n.pulled ≡ i.pulled ++ x ∷ [] → PassesLink o n o' n' → PullsNext o i x }
    ensures full { (o : LinkOutView) (i : LinkInView) → IsToldLink o i → length o.freed + o.capacity ≤ length o.pushed → length i.pulled + o.capacity ≤ length o.pushed }
{}

/// The same of the registers. With no command outstanding both sides then know the same turns.
pub fn registers_are_told()
    ensures passes { (v v' w w' : Calls) → PassesRegs v w v' w' → AreTold v' w' }
    ensures same { (v v' w w' : Calls) → PassesRegs v w v' w' → v.asked ≡ None → (v.turns ≡ w.served) × (w.serving ≡ None) }
{}

/// A device that was told all answers no command where none is outstanding, and finds the one that is, and answers that one; a driver
/// that was told all finds the answer that was given, and takes that one.
pub fn registers_do_what_is_next()
    ensures none { (v v' w n n' : Calls) (t : TurnValue) → v.asked ≡ None → v.turns ≡ w.served → n.served ≡ w.served ++ t ∷ [] → PassesRegs v n v' n' → ⊥ }
    ensures finds { (v w : Calls) (c : CommandView) → AreTold v w → IsAsked v w c → length w.heard_commands ≤ length w.served → ⊥ }
    ensures answers { (v v' w n n' : Calls) (c : CommandView) (t : TurnValue) → IsAsked v w c → n.served ≡ w.served ++ t ∷ [] → n.serving ≡ None → PassesRegs v n v' n' → t.command ≡ c }
    ensures given { (v w : Calls) (t : TurnValue) → AreTold v w → IsAnswered v w t → length v.heard_served ≤ length v.turns → ⊥ }
    ensures takes { (v n n' w w' : Calls) (t x : TurnValue) → IsAnswered v w t → n.turns ≡ v.turns ++ x ∷ [] → n.asked ≡ None → PassesRegs n w n' w' → x ≡ t }
{}
