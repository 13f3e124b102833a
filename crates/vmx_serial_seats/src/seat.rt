//! A guest of the serial run: what its driver is asked, what its device does, and what it handed up.
ghost use Rattle.std.specs.Prelude.{◌≡◌, ◌≤◌, ◌<◌, ◌+◌, ◌^◌, length, map, true, All, nat_eq, if◌then◌else◌, OnOk, IfOk};
ghost use Rattle.vmx_layout.specs.Command.{number_of};
ghost use Rattle.vmx_model.specs.Ranges.{fits_deed};
ghost use Rattle.vmx_model.specs.Plan.{changed as changed_by};
ghost use Rattle.vmx_model.specs.Serial.{fresh as fresh_of, noted, poll as poll_of, polls as polls_of, emptied, drained, quiet_setting as quiet_setting_of, active_setting as active_setting_of, activated, activated_if_quiet, quieted, set_command as set_command_of, done as done_of, fate_at as fate_at_of, marked, polled_if, arrived, acted, transmitted, closed};
ghost use Rattle.vmx_serial_queues.specs.Queues.{rx_core, marked as with_mark};
ghost use Rattle.vmx_serial_queues.specs.Forms.{arrival_of};
ghost use Rattle.vmx_model.specs.Meta.{delivered_as as delivered_by};
ghost use Rattle.vmx_device_state.specs.SetupView.{setup_view};
ghost use Rattle.vmx_serial_seats.specs.Seats.{seat_of, with_setup};
ghost use Rattle.vmx_serial_queues.specs.Small.{IsShort};
ghost use Rattle.vmx_serial_seats.specs.Small.{IsSmall, MOST};

use std::alloc::{AllocError, Global};
use vmx_ends::{MAX_FRAME, TxMark};
use vmx_filters::Verdict;
use vmx_frame::{ADDRESS_LEN, HEADER_LEN};
use vmx_io::List;
use vmx_layout::Command;
use vmx_model::{Action, Deed, Entry, Fate, GuestPlan, Received, changed};
use vmx_serial_queues::{
    Arrival, RxQueue, TxQueue, admitted, deliver, delivered_as, fate_on, hand_up, make_rx, make_tx,
    pending, receive_each, rx_queue, transmit,
};
use vmx_shared_area::Setup;

/// A guest of the run.
#[derive(Drop)]
pub struct Seat {
    /// Whether its device is active.
    pub active: bool,
    /// The setup as the deeds so far left it.
    pub setup: Setup,
    /// How many activations began.
    pub begun: u32,
    /// How many copies reached it.
    pub seen: u64,
    /// The journal: what its device did, in order.
    pub entries: List<Entry>,
    /// The setups that its commands put in force.
    pub setups: List<Setup>,
    /// What its driver handed up, in order.
    pub received: List<Received>,
    /// The transmit queues of all activations.
    pub tx: List<TxQueue>,
    /// The receive queues of all activations.
    pub rx: List<RxQueue>,
}

impl Seat {
    /// A guest before its first activation.
    pub fn fresh(alloc: Global, plan: &GuestPlan) -> Seat
        ensures fresh { seat_of result ≡ fresh_of plan.now }
    {
        Seat {
            active: false,
            setup: plan.setup,
            begun: 0,
            seen: 0,
            entries: List::new(alloc),
            setups: List::new(alloc),
            received: List::new(alloc),
            tx: List::new(alloc),
            rx: List::new(alloc),
        }
    }

    /// An entry goes last in the journal.
    pub fn note(&mut self, entry: Entry) -> Result<(), AllocError>
        ensures noted { OnOk result (seat_of self.new ≡ noted entry (seat_of self.old)) }
    {
        self.entries.push(entry)?;
        Ok(())
    }

    /// A poll: each queue of the activation, in order, hands up its next frame.
    fn poll(&mut self, alloc: Global, activation: u32) -> Result<(), AllocError>
        ensures poll { OnOk result (seat_of self.new ≡ poll_of activation (seat_of self.old)) }
    {
        hand_up(alloc, self.rx.as_slice(), activation, &mut self.received)?;
        receive_each(&mut self.rx, activation);
        Ok(())
    }

    /// So many polls.
    fn polls(&mut self, alloc: Global, activation: u32, times: u128) -> Result<(), AllocError>
        ensures polls { OnOk result (seat_of self.new ≡ polls_of activation times (seat_of self.old)) }
    {
        let mut left = times;
        while left > 0 {
            self.poll(alloc, activation)?;
            left -= 1;
        }
        Ok(())
    }

    /// Polls until nothing is pending.
    #[tactic(auto, unfolding(vmx_model::specs::Serial::emptied))]
    fn empty(&mut self, alloc: Global) -> Result<(), AllocError>
        ensures emptied { OnOk result (seat_of self.new ≡ emptied (seat_of self.old)) }
    {
        let times = pending(self.rx.as_slice());
        let activation = self.begun.saturating_sub(1);
        self.polls(alloc, activation, times)
    }

    /// The same where the device is active.
    #[tactic(auto, unfolding(vmx_model::specs::Serial::drained))]
    fn drain(&mut self, alloc: Global) -> Result<(), AllocError>
        ensures drained { OnOk result (seat_of self.new ≡ drained (seat_of self.old)) }
    {
        if self.active {
            self.empty(alloc)?;
        }
        Ok(())
    }

    /// A set command that is answered 0 while the device is idle, or goes idle.
    fn quiet_setting(&mut self, command: Command) -> Result<(), AllocError>
        ensures setting { OnOk result (seat_of self.new ≡ quiet_setting_of (number_of command) (seat_of self.old)) }
    {
        self.entries.push(Entry::Setting {
            number: command.number(),
            answer: 0,
            setup: None,
        })?;
        Ok(())
    }

    /// The same while the device is active, or becomes it.
    fn active_setting(&mut self, command: Command) -> Result<(), AllocError>
        requires setups { length self.old.setups < 2 ^ 32 }
        ensures setting { OnOk result (seat_of self.new ≡ active_setting_of (number_of command) (seat_of self.old)) }
    {
        let index = self.setups.len() as u32;
        self.entries.push(Entry::Setting {
            number: command.number(),
            answer: 0,
            setup: Some(index),
        })?;
        self.setups.push(self.setup)?;
        Ok(())
    }

    /// The device is activated with new queues.
    pub fn activate(&mut self, alloc: Global, port: u32, plan: &GuestPlan) -> Result<(), AllocError>
        requires small { IsSmall MOST (seat_of self.old) }
        ensures activated { OnOk result (seat_of self.new ≡ activated port plan.now (seat_of self.old)) }
    {
        make_tx(alloc, &mut self.tx, port, plan, self.begun)?;
        make_rx(alloc, &mut self.rx, port, plan, self.begun)?;
        self.active = true;
        self.begun += 1;
        self.active_setting(Command::ActivateDev)
    }

    /// The device goes idle, and then all that was delivered is received.
    fn quiet(&mut self, alloc: Global, command: Command) -> Result<(), AllocError>
        ensures quieted { OnOk result (seat_of self.new ≡ quieted (number_of command) (seat_of self.old)) }
    {
        self.quiet_setting(command)?;
        self.active = false;
        self.empty(alloc)
    }

    /// An update, as the device's state is.
    fn set_command(&mut self, command: Command) -> Result<(), AllocError>
        requires setups { length self.old.setups < 2 ^ 32 }
        ensures command { OnOk result (seat_of self.new ≡ set_command_of (seat_of self.old) (number_of command)) }
    {
        if self.active {
            self.active_setting(command)
        } else {
            self.quiet_setting(command)
        }
    }

    /// The setup changes, and the driver tells it.
    fn update(&mut self, deed: &Deed, command: Command) -> Result<(), AllocError>
        requires fits { fits_deed self.old.setup.rx_queues true deed.now ≡ true }
        requires setups { length self.old.setups < 2 ^ 32 }
        ensures updated { OnOk result (seat_of self.new ≡ set_command_of (with_setup (changed_by (setup_view self.old.setup) deed.now) (seat_of self.old)) (number_of command)) }
    {
        self.setup = changed(&self.setup, deed);
        self.set_command(command)
    }

    /// The device is activated where it is quiet.
    fn activate_if_quiet(
        &mut self,
        alloc: Global,
        port: u32,
        plan: &GuestPlan,
    ) -> Result<(), AllocError>
        requires small { IsSmall MOST (seat_of self.old) }
        ensures activated { OnOk result (seat_of self.new ≡ activated_if_quiet port plan.now (seat_of self.old)) }
    {
        if !self.active {
            self.activate(alloc, port, plan)?;
        }
        Ok(())
    }

    /// What a deed does.
    pub fn perform(
        &mut self,
        alloc: Global,
        port: u32,
        plan: &GuestPlan,
        deed: &Deed,
    ) -> Result<(), AllocError>
        requires fits { fits_deed self.old.setup.rx_queues true deed.now ≡ true }
        requires small { IsSmall MOST (seat_of self.old) }
        ensures done { OnOk result (seat_of self.new ≡ done_of port plan.now deed.now (seat_of self.old)) }
    {
        match deed {
            Deed::Quiesce => self.quiet(alloc, Command::QuiesceDev),
            Deed::Activate => self.activate_if_quiet(alloc, port, plan),
            Deed::Reset => {
                self.quiet(alloc, Command::ResetDev)?;
                self.activate(alloc, port, plan)
            }
            Deed::Mode { .. } => self.update(deed, Command::UpdateRxMode),
            Deed::Multicast { .. } => self.update(deed, Command::UpdateMacFilters),
            Deed::Vlans { .. } => self.update(deed, Command::UpdateVlanFilters),
            Deed::Rss { .. } => self.update(deed, Command::UpdateRssidt),
        }
    }

    /// What becomes of a frame that reaches the guest now.
    fn fate_at(
        &self,
        alloc: Global,
        mac: &[u8; ADDRESS_LEN],
        frame: &[u8],
        arrival: &Arrival,
    ) -> Result<Fate, AllocError>
        requires header { HEADER_LEN ≤ length frame.now }
        requires bytes { length arrival.now.frame ≤ MAX_FRAME }
        requires form { arrival_of arrival.now ≡ delivered_by (setup_view self.now.setup) frame.now }
        requires small { IsSmall MOST (seat_of self.now) }
        ensures fate { IfOk result (λ f. f ≡ fate_at_of (seat_of self.now) mac.now frame.now) }
    {
        if !self.active {
            return Ok(Fate::Inactive);
        }
        match admitted(&self.setup, mac, frame) {
            Verdict::No { rule } => Ok(Fate::Filtered { rule }),
            Verdict::Yes => fate_on(
                alloc,
                self.rx.as_slice(),
                self.begun.saturating_sub(1),
                rx_queue(&self.setup, frame),
                arrival,
            ),
        }
    }

    /// The queue of a fate tries the delivery.
    fn mark(&mut self, alloc: Global, fate: Fate, arrival: &Arrival) -> Result<(), AllocError>
        requires bytes { length arrival.now.frame ≤ MAX_FRAME }
        requires short { All IsShort (map rx_core self.old.rx) }
        ensures marked { OnOk result (seat_of self.new ≡ record (seat_of self.old) { rx = marked (arrival_of arrival.now) fate (map rx_core self.old.rx) }) }
    {
        match fate {
            Fate::Up {
                activation,
                queue,
                ..
            }
            | Fate::NoBuffer {
                activation,
                queue,
                ..
            } => deliver(alloc, &mut self.rx, activation, queue, arrival),
            _ => Ok(()),
        }
    }

    /// The driver polls where it is due.
    fn poll_if(&mut self, alloc: Global, due: bool) -> Result<(), AllocError>
        ensures polled { OnOk result (seat_of self.new ≡ polled_if due (seat_of self.old)) }
    {
        if due {
            self.drain(alloc)?;
        }
        Ok(())
    }

    /// A copy reaches the guest: it is the packet of this place of the link from the port `from`. After every so many copies the
    /// driver polls.
    pub fn arrive(
        &mut self,
        alloc: Global,
        poll_every: u32,
        mac: &[u8; ADDRESS_LEN],
        from: u32,
        place: u64,
        frame: &[u8],
    ) -> Result<(), AllocError>
        requires polls { 1 ≤ poll_every }
        requires frame { (HEADER_LEN ≤ length frame.now) × (length frame.now ≤ MAX_FRAME) }
        requires small { IsSmall MOST (seat_of self.old) }
        ensures arrived { OnOk result (seat_of self.new ≡ arrived poll_every mac.now from place frame.now (seat_of self.old)) }
    {
        let arrival = delivered_as(alloc, &self.setup, frame)?;
        let fate = self.fate_at(alloc, mac, frame, &arrival)?;
        self.mark(alloc, fate, &arrival)?;
        self.note(Entry::In { from, place, fate })?;
        self.seen += 1;
        let due = self.seen % u64::from(poll_every) == 0;
        self.poll_if(alloc, due)
    }

    /// The actions of a number, in order.
    pub fn act(
        &mut self,
        alloc: Global,
        port: u32,
        plan: &GuestPlan,
        number: u32,
    ) -> Result<(), AllocError>
        requires queues { self.old.setup.rx_queues ≡ plan.now.setup.rx_queues }
        requires small { IsSmall (2 ^ 31) (seat_of self.old) }
        ensures acted { OnOk result (seat_of self.new ≡ acted port plan.now number (seat_of self.old)) }
    {
        for action in plan.script.as_slice() {
            self.act_if(alloc, port, plan, number, action)?;
        }
        Ok(())
    }

    /// An action, where it is one of this number.
    fn act_if(
        &mut self,
        alloc: Global,
        port: u32,
        plan: &GuestPlan,
        number: u32,
        action: &Action,
    ) -> Result<(), AllocError>
        requires fits { fits_deed self.old.setup.rx_queues true action.now.deed ≡ true }
        requires small { IsSmall MOST (seat_of self.old) }
        ensures done { OnOk result (seat_of self.new ≡ (if nat_eq action.now.at number then done_of port plan.now action.now.deed (seat_of self.old) else seat_of self.old)) }
    {
        if action.at == number {
            self.perform(alloc, port, plan, &action.deed)?;
        }
        Ok(())
    }

    /// A frame goes through its queue.
    pub fn transmit(
        &mut self,
        alloc: Global,
        activation: u32,
        queue: u32,
        frame: &[u8],
        mark: &TxMark,
    ) -> Result<(), AllocError>
        ensures transmitted { OnOk result (seat_of self.new ≡ transmitted activation queue (with_mark frame.now mark.now) (seat_of self.old)) }
    {
        transmit(alloc, &mut self.tx, activation, queue, frame, mark)
    }

    /// At the end the driver polls, and an active device is quiesced.
    pub fn close(&mut self, alloc: Global) -> Result<(), AllocError>
        ensures closed { OnOk result (seat_of self.new ≡ closed (seat_of self.old)) }
    {
        if self.active {
            self.quiet(alloc, Command::QuiesceDev)?;
        }
        Ok(())
    }
}
