//! The act that is due: first a stop, then a send, then a start, each of the least number, epoch and class.
ghost use Rattle.std.specs.Prelude.{◌≡◌, ◌<◌, ℕ, None, Some, length, IfOk, IfSome};
ghost use Rattle.std.specs.Option.{option_map};
ghost use Rattle.sq_machine.specs.DueActs.{first_made, first_of, stops};
ghost use Rattle.sq_epochs.specs.DueStates.{act_at, act_in, after_act_in, after_due, due_of, first_place, has_act, live_places, owes_send, owes_start, send_by, start_by, told_due};
ghost use Rattle.sq_epochs.specs.EpochProcs.{SameLiving};

use crate::epoch::Epoch;
use crate::epochs::Epochs;
use sq_base::WantOfMemory;
use sq_class::Sending;
use sq_machine::Act;
use std::alloc::Global;

fn told(sending: Sending) -> Act
    ensures { result ≡ Act.Send sending.proc sending.question sending.channel sending.text }
{
    Act::Send {
        proc: sending.proc,
        question: sending.question,
        channel: sending.channel,
        text: sending.text,
    }
}

impl Epoch {
    // The first class of which a send is due.
    fn sender(&self) -> Option<u32>
        ensures first { result ≡ first_place owes_send self.now.parts }
        ensures few { IfSome result (λ c. c < length self.now.config.classes) }
    {
        self.due.sender()
    }

    // The first class of which a start is due.
    fn starter(&self) -> Option<u32>
        ensures first { result ≡ first_place owes_start self.now.parts }
        ensures few { IfSome result (λ c. c < length self.now.config.classes) }
    {
        self.due.starter()
    }

    // Makes the send that is due of the first class of which one is.
    fn send(&mut self) -> Option<Act>
        ensures act { result ≡ told_due (act_in send_by owes_send self.old) }
        ensures value { self.new ≡ after_act_in (act_in send_by owes_send self.old) self.old }
        ensures few { (c : ℕ) → first_place owes_send self.old.parts ≡ Some c
            → c < length self.old.config.classes }
        ensures number { self.new.epoch ≡ self.old.epoch }
        ensures checks { self.new.checks ≡ self.old.checks }
        ensures alive { SameLiving self.old self.new }
    {
        let class = self.sender()?;
        let part = &mut self.parts[class as usize];
        let Some(sending) = part.send() else {
            unreachable!();
        };
        self.due.mark(class, part);
        Some(told(sending))
    }

    // Makes the start that is due of the first class of which one is.
    fn start(&mut self) -> Option<Act>
        ensures act { result ≡ told_due (act_in start_by owes_start self.old) }
        ensures value { self.new ≡ after_act_in (act_in start_by owes_start self.old) self.old }
        ensures few { (c : ℕ) → first_place owes_start self.old.parts ≡ Some c
            → c < length self.old.config.classes }
        ensures number { self.new.epoch ≡ self.old.epoch }
        ensures checks { self.new.checks ≡ self.old.checks }
        ensures alive { SameLiving self.old self.new }
    {
        let class = self.starter()?;
        let epoch = self.number;
        let part = &mut self.parts[class as usize];
        part.start();
        self.due.mark(class, part);
        Some(Act::Start { epoch, class })
    }

    // A copy of what `send` would answer.
    fn send_copy(&self, alloc: Global) -> Result<Option<Act>, WantOfMemory>
        ensures act { IfOk result (λ a. a ≡ told_due (act_in send_by owes_send self.now)) }
        ensures few { (c : ℕ) → first_place owes_send self.now.parts ≡ Some c
            → c < length self.now.config.classes }
    {
        let Some(class) = self.sender() else {
            return Ok(None);
        };
        let part = &self.parts[class as usize];
        match part.send_copy(alloc)? {
            Some(sending) => Ok(Some(told(sending))),
            None => Ok(None),
        }
    }

    // A copy of what `start` would answer.
    fn start_copy(&self) -> Option<Act>
        ensures act { result ≡ told_due (act_in start_by owes_start self.now) }
        ensures few { (c : ℕ) → first_place owes_start self.now.parts ≡ Some c
            → c < length self.now.config.classes }
    {
        let class = self.starter()?;
        let epoch = self.number;
        Some(Act::Start { epoch, class })
    }
}

// The first of these epochs of which a send is due.
fn sending_epoch(epochs: &[Epoch]) -> Option<usize>
    ensures first { result ≡ first_place (has_act owes_send) epochs.now }
    ensures inside { IfSome result (λ i. i < length epochs.now) }
{
    epochs.iter().position(|live| live.sender().is_some())
}

// The first of these epochs of which a start is due.
fn starting_epoch(epochs: &[Epoch]) -> Option<usize>
    ensures first { result ≡ first_place (has_act owes_start) epochs.now }
    ensures inside { IfSome result (λ i. i < length epochs.now) }
{
    epochs.iter().position(|live| live.starter().is_some())
}

impl Epochs {
    // Makes the first stop that is due.
    fn stop(&mut self) -> Option<Act>
        ensures act { result ≡ told_due (option_map stops (first_of self.old.stops)) }
        ensures value { self.new ≡ after_due (option_map stops (first_of self.old.stops)) self.old }
    {
        let proc = self.homes.next_stop()?;
        Some(Act::Stop(proc))
    }

    // Makes the first send that is due.
    fn send(&mut self) -> Option<Act>
        ensures act { result ≡ told_due
            (first_made (act_at send_by self.old) (live_places self.old)) }
        ensures value { self.new
            ≡ after_due (first_made (act_at send_by self.old) (live_places self.old)) self.old }
    {
        let place = sending_epoch(&self.epochs)?;
        let live = &mut self.epochs[place];
        live.send()
    }

    // Makes the first start that is due.
    fn start(&mut self) -> Option<Act>
        ensures act { result ≡ told_due
            (first_made (act_at start_by self.old) (live_places self.old)) }
        ensures value { self.new
            ≡ after_due (first_made (act_at start_by self.old) (live_places self.old)) self.old }
    {
        let place = starting_epoch(&self.epochs)?;
        let live = &mut self.epochs[place];
        live.start()
    }

    // A copy of what `send` would answer.
    fn send_copy(&self, alloc: Global) -> Result<Option<Act>, WantOfMemory>
        ensures { IfOk result
            (λ a. a ≡ told_due (first_made (act_at send_by self.now) (live_places self.now))) }
    {
        let Some(place) = sending_epoch(&self.epochs) else {
            return Ok(None);
        };
        let live = &self.epochs[place];
        live.send_copy(alloc)
    }

    // A copy of what `start` would answer.
    fn start_copy(&self) -> Option<Act>
        ensures { result ≡ told_due (first_made (act_at start_by self.now) (live_places self.now)) }
    {
        let place = starting_epoch(&self.epochs)?;
        let live = &self.epochs[place];
        live.start_copy()
    }

    /// The next act that is due, which is made with this call: first a stop, then a send, then a start, each of the
    /// least number, or epoch and class. It takes no memory.
    pub fn act(&mut self) -> Option<Act>
        ensures act { result ≡ told_due (due_of self.old) }
        ensures value { self.new ≡ after_due (due_of self.old) self.old }
    {
        if let Some(act) = self.stop() {
            return Some(act);
        }
        if let Some(act) = self.send() {
            return Some(act);
        }
        self.start()
    }

    /// A copy of what `act` would answer. Nothing changes.
    pub fn due(&self, alloc: Global) -> Result<Option<Act>, WantOfMemory>
        ensures { IfOk result (λ a. a ≡ told_due (due_of self.now)) }
    {
        if let Some(proc) = self.homes.first_stop() {
            return Ok(Some(Act::Stop(proc)));
        }
        if let Some(act) = self.send_copy(alloc)? {
            return Ok(Some(act));
        }
        Ok(self.start_copy())
    }
}
