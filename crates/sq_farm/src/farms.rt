//! `Farm`: the processes of one class, the questions that wait for them, and what to do next.
ghost use Rattle.std.specs.Prelude.{◌≡◌, ◌<◌, ◌≤◌, ◌+◌, ◌-◌, ◌*◌, ◌↔◌, ◌==◌, [], ℕ, not, ◌&&◌, ◌||◌, length, map, max, true, false, if◌then◌else◌, is_some, Some, None, IfOk, IfSome, OnOk, OnErr, IsErrOf};
ghost use Rattle.std.specs.Option.{option_to_list};
ghost use Rattle.std.specs.declared.option.Option.{Option};
ghost use Rattle.sq_machine.specs.Living.{lives, settled_in, slots_in};
ghost use Rattle.sq_machine.specs.Channels.{is_open, opened};
ghost use Rattle.sq_channel.specs.Gots.{names_open};
ghost use Rattle.sq_farm.specs.Acts.{act_of, told_send, told_start};
ghost use Rattle.sq_farm.specs.Replies.{after_got, got_of, is_reply_to};
ghost use Rattle.sq_machine.specs.Farms.{after_act, after_send, after_start, emptied, ended, failed, full, is_last_start, places, put_in, started_in, send_of, start_due, stock_of, waiting_number};
ghost use Rattle.sq_machine.specs.Rising.{times_of};
ghost use Rattle.sq_machine.specs.Losses.{first_lost, later_lost, lose_all, times_lost};

use crate::acts::{FarmAct, Waiting};
use crate::faults::{FarmFault, PutFault, StartFault};
use crate::losses::Losses;
use crate::procs::Procs;
use sq_base::{Cause, Copying, ProcNo, QuestionNo, Text, WantOfMemory};
use sq_channel::{Got, Process};
use sq_rules::Class;
use std::alloc::Global;
use std::collections::VecDeque;
use std::marker::Model;

/// The helper processes of one class and the questions to them.
#[derive(Drop)]
pub struct Farm {
    concurrency: u32,
    children_max: u32,
    queue_size: u32,
    queue: VecDeque<Waiting>,
    procs: Procs,
    // How many questions are open.
    open: usize,
    owed: u32,
    starting: u32,
    held: bool,
    // It has room for every question that waits or is open.
    losses: Losses,
}

impl Model for Farm {
    ghost use Rattle.std.specs.Prelude.{◌≡◌, ◌≤◌, ◌+◌, length};
    ghost use Rattle.sq_machine.specs.Farms.{IsStock, Stock, open_in};

    ghost Value = { Stock };

    ghost view = { λ f. record {
      concurrency = f.concurrency;
      children_max = f.children_max;
      queue_size = f.queue_size;
      queue = f.queue.items;
      procs = f.procs;
      owed = f.owed;
      starting = f.starting;
      held = f.held;
      losses = f.losses.losses;
    } };

    ghost invariant = { λ f. IsStock
        (record {
          concurrency = f.concurrency;
          children_max = f.children_max;
          queue_size = f.queue_size;
          queue = f.queue.items;
          procs = f.procs;
          owed = f.owed;
          starting = f.starting;
          held = f.held;
          losses = f.losses.losses;
        })
        × (f.open ≡ open_in f.procs)
        × (length f.losses.losses + (length f.queue.items + open_in f.procs) ≤ f.losses.room) };
}

// Loses the question of a channel, if it has one.
fn lose_slot(losses: &mut Losses, slot: Option<QuestionNo>, cause: Cause)
    requires room { length losses.old.losses + length (option_to_list slot) ≤ losses.old.room }
    requires other { IfSome slot (λ q. times_lost q losses.old.losses ≡ 0) }
    ensures losses { losses.new.losses ≡ lose_all cause (option_to_list slot) losses.old.losses }
    ensures room { losses.old.room ≤ losses.new.room }
{
    if let Some(question) = slot {
        losses.lose(question, cause);
    }
}

// Loses the open questions of a process that ended.
fn lose_open(losses: &mut Losses, ended: Process, cause: Cause)
    requires room { length losses.old.losses + length (opened ended.slots) ≤ losses.old.room }
    requires once { (q : ℕ) → times_lost q losses.old.losses + times_of q (opened ended.slots) ≤ 1 }
    ensures losses { losses.new.losses ≡ lose_all cause (opened ended.slots) losses.old.losses }
    ensures room { losses.old.room ≤ losses.new.room }
{
    for slot in ended.slots() {
        lose_slot(losses, *slot, cause);
    }
}

// Loses the questions that wait.
fn lose_waiting(losses: &mut Losses, queue: &mut VecDeque<Waiting>)
    requires room { length losses.old.losses + length queue.old.items ≤ losses.old.room }
    requires once { (q : ℕ) → times_lost q losses.old.losses
        + times_of q (map waiting_number queue.old.items) ≤ 1 }
    ensures losses { losses.new.losses
        ≡ lose_all Cause.NoHelper (map waiting_number queue.old.items) losses.old.losses }
    ensures room { losses.old.room ≤ losses.new.room }
    ensures queue { queue.new.items ≡ [] }
{
    while let Some(waiting) = queue.pop_front() {
        losses.lose(waiting.question, Cause::NoHelper);
    }
}

impl Farm {
    /// A farm without processes and questions. It takes no memory.
    pub fn new(alloc: Global, class: &Class) -> Farm
        ensures { result ≡ stock_of class.now }
    {
        Farm {
            concurrency: class.concurrency,
            children_max: class.children_max,
            queue_size: class.queue_size,
            queue: VecDeque::new(alloc),
            procs: Procs::new(alloc),
            open: 0,
            owed: class.startup.min(class.children_max),
            starting: 0,
            held: false,
            losses: Losses::new(alloc),
        }
    }

    /// Whether a question more is refused.
    pub fn is_full(&self) -> bool
        ensures { result ≡ full self.now }
    {
        let most = self.queue_size as usize
            + self.concurrency.max(1) as usize * self.children_max as usize;
        self.queue.len() + self.open >= most
    }

    /// Puts a question at the end of the queue.
    pub fn put(&mut self, question: QuestionNo, text: Text) -> Result<(), PutFault>
        requires { places question self.old ≡ 0 }
        ensures full { IsErrOf result PutFault.Full ↔ (full self.old ≡ true) }
        ensures ok { OnOk result
            (self.new ≡ put_in (record { question = question; text = text }) self.old) }
        // Its question alone is added.
        ensures stay { OnOk result
            ((q : ℕ) → places q self.new ≡ (if q == question then 1 else places q self.old)) }
        ensures err { OnErr result (self.new ≡ self.old) }
    {
        if self.is_full() {
            return Err(PutFault::Full);
        }
        self.losses.reserve(self.queue.len() + self.open + 1)?;
        if self.queue.reserve(1).is_err() {
            return Err(PutFault::WantOfMemory);
        }
        self.queue.push_back_reserved(Waiting { question, text });
        self.held = false;
        Ok(())
    }

    /// The send that is due, which is made with this call.
    pub fn send(&mut self) -> Option<FarmAct>
        ensures act { result ≡ told_send (send_of self.old) }
        ensures value { self.new ≡ after_send self.old }
    {
        if !self.procs.some_free() {
            return None;
        }
        let waiting = self.queue.pop_front()?;
        let (proc, channel) = self.procs.send(waiting.question);
        self.open += 1;
        Some(FarmAct::Send {
            proc,
            question: waiting.question,
            channel,
            text: waiting.text,
        })
    }

    /// Whether a start is due.
    pub fn start_due(&self) -> bool
        ensures { result ≡ start_due self.now }
    {
        let starting = self.starting as usize;
        if self.procs.len() + starting >= self.children_max as usize || self.held {
            return false;
        }
        self.owed > 0 || starting * (self.concurrency.max(1) as usize) < self.queue.len()
    }

    /// The start that is due, which is made with this call, whether or not a send is due too.
    pub fn start(&mut self) -> Option<FarmAct>
        ensures act { result ≡ told_start (start_due self.old) }
        ensures value { self.new ≡ after_start self.old }
    {
        if !self.start_due() {
            return None;
        }
        self.owed = self.owed.saturating_sub(1);
        self.starting += 1;
        Some(FarmAct::Start)
    }

    /// The next act that is due, which is made with this call.
    pub fn act(&mut self) -> Option<FarmAct>
        ensures act { result ≡ act_of self.old }
        ensures value { self.new ≡ after_act self.old }
        // No question leaves.
        ensures stay { (q : ℕ) → places q self.new ≡ places q self.old }
    {
        match self.send() {
            Some(act) => Some(act),
            None => self.start(),
        }
    }

    /// A copy of what `send` would answer. Nothing changes.
    pub fn send_copy(&self, alloc: Global) -> Result<Option<FarmAct>, WantOfMemory>
        ensures { IfOk result (λ a. a ≡ told_send (send_of self.now)) }
    {
        let Some(waiting) = self.queue.front() else {
            return Ok(None);
        };
        let Some((proc, channel)) = self.procs.target() else {
            return Ok(None);
        };
        let text = waiting.text.copy(alloc)?;
        Ok(Some(FarmAct::Send {
            proc,
            question: waiting.question,
            channel,
            text,
        }))
    }

    /// A copy of what `act` would answer. Nothing changes.
    pub fn due(&self, alloc: Global) -> Result<Option<FarmAct>, WantOfMemory>
        ensures { IfOk result (λ a. a ≡ act_of self.now) }
    {
        let send = self.send_copy(alloc)?;
        if send.is_some() {
            return Ok(send);
        }
        if self.start_due() {
            Ok(Some(FarmAct::Start))
        } else {
            Ok(None)
        }
    }

    /// Whether a start is open.
    pub fn start_open(&self) -> bool
        ensures { result ≡ not (self.now.starting == 0) }
    {
        self.starting != 0
    }

    /// How many processes live.
    pub fn living(&self) -> usize
        ensures { result ≡ length self.now.procs }
    {
        self.procs.len()
    }

    /// Whether a process with this number lives.
    pub fn lives(&self, proc: ProcNo) -> bool
        ensures { result ≡ lives proc self.now.procs }
    {
        self.procs.get(proc).is_some()
    }

    /// Whether the next act is a send.
    pub fn send_due(&self) -> bool
        ensures { result ≡ is_some (send_of self.now) }
    {
        !self.queue.is_empty() && self.procs.some_free()
    }

    /// A process ends, by this cause; false where it does not live.
    pub fn end(&mut self, proc: ProcNo, cause: Cause) -> bool
        ensures alive { result ≡ lives proc self.old.procs }
        ensures value { self.new ≡ (if result then ended cause proc self.old else self.old) }
        ensures stay { (q : ℕ) → places q self.new ≡ places q self.old }
    {
        let Some(process) = self.procs.remove(proc) else {
            return false;
        };
        self.open -= process.open_count() as usize;
        lose_open(&mut self.losses, process, cause);
        self.held = false;
        true
    }

    /// A process died.
    pub fn died(&mut self, proc: ProcNo) -> Result<(), FarmFault>
        ensures unknown { IsErrOf result FarmFault.UnknownProc
            ↔ (lives proc self.old.procs ≡ false) }
        // No other error comes, want of memory neither.
        ensures sure { OnErr result (lives proc self.old.procs ≡ false) }
        ensures ok { OnOk result (self.new ≡ ended Cause.Died proc self.old) }
        ensures stay { OnOk result ((q : ℕ) → places q self.new ≡ places q self.old) }
        ensures err { OnErr result (self.new ≡ self.old) }
    {
        if self.end(proc, Cause::Died) {
            Ok(())
        } else {
            Err(FarmFault::UnknownProc)
        }
    }

    fn is_last_start(&self) -> bool
        ensures { result ≡ is_last_start self.now }
    {
        self.procs.is_empty() && self.starting == 1
    }

    fn lose_queue(&mut self, all: bool)
        ensures { self.new ≡ emptied all self.old }
    {
        if all {
            lose_waiting(&mut self.losses, &mut self.queue);
        }
    }

    /// A start failed.
    pub fn start_failed(&mut self) -> Result<(), StartFault>
        ensures none { IsErrOf result StartFault.NoStartOpen ↔ (self.old.starting ≡ 0) }
        // No other error comes, want of memory neither.
        ensures sure { OnErr result (self.old.starting ≡ 0) }
        ensures ok { OnOk result (self.new ≡ failed self.old) }
        ensures stay { OnOk result ((q : ℕ) → places q self.new ≡ places q self.old) }
        ensures err { OnErr result (self.new ≡ self.old) }
    {
        if self.starting == 0 {
            return Err(StartFault::NoStartOpen);
        }
        let last = self.is_last_start();
        self.lose_queue(last);
        self.starting -= 1;
        self.held = true;
        Ok(())
    }

    /// What `got` would answer. Nothing changes.
    pub fn look(&self, alloc: Global, proc: ProcNo, line: &[u8]) -> Result<Got, FarmFault>
        ensures unknown { IsErrOf result FarmFault.UnknownProc
            ↔ (lives proc self.now.procs ≡ false) }
        ensures value { IfOk result (λ g. got_of proc self.now line.now ≡ Some g) }
        ensures opened { IfOk result (names_open (slots_in proc self.now.procs)) }
    {
        let Some(process) = self.procs.get(proc) else {
            return Err(FarmFault::UnknownProc);
        };
        let got = process.look(alloc, line)?;
        Ok(got)
    }

    /// Frees the channel of a question that is open on this process.
    pub fn settle_reply(&mut self, proc: ProcNo, question: QuestionNo)
        requires { is_open question (slots_in proc self.old.procs) ≡ true }
        ensures value { self.new
            ≡ record self.old { procs = settled_in proc question self.old.procs } }
        ensures stay { (q : ℕ) → (q == question) ≡ false → places q self.new ≡ places q self.old }
    {
        self.procs.settle(proc, question);
        self.open -= 1;
    }

    /// Makes the change of an answer that `look` gave.
    pub fn settle(&mut self, proc: ProcNo, got: &Got)
        requires alive { lives proc self.old.procs ≡ true }
        requires opened { names_open (slots_in proc self.old.procs) got.now }
        ensures value { self.new ≡ after_got proc got.now self.old }
        // A question leaves only as the one that a reply names.
        ensures stay { (q : ℕ) → is_reply_to q got.now ≡ false
            → places q self.new ≡ places q self.old }
    {
        match got {
            Got::Reply(question, _) => self.settle_reply(proc, *question),
            Got::Bad => {
                self.end(proc, Cause::BadReply);
            }
            Got::Stray => {
                self.end(proc, Cause::Stray);
            }
        }
    }

    /// What a line of a process answers, and its change.
    pub fn got(&mut self, alloc: Global, proc: ProcNo, line: &[u8]) -> Result<Got, FarmFault>
        ensures unknown { IsErrOf result FarmFault.UnknownProc
            ↔ (lives proc self.old.procs ≡ false) }
        ensures value { IfOk result (λ g. got_of proc self.old line.now ≡ Some g) }
        ensures ok { IfOk result (λ g. self.new ≡ after_got proc g self.old) }
        ensures stay { IfOk result
            (λ g. (q : ℕ) → is_reply_to q g ≡ false → places q self.new ≡ places q self.old) }
        ensures err { OnErr result (self.new ≡ self.old) }
    {
        let got = self.look(alloc, proc, line)?;
        self.settle(proc, &got);
        Ok(got)
    }

    /// A process was started for an open start.
    pub fn started(&mut self, alloc: Global, proc: ProcNo) -> Result<(), StartFault>
        requires { lives proc self.old.procs ≡ false }
        ensures none { IsErrOf result StartFault.NoStartOpen ↔ (self.old.starting ≡ 0) }
        ensures ok { OnOk result (self.new ≡ started_in proc self.old) }
        ensures stay { OnOk result ((q : ℕ) → places q self.new ≡ places q self.old) }
        ensures err { OnErr result (self.new ≡ self.old) }
    {
        if self.starting == 0 {
            return Err(StartFault::NoStartOpen);
        }
        let process = Process::new(alloc, self.concurrency)?;
        self.procs.insert(proc, process)?;
        self.starting -= 1;
        Ok(())
    }

    /// Takes out the least question that has a fault.
    pub fn next_lost(&mut self) -> Option<(QuestionNo, Cause)>
        ensures lost { result ≡ first_lost self.old.losses }
        ensures value { self.new ≡ record self.old { losses = later_lost self.old.losses } }
        // The question that is handed out leaves alone, and it stands nowhere then.
        ensures stay { IfSome result
            (λ l. (q : ℕ) → places q self.new ≡ (if q == l.0 then 0 else places q self.old)) }
    {
        self.losses.next()
    }
}
