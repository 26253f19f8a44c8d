//! `Part`: one helper class of one epoch, and what is asked of its processes.
ghost use Rattle.std.specs.Prelude.{◌≡◌, ◌↔◌, [], ℕ, length, is_some, true, false, not, Some, None, if◌then◌else◌, ◌==◌, IfOk, IfSome, OnOk, OnErr, IsErrOf};
ghost use Rattle.sq_channel.specs.Gots.{names_open};
ghost use Rattle.sq_farm.specs.Replies.{got_of};
ghost use Rattle.sq_lookup.specs.Index.{IsListed};
ghost use Rattle.sq_machine.specs.Channels.{is_open};
ghost use Rattle.sq_machine.specs.Farms.{send_of, start_due};
ghost use Rattle.sq_machine.specs.Living.{lives, slots_in};
ghost use Rattle.sq_machine.specs.OpenLookups.{is_open_lookup, question_of};
ghost use Rattle.sq_model.specs.ClassRows.{after_sending, after_started, after_starting, new_row};

use crate::sends::{Sending, as_sending};
use sq_base::{CheckNo, ProcNo, QuestionNo, Text, WantOfMemory};
use sq_cache::{HashSeed, Kept};
use sq_farm::{Farm, FarmFault, Got, StartFault};
use sq_lookup::{Checks, Lookups};
use sq_rules::Class;
use std::alloc::Global;
use std::marker::Model;

/// One helper class of one epoch. A contract sees its row, the question that each check waits for, and how many
/// verdicts may be kept.
pub struct Part {
    pub(crate) kept: Kept,
    pub(crate) lookups: Lookups,
    pub(crate) farm: Farm,
}

// Written out, so that the drops of its parts are proved here alone, and not in each crate that lets a class go.
impl Drop for Part {
    fn drop(self) {
        let Part {
            kept: _,
            lookups: _,
            farm: _,
        } = self;
    }
}

impl Model for Part {
    ghost use Rattle.sq_class.specs.Parts.{PartState, HoldsOpen};

    ghost Value = { PartState };

    ghost view = { λ p. record {
      row =
          record { kept = p.kept.verdicts; lookups = p.lookups.rows; stock = p.farm };
      waiting = p.lookups.waiting;
      limit = p.kept.limit;
    } };

    ghost invariant = { λ p. HoldsOpen p.farm p.lookups.rows };
}

impl Part {
    /// A class without verdicts, questions and processes. The seed is for the hashes of keys.
    pub fn new(alloc: Global, class: &Class, seed: HashSeed) -> Result<Part, WantOfMemory>
        ensures { IfOk result
            (λ p. p ≡ record {
              row = new_row [] class.now;
              waiting = [];
              limit = class.now.cache;
            }) }
    {
        let kept = Kept::with_seed(alloc, class.cache, seed)?;
        let lookups = Lookups::new(alloc);
        let farm = Farm::new(alloc, class);
        Ok(Part {
            kept,
            lookups,
            farm,
        })
    }

    /// Exchanges the cached replies of two classes of one limit, as of a class and the one of a new epoch that is alike.
    pub fn exchange_kept(&mut self, other: &mut Part)
        requires { self.old.limit ≡ other.old.limit }
        ensures here { self.new ≡ record self.old
            { row = record self.old.row { kept = other.old.row.kept } } }
        ensures there { other.new
            ≡ record other.old { row = record other.old.row { kept = self.old.row.kept } } }
    {
        self.kept.exchange(&mut other.kept);
    }

    /// The send that is due, which is made with this call.
    pub fn send(&mut self) -> Option<Sending>
        ensures send { result ≡ send_of self.old.row.stock }
        ensures value { self.new ≡ record self.old { row = after_sending self.old.row } }
    {
        let act = self.farm.send();
        as_sending(act)
    }

    /// A copy of what `send` would answer. Nothing changes.
    pub fn send_copy(&self, alloc: Global) -> Result<Option<Sending>, WantOfMemory>
        ensures { IfOk result (λ s. s ≡ send_of self.now.row.stock) }
    {
        let act = self.farm.send_copy(alloc)?;
        Ok(as_sending(act))
    }

    /// Whether a send is due.
    pub fn send_due(&self) -> bool
        ensures { result ≡ is_some (send_of self.now.row.stock) }
    {
        self.farm.send_due()
    }

    /// Makes the start that is due; false where none is.
    pub fn start(&mut self) -> bool
        ensures due { result ≡ start_due self.old.row.stock }
        ensures value { self.new ≡ record self.old { row = after_starting self.old.row } }
    {
        self.farm.start().is_some()
    }

    /// Whether a start is due.
    pub fn start_due(&self) -> bool
        ensures { result ≡ start_due self.now.row.stock }
    {
        self.farm.start_due()
    }

    /// Whether a start is open.
    pub fn start_open(&self) -> bool
        ensures { result ≡ not (self.now.row.stock.starting == 0) }
    {
        self.farm.start_open()
    }

    /// A process was started for an open start.
    pub fn started(&mut self, alloc: Global, proc: ProcNo) -> Result<(), StartFault>
        requires { lives proc self.old.row.stock.procs ≡ false }
        ensures none { IsErrOf result StartFault.NoStartOpen ↔ (self.old.row.stock.starting ≡ 0) }
        ensures ok { OnOk result
            (self.new ≡ record self.old { row = after_started proc self.old.row }) }
        ensures err { OnErr result (self.new ≡ self.old) }
    {
        self.farm.started(alloc, proc)?;
        Ok(())
    }

    /// How many processes live.
    pub fn living(&self) -> usize
        ensures { result ≡ length self.now.row.stock.procs }
    {
        self.farm.living()
    }

    /// Whether a process with this number lives.
    pub fn lives(&self, proc: ProcNo) -> bool
        ensures { result ≡ lives proc self.now.row.stock.procs }
    {
        self.farm.lives(proc)
    }

    /// What a line of a living process comes to. Nothing changes.
    pub fn look(&self, alloc: Global, proc: ProcNo, line: &[u8]) -> Result<Got, WantOfMemory>
        requires { lives proc self.now.row.stock.procs ≡ true }
        ensures value { IfOk result (λ g. got_of proc self.now.row.stock line.now ≡ Some g) }
        ensures opened { IfOk result (names_open (slots_in proc self.now.row.stock.procs)) }
    {
        match self.farm.look(alloc, proc, line) {
            Ok(got) => Ok(got),
            Err(FarmFault::WantOfMemory) => Err(WantOfMemory),
            Err(FarmFault::UnknownProc) => unreachable!(),
        }
    }

    /// The key of an open question and the checks that wait for it, lent; none where it is not open. It takes
    /// no memory.
    pub fn waiting(&self, question: QuestionNo) -> Option<(&Text, &Checks)>
        ensures open { is_some result ≡ is_open_lookup question self.now.row.lookups }
        // A question that is open on a process is open.
        ensures sent { (k : ℕ) → is_open question (slots_in k self.now.row.stock.procs) ≡ true
            → is_some result ≡ true }
        ensures listed { IfSome result
            (λ p. IsListed (record { rows = self.now.row.lookups; waiting = self.now.waiting })
            question p.0.now p.1.now) }
    {
        self.lookups.waiting(question)
    }

    /// The question that a check waits for. It takes no memory.
    pub fn question(&self, check: CheckNo) -> Option<QuestionNo>
        ensures { result ≡ question_of check self.now.waiting }
    {
        self.lookups.question(check)
    }

    /// Takes a check away from the list in which it waits, if it waits. It takes no memory.
    pub fn leave(&mut self, check: CheckNo)
        ensures row { self.new.row ≡ self.old.row }
        ensures waiting { (n : ℕ)
            → question_of n self.new.waiting
            ≡ (if n == check then None else question_of n self.old.waiting) }
        ensures limit { self.new.limit ≡ self.old.limit }
    {
        self.lookups.leave(check);
    }
}
