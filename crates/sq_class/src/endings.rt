//! The ends of questions: by a reply, with a process, or where no process comes.
ghost use Rattle.std.specs.Prelude.{◌≡◌, ◌↔◌, [], ℕ, true, false, Some, None, if◌then◌else◌, IfOk, IfNone, IfSome, OnOk, OnErr, IsErrOf, ◌&&◌};
ghost use Rattle.sq_lookup.specs.Waits.{has_check};
ghost use Rattle.sq_machine.specs.Channels.{is_open};
ghost use Rattle.sq_machine.specs.Farms.{ended, failed, is_last_start};
ghost use Rattle.sq_machine.specs.KeptLists.{is_fault};
ghost use Rattle.sq_machine.specs.KeptReadings.{keep_what};
ghost use Rattle.sq_machine.specs.Living.{lives, slots_in};
ghost use Rattle.sq_machine.specs.OpenLookups.{question_of, waits_in};
ghost use Rattle.sq_model.specs.ClassRows.{after_death, after_failed, after_reply, is_waiting};
ghost use Rattle.sq_class.specs.Losing.{IsHandedOut, handed_out, lost_cause};

use crate::lost::Lost;
use crate::parts::Part;
use sq_base::{Cause, Moment, ProcNo, QuestionNo, Text, WantOfMemory, What};
use sq_cache::Kept;
use sq_farm::StartFault;
use sq_lookup::Checks;
use sq_rules::Class;

// Whether an answer is a fault.
fn is_fault(what: &What) -> bool
    ensures { result ≡ is_fault what.now }
{
    match what {
        What::Fault(_) => true,
        What::Yes(_) => false,
        What::No(_) => false,
    }
}

// Keeps what a reply says, unless it is a fault.
fn keep(
    kept: &mut Kept,
    class: &Class,
    key: Text,
    what: What,
    question: QuestionNo,
    date: Moment,
) -> Result<(), WantOfMemory>
    requires { kept.old.limit ≡ class.now.cache }
    ensures ok { OnOk result
        (kept.new.verdicts ≡ keep_what class.now question key date what kept.old.verdicts) }
    ensures limit { kept.new.limit ≡ kept.old.limit }
    ensures err { OnErr result (kept.new ≡ kept.old) }
{
    if is_fault(&what) {
        return Ok(());
    }
    kept.put(key, what, question, class, date)?;
    Ok(())
}

impl Part {
    /// A reply to a question that is open on this process: what it says is kept under the question's key, unless it
    /// is a fault, and the checks that waited are handed out. Only what is kept takes memory, and it comes first.
    pub fn reply(
        &mut self,
        class: &Class,
        proc: ProcNo,
        question: QuestionNo,
        key: Text,
        what: What,
        date: Moment,
    ) -> Result<Checks, WantOfMemory>
        requires opened { is_open question (slots_in proc self.old.row.stock.procs) ≡ true }
        requires limit { self.old.limit ≡ class.now.cache }
        ensures checks { IfOk result
            (λ c. (n : ℕ) → has_check n c ≡ waits_in self.old.waiting question n) }
        ensures row { OnOk result
            (self.new.row ≡ after_reply class.now proc question key what date self.old.row) }
        ensures waiting { OnOk result
            ((n : ℕ) → question_of n self.new.waiting
            ≡ (if waits_in self.old.waiting question n then None
            else question_of n self.old.waiting)) }
        ensures limit { self.new.limit ≡ self.old.limit }
        ensures err { OnErr result (self.new ≡ self.old) }
    {
        keep(&mut self.kept, class, key, what, question, date)?;
        let Some((_key, checks)) = self.lookups.answered(question) else {
            unreachable!();
        };
        self.farm.settle_reply(proc, question);
        Ok(checks)
    }

    /// A living process ends, by this cause. Its open questions are lost, and `next_lost` hands them out. It takes
    /// no memory.
    pub fn end(&mut self, proc: ProcNo, cause: Cause)
        requires { lives proc self.old.row.stock.procs ≡ true }
        ensures value { self.new
            ≡ record self.old {
              row =
                  record self.old.row { stock = ended cause proc self.old.row.stock };
            } }
        // Where no lost question was left, the row is that of a death once all were handed out.
        ensures after { self.old.row.stock.losses ≡ []
            → handed_out self.new.row ≡ after_death cause proc self.old.row }
        ensures lost { self.old.row.stock.losses ≡ [] → (q : ℕ)
            → lost_cause q self.new.row.stock.losses
            ≡ (if is_open q (slots_in proc self.old.row.stock.procs) then Some cause else None) }
    {
        self.farm.end(proc, cause);
    }

    /// A start failed. Where no process lives or starts then, the questions in the queue are lost, and `next_lost`
    /// hands them out. It takes no memory.
    pub fn start_failed(&mut self) -> Result<(), StartFault>
        ensures none { IsErrOf result StartFault.NoStartOpen ↔ (self.old.row.stock.starting ≡ 0) }
        // No other error comes, want of memory neither.
        ensures sure { OnErr result (self.old.row.stock.starting ≡ 0) }
        ensures ok { OnOk result
            (self.new ≡ record self.old
            { row = record self.old.row { stock = failed self.old.row.stock } }) }
        ensures after { OnOk result
            (self.old.row.stock.losses ≡ [] → handed_out self.new.row ≡ after_failed self.old.row) }
        ensures lost { OnOk result
            (self.old.row.stock.losses ≡ [] → (q : ℕ)
            → lost_cause q self.new.row.stock.losses
            ≡ (if is_last_start self.old.row.stock
            && is_waiting q self.old.row.stock.queue then Some Cause.NoHelper else None)) }
        ensures err { OnErr result (self.new ≡ self.old) }
    {
        self.farm.start_failed()?;
        Ok(())
    }

    /// Hands out the least question that is lost, with its key and the checks that waited for it. It takes no memory.
    pub fn next_lost(&mut self) -> Option<Lost>
        ensures handed { IfSome result (λ l. IsHandedOut l self.old self.new) }
        ensures none { IfNone result (self.old.row.stock.losses ≡ []) }
        ensures same { IfNone result (self.new ≡ self.old) }
        // What is left in the end is the same, and it is there once none is lost.
        ensures after { handed_out self.new.row ≡ handed_out self.old.row }
        ensures done { IfNone result (handed_out self.old.row ≡ self.old.row) }
    {
        let Some(loss) = self.farm.next_lost() else {
            return None;
        };
        let (question, cause) = loss;
        let Some((key, checks)) = self.lookups.answered(question) else {
            unreachable!();
        };
        Some(Lost {
            question,
            cause,
            key,
            checks,
        })
    }
}
