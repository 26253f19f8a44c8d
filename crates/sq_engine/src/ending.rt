//! The outcome of a check is taken, and a connection closes.
ghost use Rattle.std.specs.Prelude.{◌≡◌, ◌==◌, if◌then◌else◌, ℕ, max, true, is_some, Some, None, IfOk, OnOk, OnErr};
ghost use Rattle.sq_machine.specs.declared.entries.Event.TheVariants as event;
ghost use Rattle.sq_machine.specs.declared.entries.Told.TheVariants as told;
ghost use Rattle.sq_model.specs.CheckRows.{without_conn};
ghost use Rattle.sq_checks.specs.Conns.{check_in};
ghost use Rattle.sq_checks.specs.OpenChecks.{CheckParts, rows_of};
ghost use Rattle.sq_checks.specs.Records.{judged_of};
ghost use Rattle.sq_checks.specs.Stages.{need_in};
ghost use Rattle.sq_checks.specs.Tables.{value_at};
ghost use Rattle.sq_checks.specs.declared.stages.Need.{Need};
ghost use Rattle.sq_epochs.specs.EpochChanges.{HasLeft};
ghost use Rattle.sq_epochs.specs.EpochStates.{IsChanged, part_at};
ghost use Rattle.sq_model.specs.Answers.{close_answer, take_answer};
ghost use Rattle.sq_model.specs.Changes.{after_close, after_take, with_checks};
ghost use Rattle.sq_model.specs.States.{IsSame};
ghost use Rattle.sq_engine.specs.Begun.{AreKept};
ghost use Rattle.sq_engine.specs.EngineViews.{state_of};
ghost use Rattle.sq_engine.specs.Promised.{IsPromised};
ghost use Rattle.sq_engine.specs.Tellings.{IsAlwaysTold};

use crate::engines::Engine;
use sq_base::{CheckNo, ConnNo, Moment};
use sq_checks::{OpenCheck, Record};
use sq_epochs::Epochs;
use sq_machine::{Refusal, later};

// Takes a check away from the list in which it waits, if it waits.
fn leave(epochs: &mut Epochs, taken: &OpenCheck, check: CheckNo)
    requires { (x : Need) → need_in taken.now.stage ≡ Some x
        → is_some (part_at epochs.old taken.now.epoch x.class) ≡ true }
    ensures waited { (x : Need) → need_in taken.now.stage ≡ Some x
        → IsChanged taken.now.epoch x.class (HasLeft check) epochs.old epochs.new }
    ensures none { need_in taken.now.stage ≡ None → epochs.new ≡ epochs.old }
{
    if let Some(need) = taken.need() {
        epochs.leave(taken.epoch(), need.class, check);
    }
}

impl Engine {
    // Takes an open check out: its connection has none, and its epoch ends where it is not current and had no other.
    fn remove(&mut self, check: CheckNo) -> OpenCheck
        requires { is_some (value_at self.old.checks check) ≡ true }
        ensures check { Some result ≡ value_at self.old.checks check }
        ensures same { IsSame (state_of self.new)
            (after_take check self.old.latest (state_of self.old)) }
        ensures conns { (c : ℕ) → check_in self.new.conns c
            ≡ (if result.conn == c then None else check_in self.old.conns c) }
        ensures latest { self.new.latest ≡ self.old.latest }
        ensures kept { AreKept self.old.checks self.new.checks }
    {
        // For the proof: the numbers ascend.
        let _len = self.checks.len();
        let Some(open) = self.checks.remove(check) else {
            unreachable!();
        };
        let epoch = open.epoch();
        leave(&mut self.epochs, &open, check);
        self.conns.set_check(open.conn(), None);
        self.epochs.facts();
        self.epochs.ended(epoch);
        open
    }

    /// The outcome of a check is taken, and the check is over. It takes no memory.
    pub fn take(&mut self, check: CheckNo, now: Moment) -> Result<Record, Refusal>
        ensures told { IsAlwaysTold (λ r. told.Judged r.epoch r.outcome)
            (take_answer (state_of self.old) check) result }
        ensures ok { OnOk result
            (IsSame (state_of self.new)
            (after_take check (max now self.old.latest) (state_of self.old))) }
        ensures record { IfOk result
            (λ r. (k : CheckParts) → value_at self.old.checks check ≡ Some k
            → r ≡ judged_of check r.outcome k) }
        ensures err { OnErr result (self.new ≡ self.old) }
        ensures kept { AreKept self.old.checks self.new.checks }
        ensures promised { IsPromised (λ r. told.Judged r.epoch r.outcome) (state_of self.old)
            (max now self.old.latest) (event.Take check) result (state_of self.new) }
    {
        let Some(open) = self.checks.get(check) else {
            return Err(Refusal::UnknownCheck(check));
        };
        if open.outcome().is_none() {
            return Err(Refusal::NotDone(check));
        }
        let record = self.remove(check).into_record(check);
        // For the proof: its outcome is the verdict.
        let _outcome = record.outcome();
        self.latest = later(now, self.latest);
        Ok(record)
    }

    // Takes the open check of a connection out, if it has one.
    fn drop_check(&mut self, conn: ConnNo)
        ensures same { IsSame (state_of self.new)
            (with_checks (without_conn conn (rows_of self.old.checks)) (state_of self.old)) }
        ensures free { check_in self.new.conns conn ≡ None }
        ensures latest { self.new.latest ≡ self.old.latest }
        ensures kept { AreKept self.old.checks self.new.checks }
    {
        self.epochs.facts();
        // For the proof: the numbers ascend.
        let _len = self.checks.len();
        if let Some(check) = self.conns.check(conn) {
            let _open = self.remove(check);
        }
    }

    /// A connection closes, and its open check is dropped; the question for which it waits goes on. It takes no
    /// memory.
    pub fn close(&mut self, conn: ConnNo, now: Moment) -> Result<(), Refusal>
        ensures told { IsAlwaysTold (λ _. told.Fine) (close_answer (state_of self.old) conn)
            result }
        ensures ok { OnOk result
            (IsSame (state_of self.new)
            (after_close conn (max now self.old.latest) (state_of self.old))) }
        ensures err { OnErr result (self.new ≡ self.old) }
        ensures kept { AreKept self.old.checks self.new.checks }
        ensures promised { IsPromised (λ _. told.Fine) (state_of self.old) (max now self.old.latest)
            (event.Close conn) result (state_of self.new) }
    {
        if self.conns.peer(conn).is_none() {
            return Err(Refusal::UnknownConn(conn));
        }
        self.drop_check(conn);
        let _peer = self.conns.close(conn);
        self.latest = later(now, self.latest);
        Ok(())
    }
}
