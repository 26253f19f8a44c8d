//! Lines of processes.
ghost use Rattle.std.specs.Prelude.{◌≡◌, max, map, true, is_some, Some, IfOk, OnOk, OnErr};
ghost use Rattle.sq_class.specs.Parts.{PartState};
ghost use Rattle.sq_machine.specs.Channels.{is_open};
ghost use Rattle.sq_machine.specs.Living.{slots_in};
ghost use Rattle.sq_machine.specs.declared.entries.Event.TheVariants as event;
ghost use Rattle.sq_epochs.specs.EpochStates.{home_at, part_at};
ghost use Rattle.sq_model.specs.Answers.{line_answer};
ghost use Rattle.sq_model.specs.States.{IsSame};
ghost use Rattle.sq_engine.specs.Begun.{AreKept};
ghost use Rattle.sq_engine.specs.EngineViews.{state_of};
ghost use Rattle.sq_engine.specs.Lines.{IsLineDone, IsRead, IsReplied, all_given, got_told, share_of};
ghost use Rattle.sq_engine.specs.Promised.{IsPromised};
ghost use Rattle.sq_engine.specs.Tellings.{IsTold};

use crate::engines::Engine;
use sq_base::{
    Cause, CheckNo, Copying, EpochNo, Moment, ProcNo, QuestionNo, Reply, WantOfMemory, What,
};
use sq_checks::OpenChecks;
use sq_farm::Got;
use sq_lookup::Checks;
use sq_machine::{Refusal, later};
use sq_model::what_of;
use std::alloc::Global;

// A check's copy of what the question ended with that it waits for.
#[derive(Drop)]
pub(crate) struct Share {
    check: CheckNo,
    what: What,
}

// A copy for each of these checks.
fn shares_of(alloc: Global, waiting: &Checks, what: &What) -> Result<Vec<Share>, WantOfMemory>
    ensures { IfOk result (λ v. v.items ≡ map (share_of what.now) waiting.now) }
{
    let mut shares = Vec::new(alloc);
    for check in waiting.iter() {
        let copy = what.copy(alloc)?;
        shares.push(Share {
            check: *check,
            what: copy,
        })?;
    }
    Ok(shares)
}

// Gives each check its copy of what a question ended with. It takes no memory.
fn give(checks: &mut OpenChecks, mut shares: Vec<Share>, question: QuestionNo, now: Moment)
    ensures { checks.new ≡ all_given question now shares.items checks.old }
{
    while let Some(share) = shares.pop() {
        checks.serve(share.check, question, share.what, now);
    }
}

impl Engine {
    // A reply of a process of this class to a question that is open on it. All memory is taken first.
    fn reply(
        &mut self,
        alloc: Global,
        epoch: EpochNo,
        class: u32,
        proc: ProcNo,
        question: QuestionNo,
        reply: &Reply,
        moment: Moment,
    ) -> Result<(), WantOfMemory>
        requires there { is_some (part_at self.old.epochs epoch class) ≡ true }
        requires home { home_at self.old.epochs proc
            ≡ Some (record { epoch = epoch; class = class }) }
        requires opened { (p : PartState) → part_at self.old.epochs epoch class ≡ Some p
            → is_open question (slots_in proc p.row.stock.procs) ≡ true }
        ensures ok { OnOk result
            (IsReplied (state_of self.old) proc question reply.now moment (state_of self.new)) }
        ensures err { OnErr result (IsSame (state_of self.new) (state_of self.old)) }
        ensures kept { AreKept self.old.checks self.new.checks }
    {
        // For the proof: the numbers of the checks rise.
        let _checks = self.checks.len();
        let Some((key, waiting)) = self.epochs.waiting(epoch, class, question) else {
            unreachable!();
        };
        let what = what_of(alloc, reply)?;
        let shares = shares_of(alloc, waiting, &what)?;
        let key = key.copy(alloc)?;
        let _waited = self
            .epochs
            .reply(epoch, class, proc, question, key, what, moment)?;
        give(&mut self.checks, shares, question, moment);
        self.latest = moment;
        Ok(())
    }

    /// A line of a process: a reply to a question that is open on it, or one that ends it. All memory is taken first.
    pub fn line(
        &mut self,
        alloc: Global,
        proc: ProcNo,
        bytes: &[u8],
        now: Moment,
    ) -> Result<Got, Refusal>
        ensures told { IsTold got_told (line_answer (state_of self.old) proc bytes.now) result }
        ensures read { IfOk result (λ g. IsRead (state_of self.old) proc bytes.now g) }
        ensures ok { IfOk result
            (λ g. IsLineDone (state_of self.old) proc g (max now self.old.latest)
            (state_of self.new)) }
        ensures err { OnErr result (IsSame (state_of self.new) (state_of self.old)) }
        ensures kept { AreKept self.old.checks self.new.checks }
        ensures promised { IsPromised got_told (state_of self.old) (max now self.old.latest)
            (event.Line proc bytes.now) result (state_of self.new) }
    {
        // For the proof: a process lives where its home is.
        self.epochs.facts();
        let Some(home) = self.epochs.home(proc) else {
            return Err(Refusal::UnknownProc(proc));
        };
        let epoch = home.epoch;
        let class = home.class;
        let moment = later(now, self.latest);
        let got = match self.epochs.look(alloc, epoch, class, proc, bytes) {
            Ok(got) => got,
            Err(WantOfMemory) => return Err(Refusal::WantOfMemory),
        };
        match got {
            Got::Bad => {
                self.end(epoch, class, proc, Cause::BadReply, true, moment);
                Ok(Got::Bad)
            }
            Got::Stray => {
                self.end(epoch, class, proc, Cause::Stray, true, moment);
                Ok(Got::Stray)
            }
            Got::Reply(question, reply) => {
                match self.reply(alloc, epoch, class, proc, question, &reply, moment) {
                    Ok(()) => Ok(Got::Reply(question, reply)),
                    Err(WantOfMemory) => Err(Refusal::WantOfMemory),
                }
            }
        }
    }
}
