//! Checks that go on, and helper processes that start and write.
ghost use Rattle.std.specs.Prelude.{◌≡◌, true, max, IfOk, OnOk};
ghost use Rattle.sq_machine.specs.Entries.{is_row};
ghost use Rattle.sq_machine.specs.declared.entries.Event.TheVariants as event;
ghost use Rattle.sq_engine.specs.EngineViews.{state_of};
ghost use Rattle.sq_engine.specs.Lines.{got_told};
ghost use Rattle.sq_engine.specs.Stepping.{stepped_told};
ghost use Rattle.sq_replay.specs.MachineViews.{machine_of};
ghost use Rattle.sq_replay.specs.Making.{IsLeft, IsMaking};

use crate::machines::ScriptMachine;
use crate::names::place_of;
use crate::stops::{Stop, stop_by};
use sq_base::{CheckNo, EpochNo, Moment, ProcNo, Text, WantOfMemory};
use sq_engine::Engine;
use sq_farm::Got;
use sq_machine::{Told, later};
use sq_model::Stepped;
use std::alloc::Global;

// What a step of a check of this epoch said, as it is told.
fn stepped_of(
    alloc: Global,
    engine: &Engine,
    epoch: EpochNo,
    stepped: Stepped,
) -> Result<Told, WantOfMemory>
    ensures { IfOk result (λ told. told ≡ stepped_told (state_of engine.now) epoch stepped) }
{
    match stepped {
        Stepped::Took(class) => {
            let name = engine.name_told(alloc, epoch, class)?;
            Ok(Told::Took(name))
        }
        Stepped::Waits(question) => Ok(Told::Waits(question)),
        Stepped::Done => Ok(Told::Done),
    }
}

// What a line came to, as it is told.
fn got_of(got: Got) -> Told
    ensures { result ≡ got_told got }
{
    match got {
        Got::Reply(question, reply) => Told::Reply {
            question,
            word: reply.word,
        },
        Got::Bad => Told::Bad,
        Got::Stray => Told::Stray,
    }
}

impl ScriptMachine {
    // A check goes on.
    pub(crate) fn step(&mut self, alloc: Global, check: CheckNo, now: Moment) -> Result<Told, Stop>
        ensures making { IsMaking (machine_of self.old) (machine_of self.new) now (event.Step check)
            result }
        ensures left { IsLeft (machine_of self.old) (machine_of self.new) result }
        ensures row { IfOk result (λ told. is_row (event.Step check) told ≡ true) }
        ensures latest { OnOk result (self.new.latest ≡ max now self.old.latest) }
    {
        // For the proof: what holds of the pools.
        self.pools.facts();
        let moment = later(now, self.latest);
        let epoch = self.engine.epoch_of(check);
        let stepped = match self.engine.step(alloc, check, moment) {
            Ok(stepped) => stepped,
            Err(refusal) => return Err(stop_by(refusal)),
        };
        let told = match stepped_of(alloc, &self.engine, epoch, stepped) {
            Ok(told) => told,
            Err(WantOfMemory) => return Err(Stop::WantOfMemory),
        };
        self.latest = moment;
        Ok(told)
    }

    // A helper process of a class of this epoch runs.
    pub(crate) fn started(
        &mut self,
        alloc: Global,
        epoch: EpochNo,
        class: &Text,
        now: Moment,
    ) -> Result<Told, Stop>
        ensures making { IsMaking (machine_of self.old) (machine_of self.new) now
            (event.Started epoch class.now) result }
        ensures left { IsLeft (machine_of self.old) (machine_of self.new) result }
        ensures row { IfOk result (λ told. is_row (event.Started epoch class.now) told ≡ true) }
        ensures latest { OnOk result (self.new.latest ≡ max now self.old.latest) }
    {
        // For the proof: what holds of the pools.
        self.pools.facts();
        let moment = later(now, self.latest);
        let Some(place) = place_of(&self.engine, epoch, class) else {
            return Err(Stop::Refused);
        };
        let proc = match self.engine.started(alloc, epoch, place, moment) {
            Ok(proc) => proc,
            Err(refusal) => return Err(stop_by(refusal)),
        };
        self.latest = moment;
        Ok(Told::Proc(proc))
    }

    // A helper process of a class of this epoch could not be started.
    pub(crate) fn start_failed(
        &mut self,
        epoch: EpochNo,
        class: &Text,
        now: Moment,
    ) -> Result<Told, Stop>
        ensures making { IsMaking (machine_of self.old) (machine_of self.new) now
            (event.StartFail epoch class.now) result }
        ensures left { IsLeft (machine_of self.old) (machine_of self.new) result }
        ensures row { IfOk result (λ told. is_row (event.StartFail epoch class.now) told ≡ true) }
        ensures latest { OnOk result (self.new.latest ≡ max now self.old.latest) }
    {
        // For the proof: what holds of the pools.
        self.pools.facts();
        let moment = later(now, self.latest);
        let Some(place) = place_of(&self.engine, epoch, class) else {
            return Err(Stop::Refused);
        };
        match self.engine.start_failed(epoch, place, moment) {
            Ok(()) => {}
            Err(refusal) => return Err(stop_by(refusal)),
        }
        self.latest = moment;
        Ok(Told::Fine)
    }

    // A helper process wrote a line.
    pub(crate) fn line(
        &mut self,
        alloc: Global,
        proc: ProcNo,
        bytes: &Text,
        now: Moment,
    ) -> Result<Told, Stop>
        ensures making { IsMaking (machine_of self.old) (machine_of self.new) now
            (event.Line proc bytes.now) result }
        ensures left { IsLeft (machine_of self.old) (machine_of self.new) result }
        ensures row { IfOk result (λ told. is_row (event.Line proc bytes.now) told ≡ true) }
        ensures latest { OnOk result (self.new.latest ≡ max now self.old.latest) }
    {
        // For the proof: what holds of the pools.
        self.pools.facts();
        let moment = later(now, self.latest);
        let got = match self.engine.line(alloc, proc, bytes.as_bytes(), moment) {
            Ok(got) => got,
            Err(refusal) => return Err(stop_by(refusal)),
        };
        self.latest = moment;
        Ok(got_of(got))
    }
}
