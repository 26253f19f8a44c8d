//! The rehearsal, and the line that sums it up.
ghost use Rattle.std.specs.Prelude.{ℕ, IfErr};
ghost use Rattle.sq_commands.specs.Commands.{rehearse_output, rehearsed_stage};
ghost use Rattle.sq_commands.specs.Ends.{Comes, HasCauses, IsConfEnd, IsRehearsedEnd};
ghost use Rattle.sq_commands.specs.Outputs.{Delivers};

use crate::ends::Status;
use crate::rehearsals::{configuration, rehearse as run};
use crate::stages::judge_text;
use sq_base::{Text, WantOfMemory};
use sq_outside::{Failed, Sink, write_all};
use std::alloc::Global;

// The line of a rehearsal of so many requests, which asks as many.
fn summed(alloc: Global, count: u32) -> Result<Text, Status>
    ensures comes { Comes result (rehearsed_stage count) }
    ensures end { IfErr result IsConfEnd }
{
    let setup = match judge_text(alloc, configuration()) {
        Ok(setup) => setup,
        Err(end) => return Err(end),
    };
    let summary = match run(alloc, setup, count) {
        Ok(summary) => summary,
        Err(WantOfMemory) => return Err(Status::WantOfMemory),
    };
    match summary.line(alloc) {
        Ok(line) => Ok(line),
        Err(WantOfMemory) => Err(Status::WantOfMemory),
    }
}

/// Rehearses so many requests, and writes the line that sums up what came of them.
pub fn rehearse<O: Sink>(alloc: Global, count: u32, out: &mut O) -> Status
    ensures delivers { Delivers (O.contents out.old) (O.contents out.new) (O.faults out.old)
        (O.faults out.new) (rehearse_output count) result }
    ensures end { IsRehearsedEnd result }
    ensures causes { (files : ℕ)
        → HasCauses files files (O.faults out.old) (O.faults out.new) result }
{
    let line = match summed(alloc, count) {
        Ok(line) => line,
        Err(end) => return end,
    };
    match write_all(out, line.as_bytes()) {
        Ok(()) => Status::Ok,
        Err(Failed) => Status::WriteFault,
    }
}
