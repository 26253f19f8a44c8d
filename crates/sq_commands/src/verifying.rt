//! Journals, judged over the configuration that they begin with.
ghost use Rattle.std.specs.Prelude.{◌≡◌, ◌≤◌, IfSome, Some};
ghost use Rattle.sq_outside.specs.Causes.{Rose};
ghost use Rattle.sq_commands.specs.declared.ends.Status.TheVariants as ends;
ghost use Rattle.sq_commands.specs.Commands.{found_output, journal_output, script_stage, staged, verify_output, Verify};
ghost use Rattle.sq_commands.specs.Ends.{HasCauses, IsFoundEnd, IsPlayedEnd, IsToldEnd, IsVerifyEnd, end_of};
ghost use Rattle.sq_commands.specs.Opened.{CommandOpened, JournalOpened};
ghost use Rattle.sq_commands.specs.Outputs.{Delivers};
ghost use Rattle.sq_replay.specs.Openings.{Added};
ghost use Rattle.sq_verify.specs.Judging.{Judged};
ghost use Rattle.sq_verify.specs.Promised.{Comes};
ghost use Rattle.sq_verify.specs.declared.findings.Finding.TheVariants as finding;

use crate::ends::Status;
use crate::stages::{missing, open_conf};
use sq_base::Text;
use sq_outside::{Failed, Files, NoOpen, Sink};
use sq_replay::ScriptMachine;
use sq_urlmatch::Setup;
use sq_verify::{Finding, judge, write_finding};
use std::alloc::Global;

// Writes how many entries were verified.
fn write_count<O: Sink>(out: &mut O, count: u64) -> Status
    ensures delivers { (judged : Judged) → Comes judged (finding.Verified count)
        → Delivers (O.contents out.old) (O.contents out.new) (O.faults out.old) (O.faults out.new)
        (found_output judged.found) result }
    ensures end { IsFoundEnd (finding.Verified count) result }
    ensures later { O.faults out.old ≤ O.faults out.new }
    ensures write { result ≡ ends.WriteFault → Rose (O.faults out.old) (O.faults out.new) }
    ensures quiet { IsToldEnd (end_of result) → O.faults out.new ≡ O.faults out.old }
{
    match write_finding(out, &Finding::Verified(count)) {
        Ok(()) => Status::Ok,
        Err(Failed) => Status::WriteFault,
    }
}

// Ends the command by what was found of a journal.
fn settle_finding<O: Sink>(out: &mut O, found: Finding) -> Status
    ensures delivers { (judged : Judged) → Comes judged found
        → Delivers (O.contents out.old) (O.contents out.new) (O.faults out.old) (O.faults out.new)
        (found_output judged.found) result }
    ensures end { IsFoundEnd found result }
    ensures later { O.faults out.old ≤ O.faults out.new }
    ensures write { result ≡ ends.WriteFault → Rose (O.faults out.old) (O.faults out.new) }
    ensures quiet { IsToldEnd (end_of result) → O.faults out.new ≡ O.faults out.old }
{
    match found {
        Finding::Verified(count) => write_count(out, count),
        Finding::Script(line) => Status::Script(line),
        Finding::Differs {
            line,
            machine,
            journal,
        } => Status::Differs {
            line,
            machine,
            journal,
        },
        Finding::ReadFault => Status::ReadFault,
        Finding::WantOfMemory => Status::WantOfMemory,
    }
}

// Judges the journal of the file of this name.
fn judge_file<F: Files, O: Sink>(
    alloc: Global,
    setup: Setup,
    journal: &Text,
    files: &mut F,
    out: &mut O,
) -> Status
    ensures delivers { IfSome (F.texts files.old)
        (λ disk. Delivers (O.contents out.old) (O.contents out.new) (O.faults out.old)
        (O.faults out.new)
        (staged (script_stage journal.now (disk journal.now)) (journal_output setup)) result) }
    ensures opened { Added (F.opened files.old) (F.opened files.new)
        (JournalOpened journal.now (journal_output setup) (O.contents out.old) (O.contents out.new)
        (O.faults out.old) (O.faults out.new) result) }
    ensures end { IsPlayedEnd (F.texts files.old) journal.now result }
    ensures causes { HasCauses (F.faults files.old) (F.faults files.new) (O.faults out.old)
        (O.faults out.new) result }
{
    let mut source = match files.open(alloc, journal) {
        Ok(source) => source,
        Err(NoOpen::Missing) => return missing(alloc, journal),
        Err(NoOpen::Failed) => return Status::ReadFault,
        Err(NoOpen::WantOfMemory) => return Status::WantOfMemory,
    };
    let found = judge::<ScriptMachine, F::Src>(alloc, setup, &mut source);
    files.give_back(source);
    settle_finding(out, found)
}

/// Judges a journal, in a file, over the configuration that it begins with, in another.
pub fn verify<F: Files, O: Sink>(
    alloc: Global,
    conf: &Text,
    journal: &Text,
    files: &mut F,
    out: &mut O,
) -> Status
    ensures delivers { IfSome (F.texts files.old)
        (λ disk. Delivers (O.contents out.old) (O.contents out.new) (O.faults out.old)
        (O.faults out.new)
        (verify_output disk conf.now journal.now) result) }
    ensures opened { Added (F.opened files.old) (F.opened files.new)
        (CommandOpened (Some (Verify conf.now journal.now)) (O.contents out.old)
        (O.contents out.new) (O.faults out.old) (O.faults out.new) result) }
    ensures end { IsVerifyEnd (F.texts files.old) conf.now journal.now result }
    ensures causes { HasCauses (F.faults files.old) (F.faults files.new) (O.faults out.old)
        (O.faults out.new) result }
{
    match open_conf(alloc, conf, files) {
        Ok(setup) => judge_file(alloc, setup, journal, files, out),
        Err(end) => end,
    }
}
