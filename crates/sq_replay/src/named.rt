//! The file that a reconfiguration names, read and judged.
ghost use Rattle.std.specs.Prelude.{◌≡◌, ℕ, Some, IfErr, OnOk};
ghost use Rattle.sq_outside.specs.Told.{IsNotTold};
ghost use Rattle.sq_replay.specs.Entering.{IfMissed, IsJudgeEnd, IsNamingEnd, Judges, NamedReads, NamingHasCauses};
ghost use Rattle.sq_replay.specs.Openings.{Added, StepOpened};
ghost use Rattle.sq_replay.specs.RunText.{Shelf};
ghost use Rattle.sq_rules.specs.ConfText.{conf_result};
ghost use Rattle.sq_replay.specs.Runs.{Adds, AddsCount, Tells, missed_by};

use crate::ends::RunEnd;
use sq_base::Text;
use sq_conf::{ConfFault, read_config};
use sq_outside::{Files, NoOpen, read_file};
use sq_rules::{ConfError, Kind, TEXT_LIMIT};
use sq_urlmatch::Setup;
use std::alloc::Global;

// The configuration of a text.
fn judge(alloc: Global, text: &[u8]) -> Result<Setup, RunEnd>
    ensures judges { Judges (conf_result text.now) result }
    ensures end { IfErr result IsJudgeEnd }
{
    match read_config(alloc, text) {
        Ok(setup) => Ok(setup),
        Err(ConfFault::At(fault)) => Err(RunEnd::Config(fault)),
        Err(ConfFault::WantOfMemory) => Err(RunEnd::WantOfMemory),
    }
}

/// Reads the file of this name, and the configuration that its text states.
pub fn read_named<F: Files>(
    alloc: Global,
    name: Text,
    files: &mut F,
) -> Result<(Text, Setup), RunEnd>
    ensures reads { (shelf : Shelf) (e : ℕ)
        → Tells (F.texts files.old) (F.opened files.old) (F.opened files.new) shelf e
        (missed_by result)
        → NamedReads name (shelf e name) result }
    ensures adds { Adds (F.opened files.old) (F.opened files.new) }
    ensures counts { OnOk result (AddsCount (F.opened files.old) (F.opened files.new) 1) }
    ensures opens { (number : ℕ)
        → Added (F.opened files.old) (F.opened files.new) (StepOpened number (Some name) result) }
    ensures missing { IfMissed (missed_by result) (IsNotTold (F.texts files.old)) }
    ensures end { IfErr result IsNamingEnd }
    ensures causes { NamingHasCauses (F.faults files.old) (F.faults files.new) result }
    ensures texts { F.texts files.new ≡ F.texts files.old }
{
    let text = match read_file(alloc, TEXT_LIMIT, &name, files) {
        Ok(Some(text)) => text,
        Ok(None) => {
            let kind = Kind::TooMany;
            return Err(RunEnd::Config(ConfError { line: 0, kind }));
        }
        Err(NoOpen::Failed) => return Err(RunEnd::ReadFault),
        Err(NoOpen::WantOfMemory) => return Err(RunEnd::WantOfMemory),
        Err(NoOpen::Missing) => return Err(RunEnd::Missing(name)),
    };
    match judge(alloc, text.as_bytes()) {
        Ok(setup) => Ok((text, setup)),
        Err(end) => Err(end),
    }
}
