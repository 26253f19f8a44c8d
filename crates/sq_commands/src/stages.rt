//! The files of a command, read and judged.
ghost use Rattle.std.specs.Prelude.{◌≡◌, ◌≤◌, IfSome, IfErr, IfOk, IsErrOf};
ghost use Rattle.sq_outside.specs.Causes.{Rose};
ghost use Rattle.sq_commands.specs.declared.ends.Status.TheVariants as ends;
ghost use Rattle.sq_rules.specs.ConfText.{conf_result};
ghost use Rattle.sq_rules.specs.Configurations.{IsConfiguration};
ghost use Rattle.sq_commands.specs.Commands.{conf_read, conf_stage};
ghost use Rattle.sq_commands.specs.Opened.{IsOnce, first_text};
ghost use Rattle.sq_commands.specs.Ends.{Comes, IsConfEnd, IsMissingOr, IsOpenEnd};
ghost use Rattle.sq_replay.specs.Openings.{Added};

use crate::ends::Status;
use sq_base::{Copying, Text, WantOfMemory};
use sq_conf::{ConfFault, read_config};
use sq_outside::{Files, NoOpen, read_file};
use sq_rules::{Kind, TEXT_LIMIT};
use sq_urlmatch::Setup;
use std::alloc::Global;

/// The status of a file that is not there.
pub fn missing(alloc: Global, name: &Text) -> Status
    ensures { IsMissingOr name.now result }
{
    match name.copy(alloc) {
        Ok(name) => Status::Missing(name),
        Err(WantOfMemory) => Status::WantOfMemory,
    }
}

/// The configuration of a text.
pub fn judge_text(alloc: Global, text: &[u8]) -> Result<Setup, Status>
    ensures comes { Comes result (conf_read (conf_result text.now)) }
    ensures good { IfOk result IsConfiguration }
    ensures end { IfErr result IsConfEnd }
{
    match read_config(alloc, text) {
        Ok(setup) => {
            // For the proof: what holds of the configuration.
            setup.config().facts();
            Ok(setup)
        }
        Err(ConfFault::At(fault)) => Err(Status::Config {
            line: fault.line,
            kind: fault.kind,
        }),
        Err(ConfFault::WantOfMemory) => Err(Status::WantOfMemory),
    }
}

/// Reads the configuration of the file of this name.
pub fn open_conf<F: Files>(alloc: Global, name: &Text, files: &mut F) -> Result<Setup, Status>
    ensures comes { IfSome (F.texts files.old)
        (λ disk. Comes result (conf_stage name.now (disk name.now))) }
    ensures good { IfOk result IsConfiguration }
    ensures end { IfErr result (IsOpenEnd (F.texts files.old) name.now) }
    ensures later { F.faults files.old ≤ F.faults files.new }
    ensures read { IfErr result
        (λ end. end ≡ ends.ReadFault → Rose (F.faults files.old) (F.faults files.new)) }
    ensures quiet { (IsErrOf result ends.ReadFault → ⊥) → F.faults files.new ≡ F.faults files.old }
    ensures texts { F.texts files.new ≡ F.texts files.old }
    // Where openings are told: the file was opened once at most, and this came of its text.
    ensures opened { Added (F.opened files.old) (F.opened files.new)
        (λ more. IsOnce name.now more × Comes result (conf_stage name.now (first_text more))) }
{
    let text = match read_file(alloc, TEXT_LIMIT, name, files) {
        Ok(Some(text)) => text,
        Ok(None) => {
            let kind = Kind::TooMany;
            return Err(Status::Config { line: 0, kind });
        }
        Err(NoOpen::Failed) => return Err(Status::ReadFault),
        Err(NoOpen::WantOfMemory) => return Err(Status::WantOfMemory),
        Err(NoOpen::Missing) => return Err(missing(alloc, name)),
    };
    judge_text(alloc, text.as_bytes())
}
