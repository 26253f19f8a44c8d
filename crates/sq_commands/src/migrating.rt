//! Journals of version 1, written as those of version 2.
ghost use Rattle.std.specs.Prelude.{◌≡◌, ◌⊎◌, ◌≤◌, ℕ, List, Option, IfSome, Some};
ghost use Rattle.sq_outside.specs.Causes.{Rose};
ghost use Rattle.sq_commands.specs.declared.ends.Status.TheVariants as ends;
ghost use Rattle.sq_commands.specs.Commands.{migrate_output, migrated, Migrate};
ghost use Rattle.sq_commands.specs.Ends.{HasCauses, IsPlayedEnd, IsToldEnd, end_of, migrate_status};
ghost use Rattle.sq_commands.specs.Opened.{CommandOpened};
ghost use Rattle.sq_commands.specs.Outputs.{Delivers, IsSettled, failed_end, is_write_fault};
ghost use Rattle.sq_replay.specs.Openings.{Added};
ghost use Rattle.sq_verify.specs.Migrating.{Migrates, Reading};

use crate::ends::Status;
use crate::stages::missing;
use sq_base::Text;
use sq_outside::{Failed, Files, NoOpen, Sink};
use sq_replay::write_page;
use sq_verify::{MigrateFault, migrate as write_second};
use std::alloc::Global;

// The status of a migration that ends so.
fn migrate_status(ended: Result<(), MigrateFault>) -> Status
    ensures { result ≡ migrate_status ended }
{
    match ended {
        Ok(()) => Status::Ok,
        Err(MigrateFault::Script(line)) => Status::Script(line),
        Err(MigrateFault::ReadFault) => Status::ReadFault,
        Err(MigrateFault::WriteFault) => Status::WriteFault,
        Err(MigrateFault::WantOfMemory) => Status::WantOfMemory,
    }
}

// Whether a migration ended since its output could not be written.
fn is_write_fault(end: &Status) -> bool
    ensures { result ≡ is_write_fault end.now }
{
    match end {
        Status::WriteFault => true,
        _ => false,
    }
}

// How a migration ends whose last page could not be written: a fault that ended it stays, and any other end becomes a
// write fault.
fn failed_end(end: Status) -> Status
    ensures { result ≡ failed_end end }
{
    match end {
        Status::ReadFault => Status::ReadFault,
        Status::WantOfMemory => Status::WantOfMemory,
        _ => Status::WriteFault,
    }
}

// Writes what the page holds at the end of a migration.
fn settle<O: Sink>(page: &mut Vec<u8>, out: &mut O, ended: Result<(), MigrateFault>) -> Status
    ensures delivers { (base : Option (List ℕ)) (read : Reading)
        → Migrates base (O.contents out.old) page.old.items read ended
        → Delivers base (O.contents out.new) (O.faults out.old) (O.faults out.new) (migrated read)
        result }
    ensures same { IsSettled (migrate_status ended) result }
    ensures read { migrate_status ended ≡ ends.ReadFault → result ≡ ends.ReadFault }
    ensures later { O.faults out.old ≤ O.faults out.new }
    ensures write { result ≡ ends.WriteFault
        → (migrate_status ended ≡ ends.WriteFault) ⊎ Rose (O.faults out.old) (O.faults out.new) }
    ensures quiet { IsToldEnd (end_of result) → O.faults out.new ≡ O.faults out.old }
{
    let end = migrate_status(ended);
    if is_write_fault(&end) {
        return end;
    }
    match write_page(page, out) {
        Ok(()) => end,
        Err(Failed) => failed_end(end),
    }
}

/// Writes a journal of version 1, in a file, as one of version 2.
pub fn migrate<F: Files, O: Sink>(
    alloc: Global,
    journal: &Text,
    files: &mut F,
    out: &mut O,
) -> Status
    ensures delivers { IfSome (F.texts files.old)
        (λ disk. Delivers (O.contents out.old) (O.contents out.new) (O.faults out.old)
        (O.faults out.new)
        (migrate_output disk journal.now) result) }
    ensures opened { Added (F.opened files.old) (F.opened files.new)
        (CommandOpened (Some (Migrate journal.now)) (O.contents out.old) (O.contents out.new)
        (O.faults out.old) (O.faults out.new) result) }
    ensures end { IsPlayedEnd (F.texts files.old) journal.now result }
    ensures causes { HasCauses (F.faults files.old) (F.faults files.new) (O.faults out.old)
        (O.faults out.new) result }
{
    let mut source = match files.open(alloc, journal) {
        Ok(source) => source,
        Err(NoOpen::Missing) => return missing(alloc, journal),
        Err(NoOpen::Failed) => return Status::ReadFault,
        Err(NoOpen::WantOfMemory) => return Status::WantOfMemory,
    };
    let mut page = Vec::new(alloc);
    let ended = write_second(alloc, &mut source, &mut page, out);
    files.give_back(source);
    settle(&mut page, out, ended)
}
