//! The commands over files alone.
ghost use Rattle.std.specs.Prelude.{◌≡◌, ◌≤◌, ◌↔◌, ◌⊎◌, ℕ, List, Option, true, None, Some, IfSome};
ghost use Rattle.sq_outside.specs.Causes.{Rose};
ghost use Rattle.sq_outside.specs.Told.{IsNotTold};
ghost use Rattle.sq_outside.specs.Output.{Grew};
ghost use Rattle.sq_outside.specs.SourceLines.{lines};
ghost use Rattle.sq_commands.specs.declared.ends.Status.TheVariants as ends;
ghost use Rattle.sq_commands.specs.Commands.{command_of, output_of, parse_output, ran_output, replay_output, script_stage, shelf_of, staged, AuditsFiles, IsNamed, MigratesTruly, Parse, Replay, RunsTruly};
ghost use Rattle.sq_commands.specs.Ends.{EndsBy, EndsWithoutFault, HasCauses, IfMissing, IsPlayedEnd, IsReplayEnd, IsToldEnd, end_of, run_status};
ghost use Rattle.sq_replay.specs.RunText.{ScriptRun, run_script};
ghost use Rattle.sq_replay.specs.Runs.{Reaches};
ghost use Rattle.sq_commands.specs.Opened.{CameOf, CommandOpened, PlayOpened};
ghost use Rattle.sq_commands.specs.Outputs.{Delivers, IsOutput, IsSettled, failed_end, is_write_fault};
ghost use Rattle.sq_replay.specs.Openings.{Added};

use crate::command::{Command, read_command};
use crate::ends::{Status, status_of};
use crate::last_line::finish;
use crate::migrating::migrate;
use crate::parsing::parse_text;
use crate::rehearsing::rehearse;
use crate::stages::{missing, open_conf};
use crate::verifying::verify;
use sq_base::{Text, WantOfMemory};
use sq_outside::{Failed, Files, NoOpen, Sink, write_all};
use sq_replay::{RunEnd, replay as run, write_page};
use sq_urlmatch::Setup;
use std::alloc::Global;

// Whether a run ended since its output could not be written.
fn is_write_fault(end: &Status) -> bool
    ensures { result ≡ is_write_fault end.now }
{
    match end {
        Status::WriteFault => true,
        _ => false,
    }
}

// How a run ends whose last page could not be written: a fault that ended it stays, and any other end
// becomes a write fault.
fn failed_end(end: Status) -> Status
    ensures { result ≡ failed_end end }
{
    match end {
        Status::ReadFault => Status::ReadFault,
        Status::WantOfMemory => Status::WantOfMemory,
        _ => Status::WriteFault,
    }
}

// Writes what the page holds at the end of a run.
fn settle<O: Sink>(page: &mut Vec<u8>, out: &mut O, end: RunEnd) -> Status
    ensures delivers { (base : Option (List ℕ)) (ran : ScriptRun)
        → Reaches base (O.contents out.old) page.old.items ran end
        → Delivers base (O.contents out.new) (O.faults out.old) (O.faults out.new) (ran_output ran)
        result }
    ensures same { IsSettled (run_status end) result }
    ensures read { run_status end ≡ ends.ReadFault → result ≡ ends.ReadFault }
    ensures later { O.faults out.old ≤ O.faults out.new }
    ensures write { result ≡ ends.WriteFault
        → (run_status end ≡ ends.WriteFault) ⊎ Rose (O.faults out.old) (O.faults out.new) }
    ensures quiet { IsToldEnd (end_of result) → O.faults out.new ≡ O.faults out.old }
{
    let end = status_of(end);
    if is_write_fault(&end) {
        return end;
    }
    match write_page(page, out) {
        Ok(()) => end,
        Err(Failed) => failed_end(end),
    }
}

// Runs the script of the file of this name over a configuration.
fn play<F: Files, O: Sink>(
    alloc: Global,
    setup: Setup,
    script: &Text,
    files: &mut F,
    out: &mut O,
) -> Status
    ensures delivers { IfSome (F.texts files.old)
        (λ disk. Delivers (O.contents out.old) (O.contents out.new) (O.faults out.old)
        (O.faults out.new)
        (staged (script_stage script.now (disk script.now))
        (λ text. ran_output (run_script (shelf_of disk) setup (lines text)))) result) }
    ensures opened { Added (F.opened files.old) (F.opened files.new)
        (PlayOpened script.now setup (O.contents out.old) (O.contents out.new) (O.faults out.old)
        (O.faults out.new) result) }
    ensures end { IsReplayEnd (F.texts files.old) result }
    ensures causes { HasCauses (F.faults files.old) (F.faults files.new) (O.faults out.old)
        (O.faults out.new) result }
{
    let mut source = match files.open(alloc, script) {
        Ok(source) => source,
        Err(NoOpen::Missing) => return missing(alloc, script),
        Err(NoOpen::Failed) => return Status::ReadFault,
        Err(NoOpen::WantOfMemory) => return Status::WantOfMemory,
    };
    let mut page = Vec::new(alloc);
    let end = run(alloc, setup, &mut source, files, &mut page, out);
    files.give_back(source);
    settle(&mut page, out, end)
}

// Runs a script over a configuration, each in a file.
fn replay<F: Files, O: Sink>(
    alloc: Global,
    conf: &Text,
    script: &Text,
    files: &mut F,
    out: &mut O,
) -> Status
    ensures delivers { IfSome (F.texts files.old)
        (λ disk. Delivers (O.contents out.old) (O.contents out.new) (O.faults out.old)
        (O.faults out.new)
        (replay_output disk conf.now script.now) result) }
    ensures opened { Added (F.opened files.old) (F.opened files.new)
        (CommandOpened (Some (Replay conf.now script.now)) (O.contents out.old) (O.contents out.new)
        (O.faults out.old) (O.faults out.new) result) }
    ensures end { IsReplayEnd (F.texts files.old) result }
    ensures causes { HasCauses (F.faults files.old) (F.faults files.new) (O.faults out.old)
        (O.faults out.new) result }
{
    match open_conf(alloc, conf, files) {
        Ok(setup) => play(alloc, setup, script, files, out),
        Err(end) => end,
    }
}

// Reads a configuration, and writes what it counts.
fn parse<F: Files, O: Sink>(alloc: Global, conf: &Text, files: &mut F, out: &mut O) -> Status
    ensures delivers { IfSome (F.texts files.old)
        (λ disk. Delivers (O.contents out.old) (O.contents out.new) (O.faults out.old)
        (O.faults out.new)
        (parse_output disk conf.now) result) }
    ensures opened { Added (F.opened files.old) (F.opened files.new)
        (CommandOpened (Some (Parse conf.now)) (O.contents out.old) (O.contents out.new)
        (O.faults out.old) (O.faults out.new) result) }
    ensures end { IsPlayedEnd (F.texts files.old) conf.now result }
    ensures causes { HasCauses (F.faults files.old) (F.faults files.new) (O.faults out.old)
        (O.faults out.new) result }
{
    let setup = match open_conf(alloc, conf, files) {
        Ok(setup) => setup,
        Err(end) => return end,
    };
    let text = match parse_text(alloc, setup.config()) {
        Ok(text) => text,
        Err(WantOfMemory) => return Status::WantOfMemory,
    };
    match write_all(out, text.as_bytes()) {
        Ok(()) => Status::Ok,
        Err(Failed) => Status::WriteFault,
    }
}

// Does what the words say, but for the last line.
fn run_words<F: Files, O: Sink>(alloc: Global, words: &[Text], files: &mut F, out: &mut O) -> Status
    ensures delivers { IfSome (F.texts files.old)
        (λ disk. Delivers (O.contents out.old) (O.contents out.new) (O.faults out.old)
        (O.faults out.new)
        (output_of disk words.now) result) }
    ensures opened { Added (F.opened files.old) (F.opened files.new)
        (CommandOpened (command_of words.now) (O.contents out.old) (O.contents out.new)
        (O.faults out.old) (O.faults out.new) result) }
    ensures usage { (result ≡ ends.Usage) ↔ (command_of words.now ≡ None) }
    ensures missing { IfMissing result
        (λ name. IsNamed (F.texts files.old) (command_of words.now) name
        × IsNotTold (F.texts files.old) name) }
    ensures causes { HasCauses (F.faults files.old) (F.faults files.new) (O.faults out.old)
        (O.faults out.new) result }
{
    match read_command(words) {
        Some(Command::Parse { conf }) => parse(alloc, conf, files, out),
        Some(Command::Replay { conf, script }) => replay(alloc, conf, script, files, out),
        Some(Command::Verify { conf, journal }) => verify(alloc, conf, journal, files, out),
        Some(Command::Migrate { journal }) => migrate(alloc, journal, files, out),
        Some(Command::Rehearse { count }) => rehearse(alloc, count, out),
        None => Status::Usage,
    }
}

/// Does what the words say, over these files, and writes what comes of it: `parse CONF` reads the
/// configuration and counts what it states, `replay CONF SCRIPT` runs the script over the configuration
/// and writes a line for each event, `verify CONF JOURNAL` judges the journal over the configuration,
/// `migrate JOURNAL` writes a journal of version 1 as one of version 2, and `rehearse N` runs a rehearsal of
/// so many requests and writes what came of them. The words are those after the program's name; other words, those of a
/// server too, are no command here.
pub fn run_command<F: Files, O: Sink>(
    alloc: Global,
    words: &[Text],
    files: &mut F,
    out: &mut O,
) -> Status
    // What it writes, where the files and the sink tell: the command's text, and the last line.
    ensures bytes { IfSome (F.texts files.old)
        (λ disk. Grew (O.contents out.old) (O.contents out.new)
        (IsOutput (output_of disk words.now) (O.faults out.old) (O.faults out.new) result)) }
    // Where the files tell their openings: CONF is opened first, once, then JOURNAL, once, or SCRIPT, and then what its lines name, as
    // far as it was run, in their order, and nothing else; a rehearsal opens none. What is written, how it ends, and what is true of a
    // run and of a journal that was judged, comes of the texts that these openings gave.
    ensures opened { Added (F.opened files.old) (F.opened files.new)
        (CameOf (command_of words.now) (O.contents out.old) (O.contents out.new) (O.faults out.old)
        (O.faults out.new) result) }
    // How it ends, where the files tell: so, or by a fault.
    ensures ended { IfSome (F.texts files.old)
        (λ disk. EndsBy (output_of disk words.now).end result) }
    // How it ends, where the files tell and no count rises: so, or by want of memory.
    ensures complete { IfSome (F.texts files.old) (λ disk.
        (Rose (F.faults files.old) (F.faults files.new) → ⊥)
        → (Rose (O.faults out.old) (O.faults out.new) → ⊥)
        → EndsWithoutFault (output_of disk words.now).end result) }
    // The history of a run is legal; each verdict in it is that of the configuration current when its check began, over what the
    // check saw then and answers that have their sources; each reconfiguration's is the configuration of its text; and between any two
    // places no bucket grants more than its level and what was restored.
    ensures truly { IfSome (F.texts files.old) (λ disk. RunsTruly disk words.now) }
    // Of a journal that was migrated whole, to one within the limits, `verify` ends well exactly where it ends well of the one that was read.
    ensures migrates { IfSome (F.texts files.old) (λ disk. MigratesTruly disk words.now) }
    // After `Ok` a journal that was judged is, byte for byte, the text of a history over the configuration that CONF holds and those that
    // the journal's reconfigurations hold, and all holds of it that holds of every run.
    ensures audits { result ≡ ends.Ok
        → IfSome (F.texts files.old) (λ disk. AuditsFiles disk words.now) }
    ensures usage { (result ≡ ends.Usage) ↔ (command_of words.now ≡ None) }
    ensures missing { IfMissing result
        (λ name. IsNamed (F.texts files.old) (command_of words.now) name
        × IsNotTold (F.texts files.old) name) }
    ensures read { result ≡ ends.ReadFault → Rose (F.faults files.old) (F.faults files.new) }
    ensures write { result ≡ ends.WriteFault → Rose (O.faults out.old) (O.faults out.new) }
    // The first fault of a device ends the run: where it ended otherwise, no count rose.
    ensures files_quiet { (result ≡ ends.ReadFault → ⊥) → F.faults files.new ≡ F.faults files.old }
    ensures out_quiet { result ≡ ends.Ok → O.faults out.new ≡ O.faults out.old }
    ensures files_later { F.faults files.old ≤ F.faults files.new }
    ensures out_later { O.faults out.old ≤ O.faults out.new }
{
    let status = run_words(alloc, words, files, out);
    finish(out, status)
}
