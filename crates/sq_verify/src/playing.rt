//! The events of a journal, played.
ghost use Rattle.std.specs.Prelude.{◌≡◌, true, IfOk};
ghost use Rattle.sq_rules.specs.Configurations.{IsConfiguration};
ghost use Rattle.sq_machine.specs.Entries.{is_event, is_row};
ghost use Rattle.sq_machine.specs.declared.entries.Event.TheVariants as event;
ghost use Rattle.sq_verify.specs.Promised.{Accepts, Plays, stop_for};

use crate::players::Player;
use sq_base::{Moment, Text, WantOfMemory};
use sq_conf::{ConfFault, read_config};
use sq_machine::{Event, Told};
use sq_replay::Stop;
use sq_urlmatch::Setup;
use std::alloc::Global;

/// Makes the event of a line behind the first.
pub fn play<M: Player>(
    alloc: Global,
    machine: &mut M,
    event: &Event,
    now: Moment,
) -> Result<Told, Stop>
    requires { is_event event.now ≡ true }
    ensures plays { Plays (M.machine machine.old) (M.machine machine.new) now event.now result }
    ensures row { IfOk result (λ told. is_row event.now told ≡ true) }
{
    match event {
        Event::Act => act(alloc, machine, now),
        Event::Reconfigure { text } => reconfigure(alloc, machine, text, now),
        _ => machine.make(alloc, event, now),
    }
}

// Makes the act that is due, if there is one.
fn act<M: Player>(alloc: Global, machine: &mut M, now: Moment) -> Result<Told, Stop>
    ensures plays { Plays (M.machine machine.old) (M.machine machine.new) now event.Act result }
    ensures row { IfOk result (λ told. is_row event.Act told ≡ true) }
{
    match machine.act_at(alloc, now) {
        Ok(Some(told)) => Ok(told),
        Ok(None) => Err(Stop::Refused),
        Err(WantOfMemory) => Err(Stop::WantOfMemory),
    }
}

// Makes a reconfiguration, whose entry holds the text of its configuration.
fn reconfigure<M: Player>(
    alloc: Global,
    machine: &mut M,
    text: &Text,
    now: Moment,
) -> Result<Told, Stop>
    ensures plays { Plays (M.machine machine.old) (M.machine machine.new) now
        (event.Reconfigure text.now) result }
    ensures row { IfOk result (λ told. is_row (event.Reconfigure text.now) told ≡ true) }
{
    let setup = match accept(alloc, text.as_bytes()) {
        Ok(setup) => setup,
        Err(stop) => return Err(stop),
    };
    machine.reconfigure(alloc, setup, now)
}

// The configuration of a text.
fn accept(alloc: Global, text: &[u8]) -> Result<Setup, Stop>
    ensures { Accepts text.now result }
{
    match read_config(alloc, text) {
        Ok(setup) => Ok(setup),
        Err(fault) => Err(stop_by(fault)),
    }
}

// Why a text gives no configuration.
fn stop_by(fault: ConfFault) -> Stop
    ensures { result ≡ stop_for fault }
{
    match fault {
        ConfFault::At(_) => Stop::Refused,
        ConfFault::WantOfMemory => Stop::WantOfMemory,
    }
}

/// What holds of a configuration: it changes nothing, and its contract says it to a proof.
pub fn configuration_facts(setup: &Setup)
    ensures { IsConfiguration setup.now }
{
    setup.config().facts();
}
