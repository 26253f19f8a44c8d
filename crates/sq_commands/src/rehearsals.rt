//! The run of a rehearsal.
ghost use Rattle.std.specs.Prelude.{◌≡◌, ◌+◌, ◌<◌, ◌≤◌, ◌^◌, List, Some, suc, false, true, IfOk, OnOk};
ghost use Rattle.sq_rules.specs.Configurations.{Configuration, IsConfiguration};
ghost use Rattle.sq_machine.specs.Entries.{History};
ghost use Rattle.sq_replay.specs.MachineViews.{machine_of};
ghost use Rattle.sq_replay.specs.Runs.{Is};
ghost use Rattle.sq_commands.specs.Driving.{event_of, is_acting};
ghost use Rattle.sq_commands.specs.Rehearsals.{configuration_text, drive, rehearsal, turn_limit};
ghost use Rattle.sq_commands.specs.Summaries.{counted, total};
ghost use Rattle.sq_commands.specs.Turns.{Turned, TurnsTo};

use crate::drivers::Driver;
use crate::summaries::Summary;
use sq_base::{Moment, WantOfMemory};
use sq_machine::{Event, Offset};
use sq_replay::{ScriptMachine, Stop};
use sq_urlmatch::Setup;
use std::alloc::Global;

/// The configuration that is rehearsed.
const CONFIGURATION: &[u8] =
    b"external_acl_type v ttl=5 negative_ttl=2 grace=50 children-max=2 concurrency=4 %>rd /bin/h\nacl lan src 10.0.0.0/8\nacl odd external v\nacl web port 80\nhttp_access deny !web\nhttp_access allow lan odd\n";

/// The text of the configuration that is rehearsed.
#[tactic(auto, unfolding(crate::specs::Rehearsals::configuration_text))]
pub fn configuration() -> &'static [u8]
    ensures { result.now ≡ configuration_text }
{
    CONFIGURATION
}

// How many turns a rehearsal of so many requests has at most.
fn turn_limit(count: u32) -> u64
    ensures { result ≡ turn_limit count }
{
    32 * count as u64 + 32
}

// Makes the act that is due at the driver's moment, if one is.
fn make_act(
    alloc: Global,
    machine: &mut ScriptMachine,
    driver: &mut Driver,
    summary: &mut Summary,
) -> Result<(), WantOfMemory>
    requires acting { is_acting driver.old.stage ≡ true }
    requires few { total summary.old < 2 ^ 63 }
    ensures turns { OnOk result
        ((configs : List Configuration) (h : History) → Is (machine_of machine.old) configs h
        → summary.old ≡ counted h
        → TurnsTo configs h driver.old (machine_of machine.new) summary.new driver.new) }
    ensures few { OnOk result (total summary.new ≤ suc (total summary.old)) }
{
    match machine.act_at(alloc, driver.moment())? {
        None => driver.acted(),
        Some(told) => {
            summary.count(&told);
            driver.answered(told)
        }
    }
}

// Makes the event that the driver wants, at its moment. One that the machine refuses is left out.
fn make_event(
    alloc: Global,
    event: &Event,
    machine: &mut ScriptMachine,
    driver: &mut Driver,
    summary: &mut Summary,
) -> Result<(), WantOfMemory>
    requires wanted { event_of driver.old ≡ Some event.now }
    requires acting { is_acting driver.old.stage ≡ false }
    requires few { total summary.old < 2 ^ 63 }
    ensures turns { OnOk result
        ((configs : List Configuration) (h : History) → Is (machine_of machine.old) configs h
        → summary.old ≡ counted h
        → TurnsTo configs h driver.old (machine_of machine.new) summary.new driver.new) }
    ensures few { OnOk result (total summary.new ≤ suc (total summary.old)) }
{
    let told = match machine.make(alloc, event, driver.moment()) {
        Ok(told) => told,
        Err(Stop::Refused) => return driver.passed(),
        Err(Stop::WantOfMemory) => return Err(WantOfMemory),
    };
    summary.count(&told);
    driver.answered(told)
}

// One turn of the driver. False where it was the last.
fn turn(
    alloc: Global,
    machine: &mut ScriptMachine,
    driver: &mut Driver,
    summary: &mut Summary,
) -> Result<bool, WantOfMemory>
    requires { total summary.old < 2 ^ 63 }
    ensures turns { IfOk result
        (λ more. (configs : List Configuration) (h : History)
        → Is (machine_of machine.old) configs h → summary.old ≡ counted h
        → Turned configs h driver.old (machine_of machine.new) summary.new driver.new more) }
    ensures few { OnOk result (total summary.new ≤ suc (total summary.old)) }
{
    if driver.is_acting() {
        return match make_act(alloc, machine, driver, summary) {
            Ok(()) => Ok(true),
            Err(WantOfMemory) => Err(WantOfMemory),
        };
    }
    match driver.event(alloc) {
        Ok(Some(event)) => match make_event(alloc, &event, machine, driver, summary) {
            Ok(()) => Ok(true),
            Err(WantOfMemory) => Err(WantOfMemory),
        },
        Ok(None) => Ok(false),
        Err(WantOfMemory) => Err(WantOfMemory),
    }
}

// Drives the machine, this many turns at most.
fn drive(
    alloc: Global,
    turns: u64,
    machine: &mut ScriptMachine,
    driver: &mut Driver,
    summary: &mut Summary,
) -> Result<(), WantOfMemory>
    requires { total summary.old + turns < 2 ^ 63 }
    ensures { OnOk result
        ((configs : List Configuration) (h : History) → Is (machine_of machine.old) configs h
        → summary.old ≡ counted h
        → summary.new ≡ counted (drive configs turns driver.old h)) }
{
    let mut left = turns;
    'turns: while left > 0 {
        match turn(alloc, machine, driver, summary) {
            Ok(true) => {}
            Ok(false) => return Ok(()),
            Err(WantOfMemory) => return Err(WantOfMemory),
        }
        left -= 1;
    }
    Ok(())
}

// Rehearses so many requests, and counts what came of them.
#[tactic(auto, unfolding(crate::specs::Rehearsals::rehearsal))]
fn count_up(alloc: Global, setup: Setup, count: u32) -> Result<Summary, WantOfMemory>
    requires { IsConfiguration setup }
    ensures { IfOk result (λ summary. summary ≡ rehearsal setup count) }
{
    let mut machine = ScriptMachine::begin(alloc, setup, Offset(0), Moment(0))?;
    let mut driver = Driver::new(alloc, count);
    let mut summary = Summary::new();
    drive(
        alloc,
        turn_limit(count),
        &mut machine,
        &mut driver,
        &mut summary,
    )?;
    Ok(summary)
}

/// Rehearses so many requests on the machine over a configuration, and counts what came of them. The history is not kept.
/// It asks as many requests as these.
pub fn rehearse(alloc: Global, setup: Setup, count: u32) -> Result<Summary, WantOfMemory>
    requires { IsConfiguration setup }
    ensures counts { IfOk result (λ summary. summary ≡ rehearsal setup count) }
    ensures asks { IfOk result (λ summary. summary.asks ≡ count) }
{
    let summary = count_up(alloc, setup, count)?;
    Ok(summary)
}
