//! What comes to the machine while a check waits.
ghost use Rattle.sq_turns.specs.Tellings.{DelayPools, Waited};
ghost use Rattle.sq_mem_hub.specs.MemHubs.{hub_state};
ghost use Rattle.sq_rewrite.specs.States.{RewriteState};
ghost use Rattle.std.specs.declared.option.Option.{Option};

use sq_base::{EpochNo, Moment, ProcNo, Text};
use sq_engine::Engine;
use sq_machine::Act;
use std::alloc::Global;
use std::sync::Wait;

/// The process that was asked last, if one was.
#[derive(Clone, Copy, Debug)]
pub enum Asked {
    Nobody,
    Last(ProcNo),
}

// Makes all acts that are due, and says of each start that the process is there.
pub(crate) fn act_all<R: Wait>(
    rt: &R,
    alloc: Global,
    engine: &mut Engine,
    asked: &mut Asked,
    moment: Moment,
)
    ensures waited { (rewriter : Option RewriteState) (pools : DelayPools)
        → Waited (hub_state engine.old rewriter pools moment)
        (hub_state engine.new rewriter pools moment) }
{
    for _ in rt.forever() {
        match engine.act(moment) {
            Some(act) => perform(alloc, engine, asked, act, moment),
            None => return,
        }
    }
    unreachable!()
}

// Notes which process is asked by an act, or says that the one is there which it starts.
fn perform(alloc: Global, engine: &mut Engine, asked: &mut Asked, act: Act, moment: Moment)
    ensures waited { (rewriter : Option RewriteState) (pools : DelayPools)
        → Waited (hub_state engine.old rewriter pools moment)
        (hub_state engine.new rewriter pools moment) }
{
    match act {
        Act::Stop(_) => {}
        Act::Send {
            proc,
            question: _,
            channel: _,
            text: _,
        } => *asked = Asked::Last(proc),
        Act::Start { epoch, class } => start(alloc, engine, epoch, class, moment),
    }
}

// Says that a process of this class is there.
fn start(alloc: Global, engine: &mut Engine, epoch: EpochNo, class: u32, moment: Moment)
    ensures waited { (rewriter : Option RewriteState) (pools : DelayPools)
        → Waited (hub_state engine.old rewriter pools moment)
        (hub_state engine.new rewriter pools moment) }
{
    let _proc = engine.started(alloc, epoch, class, moment);
}

// Gives the process that was asked last the next line, or says that it died where there is none.
pub(crate) fn hear(
    alloc: Global,
    engine: &mut Engine,
    lines: &mut Vec<Text>,
    asked: Asked,
    moment: Moment,
)
    ensures waited { (rewriter : Option RewriteState) (pools : DelayPools)
        → Waited (hub_state engine.old rewriter pools moment)
        (hub_state engine.new rewriter pools moment) }
{
    match asked {
        Asked::Nobody => {}
        Asked::Last(proc) => give_line(alloc, engine, proc, lines.pop(), moment),
    }
}

// Gives the process a line, or says that it died where there is none.
fn give_line(alloc: Global, engine: &mut Engine, proc: ProcNo, line: Option<Text>, moment: Moment)
    ensures waited { (rewriter : Option RewriteState) (pools : DelayPools)
        → Waited (hub_state engine.old rewriter pools moment)
        (hub_state engine.new rewriter pools moment) }
{
    match line {
        Some(line) => {
            let _got = engine.line(alloc, proc, line.as_bytes(), moment);
        }
        None => {
            let _died = engine.died(proc, moment);
        }
    }
}
