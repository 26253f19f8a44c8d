//! What comes to the rewriter while a question waits.
ghost use Rattle.sq_turns.specs.Tellings.{Works};
ghost use Rattle.sq_mem_hub.specs.MemHubs.{WorksOn};

use crate::acting::Asked;
use sq_base::{ProcNo, Text};
use sq_rewrite::{RewriteAct, Rewriter};
use std::alloc::Global;
use std::sync::Wait;

// Makes all acts of the rewriter that are due, and says of each start that the process is there.
pub(crate) fn work<R: Wait>(
    rt: &R,
    alloc: Global,
    rewriter: &mut Option<Rewriter>,
    asked: &mut Asked,
)
    ensures works { Works rewriter.old rewriter.new }
{
    match rewriter {
        Some(rewriter) => act_all(rt, alloc, rewriter, asked),
        None => {}
    }
}

// Gives the process of the rewriter that was asked last the next line, or says that it died where there is none.
pub(crate) fn hear_rewriter(
    alloc: Global,
    rewriter: &mut Option<Rewriter>,
    lines: &mut Vec<Text>,
    asked: Asked,
)
    ensures works { Works rewriter.old rewriter.new }
{
    match rewriter {
        Some(rewriter) => hear(alloc, rewriter, lines, asked),
        None => {}
    }
}

// Makes all acts that are due.
fn act_all<R: Wait>(rt: &R, alloc: Global, rewriter: &mut Rewriter, asked: &mut Asked)
    ensures works { WorksOn rewriter.old rewriter.new }
{
    for _ in rt.forever() {
        match rewriter.act() {
            Some(act) => perform(alloc, rewriter, asked, act),
            None => return,
        }
    }
    unreachable!()
}

// Notes which process is asked by an act, or says that the one is there which it starts.
fn perform(alloc: Global, rewriter: &mut Rewriter, asked: &mut Asked, act: RewriteAct)
    ensures works { WorksOn rewriter.old rewriter.new }
{
    match act {
        RewriteAct::Stop(_) => {}
        RewriteAct::Send {
            proc,
            question: _,
            channel: _,
            text: _,
        } => *asked = Asked::Last(proc),
        RewriteAct::Start => start(alloc, rewriter),
    }
}

// Says that a process is there.
fn start(alloc: Global, rewriter: &mut Rewriter)
    ensures works { WorksOn rewriter.old rewriter.new }
{
    let _proc = rewriter.started(alloc);
}

// Gives the process that was asked last the next line, or says that it died where there is none.
fn hear(alloc: Global, rewriter: &mut Rewriter, lines: &mut Vec<Text>, asked: Asked)
    ensures works { WorksOn rewriter.old rewriter.new }
{
    match asked {
        Asked::Nobody => {}
        Asked::Last(proc) => give_line(alloc, rewriter, proc, lines.pop()),
    }
}

// Gives the process a line, or says that it died where there is none.
fn give_line(alloc: Global, rewriter: &mut Rewriter, proc: ProcNo, line: Option<Text>)
    ensures works { WorksOn rewriter.old rewriter.new }
{
    match line {
        Some(line) => {
            let _got = rewriter.line(alloc, proc, line.as_bytes());
        }
        None => {
            let _died = rewriter.died(proc);
        }
    }
}
