//! Each call of a rewriter, made behind its lock.
ghost use Rattle.std.specs.Prelude.{◌<◌};

use crate::desk::desks::append;
use crate::desk::locked::{Table, check};
use sq_base::{ConnNo, Fields, ProcNo, QuestionNo, Request, number_of};
use sq_checks::Record;
use sq_request::make_request;
use sq_rewrite::{Got, RewriteAct, RewriteFault, Rewriter, RewriterCalls, Rewriting};
use sq_rules::Config;
use sq_turns::Hub;
use std::alloc::Global;
use std::process::Abort;

/// The calls, and what they answer. A connection makes the calls `rewrites`, `ask` and `take`: it asks about a request of its
/// client for this target, once that is judged. The others are made for the processes. One that is not made says why.
pub static QUESTIONS: &str = "rewrites => yes
take 1 => question 1 is not known
line 1 OK => process 1 does not live
act => none
ask http://a:82/ => 1
act => start
failed => ok
take 1 => same NoHelper
ask http://b:82/ => 2
ask http://c:82/ => 3
act => start
act => start
started => 1
act => send 1 2 http://b:82/ 10.0.0.8/- - GET
started => 2
act => send 2 3 http://c:82/ 10.0.0.8/- - GET
line 2 OK rewrite-url=http://x/ => reply 3
take 3 => new http://x/
ask http://d:82/ => 4
act => send 2 4 http://d:82/ 10.0.0.8/- - GET
died 2 => ok
take 4 => same Died
take 2 => waits
";

/// What stands in the journal of the requests.
pub const JUDGED: &str = "5 ask 8 GET http://a:82/ => check 8
5 step 8 => done
5 take 8 => epoch 2 denied rule 1
5 ask 8 GET http://b:82/ => check 9
5 step 9 => done
5 take 9 => epoch 2 denied rule 1
5 ask 8 GET http://c:82/ => check 10
5 step 10 => done
5 take 10 => epoch 2 denied rule 1
5 ask 8 GET http://d:82/ => check 11
5 step 11 => done
5 take 11 => epoch 2 denied rule 1
";

// The record of a request that is judged.
fn judged<H: Hub>(rt: &impl Abort, alloc: Global, hub: &mut H, request: Request) -> Record {
    let check = hub.ask(alloc, ConnNo(8), request).expect(rt, "a check");
    hub.step(alloc, check).expect(rt, "a step");
    hub.take(alloc, check).expect(rt, "a record")
}

/// A number below 100.
pub fn number(rt: &impl Abort, word: &str) -> u64
    ensures { result < 100 }
{
    number_of(word.as_bytes(), 100).expect(rt, "a number")
}

// Puts down what a take answers.
fn put_taken(rt: &impl Abort, told: &mut String, gave: Result<Option<Rewriting>, RewriteFault>) {
    let put = match &gave {
        Ok(None) => told.push_str("waits"),
        Ok(Some(Rewriting::Same(Some(cause)))) => write!(told, "same {cause:?}"),
        Ok(Some(Rewriting::New(request))) => write!(told, "new {}", request.target),
        Ok(Some(_)) => told.push_str("?"),
        Err(fault) => write!(told, "{fault}"),
    };
    put.expect(rt, "memory");
}

// Puts down what an act is.
fn put_act(rt: &impl Abort, told: &mut String, act: Option<RewriteAct>) {
    let put = match act {
        None => told.push_str("none"),
        Some(RewriteAct::Start) => told.push_str("start"),
        Some(RewriteAct::Stop(_)) => told.push_str("?"),
        Some(
            RewriteAct::Send {
                proc: ProcNo(proc),
                question: QuestionNo(question),
                text,
                ..
            },
        ) => {
            let text = str::from_utf8(text.as_bytes()).expect(rt, "UTF-8");
            write!(told, "send {proc} {question} {text}")
        }
    };
    put.expect(rt, "memory");
}

// Puts down what a line came to.
fn put_got(rt: &impl Abort, told: &mut String, gave: Result<Got, RewriteFault>) {
    let put = match &gave {
        Ok(Got::Reply(QuestionNo(question), _)) => write!(told, "reply {question}"),
        Ok(Got::Bad) | Ok(Got::Stray) => told.push_str("?"),
        Err(fault) => write!(told, "{fault}"),
    };
    put.expect(rt, "memory");
}

// Asks about a request for this target, once it is judged.
fn ask<H: Hub>(rt: &impl Abort, alloc: Global, hub: &mut H, target: &str) -> QuestionNo {
    let fields = Fields::new(alloc);
    let request = make_request(alloc, b"GET", target.as_bytes(), 1, fields).expect(rt, "a request");
    let record = judged(rt, alloc, hub, request);
    hub.put_rewrite(alloc, &record).expect(rt, "a question")
}

// Makes a call of a connection, and puts down what it answers.
fn answer_asking<H: Hub>(
    rt: &impl Abort,
    alloc: Global,
    hub: &mut H,
    call: &str,
    told: &mut String,
) {
    match call.split_once(' ') {
        Some(("ask", target)) => {
            let QuestionNo(question) = ask(rt, alloc, hub, target);
            write!(told, "{question}").expect(rt, "memory");
        }
        Some((_, question)) => {
            let question = QuestionNo(number(rt, question));
            put_taken(rt, told, hub.take_rewrite(question));
        }
        None => append(rt, told, if hub.rewrites() { "yes" } else { "no" }),
    }
}

// Makes a call for a process, and puts down what it answers.
fn answer_process<K: RewriterCalls>(
    rt: &impl Abort,
    alloc: Global,
    calls: &mut K,
    call: &str,
    told: &mut String,
) {
    match call {
        "act" => put_act(rt, told, calls.act()),
        "started" => {
            let ProcNo(proc) = calls.started(alloc).expect(rt, "a start");
            write!(told, "{proc}").expect(rt, "memory");
        }
        "failed" => {
            calls.start_failed().expect(rt, "a start");
            append(rt, told, "ok");
        }
        _ => answer_one(rt, alloc, calls, call, told),
    }
}

// Makes a call for a process that is named.
fn answer_one<K: RewriterCalls>(
    rt: &impl Abort,
    alloc: Global,
    calls: &mut K,
    call: &str,
    told: &mut String,
) {
    let (name, words) = call.split_once(' ').expect(rt, "a call");
    if name == "died" {
        let proc = ProcNo(number(rt, words));
        calls.died(proc).expect(rt, "a process");
        append(rt, told, "ok");
    } else {
        let (proc, line) = words.split_once(' ').expect(rt, "a line");
        let proc = ProcNo(number(rt, proc));
        put_got(rt, told, calls.line(alloc, proc, line.as_bytes()));
    }
}

/// Makes the calls, and puts them down, each with what it answers.
pub fn run_questions<H: Hub, K: RewriterCalls>(
    rt: &impl Abort,
    alloc: Global,
    hub: &mut H,
    calls: &mut K,
    told: &mut String,
) {
    for row in QUESTIONS.lines() {
        let (call, _wanted) = row.split_once(" => ").expect(rt, "an answer");
        append(rt, told, call);
        append(rt, told, " => ");
        if call == "rewrites" || call.starts_with("ask ") || call.starts_with("take ") {
            answer_asking(rt, alloc, hub, call, told);
        } else {
            answer_process(rt, alloc, calls, call, told);
        }
        append(rt, told, "\n");
    }
}

/// The rewriter of this configuration.
pub fn rewriter_of(rt: &impl Abort, alloc: Global, config: &Config) -> Rewriter {
    match config.rewriter() {
        Some(class) => Rewriter::new(alloc, class),
        None => panic!(rt; "no rewriter"),
    }
}

#[test]
fn each_call_behind_the_lock_is_that_of_the_rewriter(rt: HostRuntime) {
    check(&rt, rt.alloc(), Table::Rewriter);
}
