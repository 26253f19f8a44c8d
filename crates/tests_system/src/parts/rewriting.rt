//! What replies of a redirector make of requests, and all calls of a rewriter in a row.

use crate::parts::fixtures::{class, count, number, said, said_of};
use sq_base::{Addr, Field, Fields, ProcNo, QuestionNo, Request, Text};
use sq_reply::read_reply;
use sq_request::make_request;
use sq_rewrite::{Got, RewriteAct, RewriteFault, Rewriter, Rewriting, rewriting_of};
use std::alloc::Global;
use std::process::Abort;

/// `METHOD TARGET > REPLY => WHAT`: what a reply makes of the request of this method and target, of HTTP/1.0 and with the
/// field `A: b` (configuration reference, `url_rewrite_program`). A new request is shown with the place that it goes to, its
/// path, its version and its field.
static REPLIES: &str = "GET http://a/ > OK => same
GET http://a/ > OK url=http://c/ => redirect 302 http://c/
GET http://a/ > OK status=301 url=http://c/ => redirect 301 http://c/
GET http://a/ > OK status=302 url=\"http://c/?d=e\" => redirect 302 http://c/?d=e
GET http://a/ > OK url=http://c/ status=303 => redirect 303 http://c/
GET http://a/ > OK status=307 url=http://c/ => redirect 307 http://c/
GET http://a/ > OK status=308 url=http://c/ => redirect 308 http://c/
GET http://a/ > OK status=300 url=http://c/ => same
GET http://a/ > OK status=304 url=http://c/ => same
GET http://a/ > OK status=200 url=http://c/ => same
GET http://a/ > OK status=0302 url=http://c/ => same
GET http://a/ > OK status=302x url=http://c/ => same
GET http://a/ > OK status= url=http://c/ => same
GET http://a/ > OK status=302 => same
GET http://a/ > OK URL=http://c/ => same
GET http://a/ > OK url=https://c/#d => redirect 302 https://c/#d
GET http://a/ > OK url=/ => redirect 302 /
GET http://a/ > OK url=! => redirect 302 !
GET http://a/ > OK url=~ => redirect 302 ~
GET http://a/ > OK url=%21%7E => redirect 302 !~
GET http://a/ > OK url= => same
GET http://a/ > OK url=http://c/%20 => same
GET http://a/ > OK url=\"http://c/ d\" => same
GET http://a/ > OK url=\"http://c/\\nd\" => same
GET http://a/ > OK url=\"http://c/\\rd\" => same
GET http://a/ > OK url=http://c/%00 => same
GET http://a/ > OK url=http://c/%09 => same
GET http://a/ > OK url=http://c/%1F => same
GET http://a/ > OK url=%7Fhttp://c/ => same
GET http://a/ > OK url=http://%80/ => same
GET http://a/ > OK url=http://c/%FF => same
GET http://a/ > OK rewrite-url=http://b.example/y => new GET http://b.example/y to b.example 80 /y 0 A:b
POST http://a/ > OK rewrite-url=\"HTTP://B:81?q\" => new POST HTTP://B:81?q to b 81 ?q 0 A:b
GET https://a/ > OK rewrite-url=http://b/ => new GET http://b/ to b 80 / 0 A:b
GET http://a/ > OK status=302 rewrite-url=http://b/ => new GET http://b/ to b 80 / 0 A:b
GET http://a/ > OK status=200 url=http://c/ rewrite-url=http://b/ => new GET http://b/ to b 80 / 0 A:b
GET http://a/ > OK url=\"c d\" rewrite-url=http://b/ => new GET http://b/ to b 80 / 0 A:b
GET http://a/ > OK rewrite-url=http://b/ url=http://c/ => redirect 302 http://c/
GET http://a/ > OK rewrite-url=https://b/ => same
GET http://a/ > OK rewrite-url=ftp://b/ => same
GET http://a/ > OK rewrite-url=b:443 => same
GET http://a/ > OK rewrite-url=/y => same
GET http://a/ > OK rewrite-url=//b/y => same
GET http://a/ > OK rewrite-url=nonsense => same
GET http://a/ > OK rewrite-url= => same
GET http://a/ > OK rewrite-url=http:// => same
GET http://a/ > OK rewrite-url=http://b/#d => same
GET http://a/ > OK rewrite-url=http://u@b/ => same
GET http://a/ > OK rewrite-url=http://b/%20 => same
CONNECT a:443 > OK rewrite-url=http://b/ => same
CONNECT a:443 > OK rewrite-url=b:443 => same
CONNECT a:443 > OK url=http://c/ => redirect 302 http://c/
GET http://a/ > OK url=http://c/ url=http://d/ => redirect 302 http://c/
GET http://a/ > OK url= url=http://d/ => same
GET http://a/ > OK status=301 status=302 url=http://c/ => redirect 301 http://c/
GET http://a/ > OK status=200 status=302 url=http://c/ => same
GET http://a/ > OK rewrite-url=http://b/ rewrite-url=http://d/ => new GET http://b/ to b 80 / 0 A:b
GET http://a/ > OK rewrite-url=https://b/ rewrite-url=http://d/ => same
GET http://a/ > ERR => same
GET http://a/ > ERR url=http://c/ rewrite-url=http://b/ => same
GET http://a/ > BH => same Bh
GET http://a/ > BH status=301 url=http://c/ rewrite-url=http://b/ => same Bh";

/// Calls of a rewriter of at most two processes, with one question at a time and one question more that may wait,
/// and their answers.
static CALLS: &str = "take 1 => question 1 is not known
started => no start is open
failed => no start is open
died 1 => process 1 does not live
line 1 OK => process 1 does not live
act => none
ask http://a/ => 1
ask http://b/ => 2
ask http://c/ => 3
ask http://d/ => the queue is full
act => start
act => start
act => none
started => 1
act => send 1 1 http://a/ 10.1.2.3/- - GET
act => none
take 1 => waits
line 1 OK url=http://x/ => reply 1
take 1 => redirect 302 http://x/
take 1 => question 1 is not known
act => send 1 2 http://b/ 10.1.2.3/- - GET
died 1 => ok
died 1 => process 1 does not live
take 2 => same Died
act => none
failed => ok
take 3 => same NoHelper
take 4 => question 4 is not known
ask http://e/ => 4
act => start
started => 2
act => send 2 4 http://e/ 10.1.2.3/- - GET
line 2 nonsense => bad
take 4 => same BadReply
ask http://f/ => 5
act => stop 2
act => start
started => 3
act => send 3 5 http://f/ 10.1.2.3/- - GET
line 3 OK rewrite-url=http://g/ => reply 5
line 3 OK => stray
take 5 => new GET http://g/ to g 80 / 0 A:b
act => stop 3
act => none";

/// The same of a rewriter of one process with two channels.
static CHANNELS: &str = "ask http://a/ => 1
ask http://b/ => 2
act => start
started => 1
act => send 1 1 on 0 http://a/ 10.1.2.3/- - GET
act => send 1 2 on 1 http://b/ 10.1.2.3/- - GET
act => none
line 1 1 OK url=http://x/ => reply 2
take 2 => redirect 302 http://x/
take 1 => waits
ask http://c/ => 3
act => send 1 3 on 1 http://c/ 10.1.2.3/- - GET
line 1 0 OK => reply 1
take 1 => same
ask http://d/ => 4
act => send 1 4 on 0 http://d/ 10.1.2.3/- - GET
line 1 0 OK rewrite-url=http://g/ => reply 4
line 1 0 OK => stray
take 3 => same Stray
take 4 => new GET http://g/ to g 80 / 0 A:b
act => stop 1
ask http://e/ => 5
act => start
started => 2
act => send 2 5 on 0 http://e/ 10.1.2.3/- - GET
line 2 OK => bad
take 5 => same BadReply";

fn client() -> Addr {
    Addr {
        v6: false,
        number: 0x0a01_0203,
    }
}

fn field(rt: &impl Abort, alloc: Global) -> Field {
    let name = Text::from_slice(alloc, b"A").expect(rt, "memory");
    let value = Text::from_slice(alloc, b"b").expect(rt, "memory");
    Field { name, value }
}

fn fields(rt: &impl Abort, alloc: Global) -> Fields {
    let mut fields = Vec::new(alloc);
    fields.push(field(rt, alloc)).expect(rt, "memory");
    Fields::from_vec(fields)
}

fn request(rt: &impl Abort, alloc: Global, method: &str, target: &str) -> Request {
    let fields = fields(rt, alloc);
    let (method, target) = (method.as_bytes(), target.as_bytes());
    make_request(alloc, method, target, 0, fields).expect(rt, "a request")
}

fn add(rt: &impl Abort, text: &mut String, bytes: &[u8]) {
    let word = str::from_utf8(bytes).expect(rt, "a text");
    text.push_str(word).expect(rt, "memory");
}

fn add_field(rt: &impl Abort, text: &mut String, field: &Field) {
    add(rt, text, field.name.as_bytes());
    text.push(':').expect(rt, "memory");
    add(rt, text, field.value.as_bytes());
}

/// The fields of a request.
fn fields_shown(rt: &impl Abort, alloc: Global, request: &Request) -> String {
    let mut text = String::new(alloc);
    for field in request.fields.as_slice() {
        add_field(rt, &mut text, field);
    }
    text
}

fn request_shown(rt: &impl Abort, alloc: Global, r: &Request) -> String {
    let fields = fields_shown(rt, alloc, r);
    format!(in alloc;
        "new {} {} to {} {} {} {} {fields}",
        r.method, r.target, r.host, r.port, r.path, r.minor
    )
    .expect(rt, "memory")
}

/// What a request came to.
fn shown(rt: &impl Abort, alloc: Global, rewriting: &Rewriting) -> String {
    match rewriting {
        Rewriting::Same(None) => said(rt, alloc, "same"),
        Rewriting::Same(Some(cause)) => format!(in alloc; "same {cause:?}").expect(rt, "memory"),
        Rewriting::New(r) => request_shown(rt, alloc, r),
        Rewriting::Redirect(status, url) => {
            format!(in alloc; "redirect {status} {url}").expect(rt, "memory")
        }
    }
}

/// What a reply makes of a request.
fn made(rt: &impl Abort, alloc: Global, request: &Request, line: &[u8]) -> String {
    let (_, reply) = read_reply(alloc, line, false).expect(rt, "a reply");
    let rewriting = rewriting_of(alloc, &reply, request).expect(rt, "memory");
    shown(rt, alloc, &rewriting)
}

/// What a reply makes of the request of this method and target.
fn made_of(rt: &impl Abort, alloc: Global, method: &str, target: &str, line: &[u8]) -> String {
    let request = request(rt, alloc, method, target);
    made(rt, alloc, &request, line)
}

fn check_reply(rt: &impl Abort, alloc: Global, row: &str) {
    let (given, wanted) = row.split_once(" => ").expect(rt, "an outcome");
    let (asked, line) = given.split_once(" > ").expect(rt, "a reply");
    let (method, target) = asked.split_once(' ').expect(rt, "a target");
    let made = made_of(rt, alloc, method, target, line.as_bytes());
    assert!(rt; made.as_str() == wanted, "{row}");
}

#[test]
fn replies_make_redirects_and_requests(rt: HostRuntime) {
    for row in REPLIES.lines() {
        check_reply(&rt, rt.alloc(), row);
    }
}

fn refused(rt: &impl Abort, alloc: Global, fault: RewriteFault) -> String {
    format!(in alloc; "{fault}").expect(rt, "memory")
}

fn sent(
    rt: &impl Abort,
    alloc: Global,
    proc: u64,
    question: u64,
    channel: Option<u32>,
    text: &Text,
) -> String {
    let text = str::from_utf8(text.as_bytes()).expect(rt, "a text");
    let sent = match channel {
        None => format!(in alloc; "send {proc} {question} {text}"),
        Some(n) => format!(in alloc; "send {proc} {question} on {n} {text}"),
    };
    sent.expect(rt, "memory")
}

fn act(rt: &impl Abort, alloc: Global, rewriter: &mut Rewriter) -> String {
    match rewriter.act() {
        Some(RewriteAct::Stop(ProcNo(proc))) => said_of(rt, alloc, "stop", proc),
        Some(
            RewriteAct::Send {
                proc: ProcNo(proc),
                question: QuestionNo(question),
                channel,
                text,
            },
        ) => sent(rt, alloc, proc, question, channel, &text),
        Some(RewriteAct::Start) => said(rt, alloc, "start"),
        None => said(rt, alloc, "none"),
    }
}

fn ask(rt: &impl Abort, alloc: Global, rewriter: &mut Rewriter, target: &str) -> String {
    let request = request(rt, alloc, "GET", target);
    match rewriter.ask(alloc, &request, client()) {
        Ok(QuestionNo(question)) => count(rt, alloc, question),
        Err(fault) => refused(rt, alloc, fault),
    }
}

fn started(rt: &impl Abort, alloc: Global, rewriter: &mut Rewriter) -> String {
    match rewriter.started(alloc) {
        Ok(ProcNo(proc)) => count(rt, alloc, proc),
        Err(fault) => refused(rt, alloc, fault),
    }
}

fn done(rt: &impl Abort, alloc: Global, res: Result<(), RewriteFault>) -> String {
    match res {
        Ok(()) => said(rt, alloc, "ok"),
        Err(fault) => refused(rt, alloc, fault),
    }
}

fn line(rt: &impl Abort, alloc: Global, rewriter: &mut Rewriter, words: &str) -> String {
    let (proc, line) = words.split_once(' ').expect(rt, "a line");
    let proc = ProcNo(number(rt, proc));
    match rewriter.line(alloc, proc, line.as_bytes()) {
        Ok(Got::Reply(QuestionNo(question), _)) => said_of(rt, alloc, "reply", question),
        Ok(Got::Bad) => said(rt, alloc, "bad"),
        Ok(Got::Stray) => said(rt, alloc, "stray"),
        Err(fault) => refused(rt, alloc, fault),
    }
}

fn take(rt: &impl Abort, alloc: Global, rewriter: &mut Rewriter, question: QuestionNo) -> String {
    match rewriter.take(question) {
        Ok(Some(rewriting)) => shown(rt, alloc, &rewriting),
        Ok(None) => said(rt, alloc, "waits"),
        Err(fault) => refused(rt, alloc, fault),
    }
}

/// The answer of a call.
fn answer(rt: &impl Abort, alloc: Global, rewriter: &mut Rewriter, call: &str) -> String {
    match call {
        "act" => act(rt, alloc, rewriter),
        "started" => started(rt, alloc, rewriter),
        "failed" => done(rt, alloc, rewriter.start_failed()),
        _ => answer_about(rt, alloc, rewriter, call),
    }
}

/// The answer of a call that has more words.
fn answer_about(rt: &impl Abort, alloc: Global, rewriter: &mut Rewriter, call: &str) -> String {
    let (name, words) = call.split_once(' ').expect(rt, "words");
    match name {
        "ask" => ask(rt, alloc, rewriter, words),
        "line" => line(rt, alloc, rewriter, words),
        "died" => done(rt, alloc, rewriter.died(ProcNo(number(rt, words)))),
        "take" => take(rt, alloc, rewriter, QuestionNo(number(rt, words))),
        _ => rt.panic("no call"),
    }
}

// Ends the process unless a rewriter answers these calls so.
fn check_calls(rt: &impl Abort, alloc: Global, rewriter: &mut Rewriter, calls: &str) {
    for row in calls.lines() {
        let (call, wanted) = row.split_once(" => ").expect(rt, "an answer");
        let answer = answer(rt, alloc, rewriter, call);
        assert!(rt; answer.as_str() == wanted, "{row}");
    }
}

#[test]
fn a_rewriter_answers_its_calls(rt: HostRuntime) {
    let alloc = rt.alloc();
    let mut rewriter = Rewriter::new(alloc, &class(alloc, 2, 0, 1));
    check_calls(&rt, alloc, &mut rewriter, CALLS);
}

#[test]
fn a_line_answers_on_its_channel(rt: HostRuntime) {
    let alloc = rt.alloc();
    let mut rewriter = Rewriter::new(alloc, &class(alloc, 1, 2, 1));
    check_calls(&rt, alloc, &mut rewriter, CHANNELS);
}
