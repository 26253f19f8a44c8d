//! What a client gets where a call of its session's hub fails.
use crate::desk::hub::running::run;
use sq_base::{Text, number_of};
use sq_session::SessionEnd;
use sq_turns::End;
use std::alloc::Global;
use std::process::Abort;

/// A line is how many calls of the hub a request makes, how many bytes it is granted on a seat, the request and its
/// reply, where `|` stands for CR and LF, and `!` for LF. A request is asked about, its check is stepped and its record
/// is taken. A check is stepped twice where a helper process is asked, or a kept answer is taken, and else once. Of an
/// allowed request a question is put to the redirector, and it is looked for what that came to before it has ended and
/// then. The eighth call takes a seat: of three requests whose pool has a bucket for each tag two have one, and the last
/// has no tag. The helper process answers the second, the fourth, the fifth, with a tag, and the seventh request, of a
/// known host without being asked again the third, the sixth and the last, the eighth with ERR, and dies at the ninth.
/// The redirector has the second request go to another host and the client of the last one be sent elsewhere.
static TURNS: &str =
    "3 0 GET http://denied.example/ => HTTP/1.1 403 Forbidden|Content-Type: text/plain|Content-Length: 14||denied rule 1!
7 0 GET http://a.example/ => HTTP/1.1 204 No Content|Via: 1.1 aclproxy||
7 0 HEAD http://a.example/x => HTTP/1.1 204 No Content|Via: 1.1 aclproxy||
8 46 GET http://slow.example:81/ => HTTP/1.1 204 No Content|Via: 1.1 aclproxy||
8 46 GET http://gold.example/ => HTTP/1.1 204 No Content|Via: 1.1 aclproxy||
8 46 HEAD http://gold.example/x => HTTP/1.1 204 No Content|Via: 1.1 aclproxy||
7 0 GET http://free.example/ => HTTP/1.1 204 No Content|Via: 1.1 aclproxy||
4 0 GET http://b.example/ => HTTP/1.1 403 Forbidden|Content-Type: text/plain|Content-Length: 15||denied default!
4 0 GET http://c.example/ => HTTP/1.1 403 Forbidden|Content-Type: text/plain|Content-Length: 26||denied fault 2 known Died!
7 0 GET http://a.example/z => HTTP/1.1 302 Found|Location: http://c.example/|Content-Length: 0|Connection: close||";

/// Besides, the first call opens the connection, and the last one closes it.
const CALLS: u64 = 65;

/// Where the journal failed, and where there was no memory for a question to the redirector, for what that came to or for
/// a seat.
const STOPPED: (&str, &str) = (
    "HTTP/1.1 500 Internal Server Error|Content-Type: text/plain|Content-Length: 16|Connection: close||",
    "journal stopped!",
);

const NO_MEMORY: (&str, &str) = (
    "HTTP/1.1 500 Internal Server Error|Content-Type: text/plain|Content-Length: 14|Connection: close||",
    "out of memory!",
);

// Adds these bytes.
fn add(rt: &impl Abort, text: &mut Text, bytes: &str) {
    for &byte in bytes.as_bytes() {
        match byte {
            b'|' => text.append(b"\r\n").expect(rt, "memory"),
            b'!' => text.push(b'\n').expect(rt, "memory"),
            _ => text.push(byte).expect(rt, "memory"),
        }
    }
}

fn add_own(rt: &impl Abort, text: &mut Text, own: (&str, &str), no_body: bool) {
    let (head, body) = own;
    add(rt, text, head);
    if !no_body {
        add(rt, text, body);
    }
}

#[derive(Clone, Copy)]
struct Turn<'a> {
    calls: u64,
    granted: u64,
    request: &'a str,
    reply: &'a str,
}

fn number(rt: &impl Abort, word: &str) -> u64 {
    number_of(word.as_bytes(), 1_000).expect(rt, "a number")
}

fn read_turn<'a>(rt: &impl Abort, line: &'a str) -> Turn<'a> {
    let (calls, rest) = line.split_once(' ').expect(rt, "calls");
    let (granted, rest) = rest.split_once(' ').expect(rt, "bytes");
    let (request, reply) = rest.split_once(" => ").expect(rt, "a reply");
    Turn {
        calls: number(rt, calls),
        granted: number(rt, granted),
        request,
        reply,
    }
}

// The requests of all lines.
fn input(rt: &impl Abort, alloc: Global) -> Text {
    let mut text = Text::new(alloc);
    for line in TURNS.lines() {
        add(rt, &mut text, read_turn(rt, line).request);
        add(rt, &mut text, " HTTP/1.1|Host: h||");
    }
    text
}

// Adds what the client gets where the call of this number fails, and says how the session ends.
fn say(rt: &impl Abort, call: u64, text: &mut Text) -> SessionEnd {
    let mut end = SessionEnd {
        why: End::Finished,
        requests: 0,
        granted: 0,
    };
    if call == 1 {
        add_own(rt, text, STOPPED, false);
        return end;
    }
    let mut left = call.saturating_sub(2);
    for line in TURNS.lines() {
        let turn = read_turn(rt, line);
        if left < turn.calls {
            let own = if left >= 4 { NO_MEMORY } else { STOPPED };
            add_own(rt, text, own, turn.request.starts_with("HEAD"));
            end.requests = end.requests.saturating_add(left.min(1));
            return end;
        }
        left -= turn.calls;
        add(rt, text, turn.reply);
        end.requests = end.requests.saturating_add(1);
        end.granted = end.granted.saturating_add(turn.granted);
    }
    end
}

#[test]
fn each_call_of_a_hub_fails_in_turn(rt: HostRuntime) {
    let alloc = rt.alloc();
    let input = input(&rt, alloc);
    for call in 1..=CALLS + 1 {
        let ran = run(&rt, alloc, &input, call);
        let mut text = Text::new(alloc);
        let end = say(&rt, call, &mut text);
        assert!(rt; ran.end == end, "{call} {:?}", ran.end);
        assert!(rt; ran.text == text, "{call} {}", ran.text);
        assert!(rt; ran.failed == (call <= CALLS), "{call}");
    }
}
