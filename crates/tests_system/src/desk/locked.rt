//! Each call of a desk, made behind its lock; and what runs the calls of delay pools and of a rewriter behind theirs, beside it.
ghost use Rattle.std.specs.Prelude.{◌≡◌, ◌<◌, pos, true};
ghost use Rattle.std.specs.Option.{ForSome};
ghost use Rattle.sq_calls.specs.Legality.{IsStated};
ghost use Rattle.sq_shared.specs.Books.{AreCounted};

use crate::desk::calls::setup_of;
use crate::desk::desks::{append, gave_mark, helper_mark, hub_mark, is_noted};
use crate::desk::jobs::BEGIN;
use crate::desk::locks::{Blanks, CALLERS, Wholes, lock, pools_of};
use crate::desk::rewriting::{JUDGED, QUESTIONS, rewriter_of, run_questions};
use crate::desk::seats::{SEATS, put_moments, run_seats};
use crate::desk::waits::{WAITS, run_waits};
use sq_base::{EpochNo, Moment};
use sq_cache::HashSeed;
use sq_calls::{ControlCalls, DeskCalls, DeskFault, HelperCalls, TellsJournal};
use sq_desk::{Desk, DeskStart};
use sq_journal::{MemJournal, print_entry, read_entry};
use sq_machine::{Entry, Event, Offset, Told};
use sq_outside_mem::MemClock;
use sq_pools::{Bank, Pools, TagPools};
use sq_rewrite::{LockRewriter, Rewriter, RewriterRoom};
use sq_rules::Config;
use sq_shared::{Asks, ControlDesk, Grants, Ledgers, LockDesk, Makes, Refusals, Room, WaitPlaces};
use sq_turns::Hub;
use sq_urlmatch::Setup;
use sq_workers::LockHub;
use std::alloc::Global;
use std::marker::Brand;
use std::process::Abort;
use std::sync::ledger::Share;
use std::sync::{Arc, Mutex, Wait};

/// Two classes with two processes each, of which `v` is asked at port 80 and `w` at port 81. At port 82 all is denied.
static CONF: &str = "external_acl_type v children-max=2 %>rd /bin/h
external_acl_type w children-max=2 %>rd /bin/g
acl a external v
acl b external w
acl p port 81
acl q port 82
http_access deny q
http_access allow !p a
http_access allow b
";

/// What lies beside the desk: delay pools with buckets by addresses, two with buckets by tags, all of which begin empty; and a program
/// of which two processes may run, while one question may wait.
static BESIDE: &str = "delay_pools 5
delay_class 1 1
delay_class 2 1
delay_class 3 5
delay_class 4 5
delay_class 5 2
delay_parameters 1 100/1000
delay_parameters 2 10/1000
delay_parameters 3 100/1000
delay_parameters 4 10/1000
delay_parameters 5 150/150 100/100
delay_initial_bucket_level 0
url_rewrite_program /bin/r
url_rewrite_children 2 queue-size=1
";

/// What is done before another configuration is current: a check, a question and a process of each class. Each line has its
/// caller: `d` the desk behind its lock, as a helper's thread sees it, `h` a hub.
static FIRST: &str = "h 5 open 1 10.0.0.1 4001 => ok
h 5 open 2 10.0.0.2 4002 => ok
h 5 ask 1 GET http://a.example/ => check 1
h 5 step 1 => waits 1
d 5 act => start 1 v
d 5 started 1 v => proc 1
d 5 act => send 1 1 - a.example%20-
h 5 ask 2 GET http://b.example:81/ => check 2
h 5 step 2 => waits 2
d 5 act => start 1 w
d 5 started 1 w => proc 2
d 5 act => send 2 2 - b.example%20-
";

/// The other configuration listens at port 3129, and has the programs `/bin/h2` and `/bin/g2`.
static AGAIN: &str =
    "c 5 reconfigure http_port%203129%0Aexternal_acl_type%20v%20children-max=2%20%25%3Erd%20/bin/h2%0Aexternal_acl_type%20w%20children-max=2%20%25%3Erd%20/bin/g2%0Aacl%20a%20external%20v%0Aacl%20b%20external%20w%0Aacl%20p%20port%2081%0Aacl%20q%20port%2082%0Ahttp_access%20deny%20q%0Ahttp_access%20allow%20!p%20a%0Ahttp_access%20allow%20b%0A => epoch 2";

/// What is done behind it: a check and a due start of each class, two checks that are done, and a question more, for which
/// another process is to be started.
static SECOND: &str = "h 5 open 3 10.0.0.3 4003 => ok
h 5 ask 3 GET http://c.example/ => check 3
h 5 step 3 => waits 3
d 5 act => start 2 v
h 5 open 4 10.0.0.4 4004 => ok
h 5 ask 4 GET http://d.example:81/ => check 4
h 5 step 4 => waits 4
d 5 act => start 2 w
h 5 open 5 10.0.0.5 4005 => ok
h 5 ask 5 GET http://e.example:82/ => check 5
h 5 step 5 => done
h 5 open 6 10.0.0.6 4006 => ok
h 5 ask 6 GET http://f.example:82/ => check 6
h 5 step 6 => done
h 5 open 7 10.0.0.7 4007 => ok
h 5 ask 7 GET http://g.example/ => check 7
h 5 step 7 => waits 5
h 5 open 8 10.0.0.8 4008 => ok
h 5 open 9 10.0.0.9 4009 => ok
";

/// The calls, of which each is made once at least. Where it names one of what is there, there are two of that kind or more, and it is
/// not the first. `r` reads: the words of a class, or a configuration's port. A call that is refused must not be told as one
/// that wants memory, by which it would be tried for good.
static DESK: &str = "r words /bin/g2
r port 3129
d 8 act => start 2 v
h 8 open 10 10.0.0.10 4010 => ok
h 8 close 8 => ok
h 8 ask 9 GET http://h.example:81/ => check 8
h 8 step 8 => waits 6
h 8 take 6 => epoch 2 denied rule 1
d 8 act => start 2 w
d 9 started 2 w => proc 3
d 9 startfail 2 w => ok
d 9 line 2 OK => reply 2 ok
d 9 line 9 OK => refused
d 9 died 2 => ok
d 9 died 9 => refused
";

/// Whose calls are made once all this was done, or who waits then.
#[derive(Clone, Copy)]
pub enum Table {
    Desk,
    Pools,
    Rewriter,
    Waits,
}

/// For how many entries a journal has room.
const ROOM: usize = 100;

// The moments of a connection's clock: it is called 23 times at 5, and then at those of the table.
fn clock(rt: &impl Abort, alloc: Global, table: Table) -> MemClock {
    let mut rest = Vec::new(alloc);
    for _ in 1..23 {
        rest.push(Moment(5)).expect(rt, "memory");
    }
    match table {
        Table::Desk => rest.push(Moment(8)).expect(rt, "memory"),
        Table::Pools => put_moments(rt, &mut rest),
        Table::Rewriter | Table::Waits => {}
    }
    MemClock::new(alloc, Moment(5), rest)
}

// Whether these are the words of the class at place 1 of epoch 2.
fn has_words<D: HelperCalls>(rt: &impl Abort, alloc: Global, desk: &D, word: &str) -> bool {
    match desk.words(alloc, EpochNo(2), 1).expect(rt, "memory") {
        Some(words) => match words.as_slice() {
            [only] => only.as_bytes() == word.as_bytes(),
            _ => false,
        },
        None => false,
    }
}

// Whether epoch 2 listens at this port.
fn has_port<D: TellsJournal>(desk: &D, port: &str) -> bool {
    match desk.config(EpochNo(2)) {
        Some(config) => port.parse::<u16>() == Ok(config.port()),
        None => false,
    }
}

// The mark of a line that reads: `.` where that is read.
fn read_mark<D: HelperCalls>(rt: &impl Abort, alloc: Global, desk: &D, line: &str) -> &'static str {
    let is_read = match line.split_once(' ') {
        Some(("words", word)) => has_words(rt, alloc, desk, word),
        Some(("port", port)) => has_port(desk, port),
        _ => false,
    };
    if is_read { "." } else { "x" }
}

// The mark of a line whose call is made behind the lock.
fn row_mark<D: HelperCalls, H: Hub>(
    rt: &impl Abort,
    alloc: Global,
    desk: &mut D,
    hub: &mut H,
    row: &str,
) -> &'static str {
    match row.split_at_checked(2) {
        Some(("d ", line)) => helper_mark(rt, alloc, desk, line),
        Some(("h ", line)) => hub_mark(rt, alloc, hub, line),
        Some(("r ", line)) => read_mark(rt, alloc, desk, line),
        _ => "?",
    }
}

// Makes the calls of these lines, and puts down their marks.
fn run_rows<D: HelperCalls, H: Hub>(
    rt: &impl Abort,
    alloc: Global,
    desk: &mut D,
    hub: &mut H,
    rows: &str,
    text: &mut String,
) {
    for row in rows.lines() {
        append(rt, text, row_mark(rt, alloc, desk, hub, row));
    }
}

// The moment, the configuration and the answer of a line.
fn reread_of(rt: &impl Abort, alloc: Global, row: &str) -> (Moment, Setup, Told)
    ensures { IsStated result.1 }
{
    let line = row.strip_prefix("c ").expect(rt, "a line of a control");
    let Entry {
        moment,
        event,
        answer,
    } = read_entry(alloc, line.as_bytes()).expect(rt, "an entry");
    let Event::Reconfigure { text } = event else {
        panic!(rt; "no reconfiguration");
    };
    let setup = setup_of(rt, alloc, text.as_bytes());
    (moment, setup, answer)
}

// The mark of a reconfiguration.
fn epoch_mark(
    rt: &impl Abort,
    alloc: Global,
    gave: Result<EpochNo, DeskFault>,
    wanted: &Told,
) -> &'static str {
    match gave {
        Ok(epoch) => gave_mark(rt, alloc, &Ok(Some(Told::Epoch(epoch))), wanted),
        Err(fault) => gave_mark(rt, alloc, &Err(fault), wanted),
    }
}

// Makes a reconfiguration behind the lock, as the control does, and puts down its mark. The share is given back.
#[tactic(auto, using(crate::proofs::BeginLaws::whole_share))]
fn reread<R: Wait + Abort, D: DeskCalls, B: Ledgers>(
    rt: &R,
    alloc: Global,
    room: &Room<D, B>,
    made: Share<Makes<B>>,
    refused: Share<Refusals<B>>,
    row: &str,
    text: &mut String,
) -> Share<Makes<B>>
    requires counting { D.is_counting ≡ true }
    requires made { (made.parts ≡ B.makes.parts) × (0 < made.parts) }
    requires refused { 0 < refused.parts }
    ensures { result.parts ≡ B.makes.parts }
{
    let (now, setup, wanted) = reread_of(rt, alloc, row);
    let mut control = ControlDesk::new(rt, room, made, refused);
    let gave = control.reconfigure(alloc, setup, now);
    append(rt, text, epoch_mark(rt, alloc, gave, &wanted));
    control.finish()
}

// The shares, which are whole again once all calls were made.
struct Back<B: Ledgers> {
    asked: Share<Asks<B>>,
    made: Share<Makes<B>>,
}

// Makes all calls and then those of the table, and puts down what came of them.
fn run_table<'x, R: Wait + Abort, D: DeskCalls, B: Ledgers>(
    rt: &'x R,
    alloc: Global,
    config: &Arc<Config>,
    rewriter: &'x RewriterRoom,
    room: &'x Room<D, B>,
    bank: &'x Mutex<Bank<Grants<B>>>,
    clock: MemClock,
    wholes: Wholes<B>,
    table: Table,
    text: &mut String,
) -> Back<B>
    requires counting { D.is_counting ≡ true }
    requires asked { (wholes.asked.parts ≡ 1) × (wholes.asked.amount ≡ 0) × (B.asks.parts ≡ 1) }
    requires made { (wholes.made.parts ≡ 1) × (B.makes.parts ≡ 1) }
    requires refused { wholes.refused.parts ≡ CALLERS }
    requires granted { (wholes.granted.parts ≡ 1) × (wholes.granted.amount ≡ 0) }
    ensures { (result.asked.parts ≡ B.asks.parts) × (result.made.parts ≡ B.makes.parts) }
{
    let Wholes {
        asked,
        made,
        mut refused,
        granted,
    } = wholes;
    let mut desk = LockDesk::new(rt, room, refused.split_off(1, 0));
    let one = refused.split_off(1, 0);
    let mut hub = LockHub::new(
        rt,
        room,
        bank,
        Some(rewriter),
        clock,
        asked,
        refused,
        granted,
    );
    run_rows(rt, alloc, &mut desk, &mut hub, FIRST, text);
    let made = reread(rt, alloc, room, made, one, AGAIN, text);
    run_rows(rt, alloc, &mut desk, &mut hub, SECOND, text);
    match table {
        Table::Desk => run_rows(rt, alloc, &mut desk, &mut hub, DESK, text),
        Table::Pools => run_seats(rt, alloc, config, bank, &mut hub, text),
        Table::Rewriter => {
            let mut calls = LockRewriter::new(rt, rewriter);
            run_questions(rt, alloc, &mut hub, &mut calls, text)
        }
        Table::Waits => run_waits(rt, alloc, room, &mut desk, &mut hub, text),
    }
    let asked = hub.finish().asked;
    Back { asked, made }
}

// The desk, once all calls were made behind its lock and that was opened.
fn run_locked<R: Wait + Abort, D: DeskCalls, B: Ledgers>(
    rt: &R,
    alloc: Global,
    config: &Arc<Config>,
    rewriter: Rewriter,
    desk: D,
    pools: (Pools, TagPools),
    clock: MemClock,
    blanks: Blanks,
    table: Table,
    text: &mut String,
) -> D
    requires counting { D.is_counting ≡ true }
    requires asks { (blanks.asks.name ≡ B.asks.name) × (blanks.asks.parts ≡ B.asks.parts)
        × (B.asks.parts ≡ 1) }
    requires makes { (blanks.makes.name ≡ B.makes.name) × (blanks.makes.parts ≡ B.makes.parts)
        × (B.makes.parts ≡ 1) }
    requires refusals { (blanks.refusals.name ≡ B.refusals.name)
        × (blanks.refusals.parts ≡ B.refusals.parts)
        × (B.refusals.parts ≡ CALLERS) }
    requires grants { (blanks.grants.name ≡ B.grants.name) × (blanks.grants.parts ≡ B.grants.parts)
        × (B.grants.parts ≡ 1) }
    requires entries { AreCounted 0 0 (D.told desk) }
    requires made { ForSome (D.made desk) (λ m. m ≡ 0) }
    requires refused { D.refused desk ≡ 0 }
    requires granted { (pools.0.granted ≡ 0) × (pools.1.granted ≡ 0) }
{
    let places = WaitPlaces::new(alloc, 1).expect(rt, "memory");
    let (room, bank, wholes) = lock::<D, B>(alloc, desk, pools, places, blanks);
    let beside = RewriterRoom::new(alloc, rewriter, 1).expect(rt, "memory");
    let Back { asked, made } = run_table(
        rt, alloc, config, &beside, &room, &bank, clock, wholes, table, text,
    );
    room.into_hall().end(asked, made)
}

// A desk of this configuration that has begun.
#[tactic(auto, using(crate::proofs::BeginLaws::first_counted))]
fn begin<R: Abort, F: DeskStart>(rt: &R, alloc: Global, setup: Setup) -> Desk<MemJournal, F>
    requires { F.first ≡ record { config = setup; offset = pos 0 } }
    ensures { AreCounted 0 0 result.notes.history
        × (result.notes.made ≡ 0)
        × (result.notes.refusals ≡ 0) }
{
    let fails = Vec::new(alloc);
    let journal = MemJournal::new(alloc, ROOM, fails, Vec::new(alloc)).expect(rt, "memory");
    let seed = HashSeed::fixed();
    match Desk::<MemJournal, F>::new(alloc, setup, Offset(0), journal, Moment(0), seed) {
        Ok(desk) => desk,
        Err(_) => panic!(rt; "no desk is made"),
    }
}

// Puts the lines of a journal behind what is told.
fn put_journal(rt: &impl Abort, alloc: Global, text: &mut String, journal: &MemJournal) {
    append(rt, text, "\n");
    for entry in journal.entries() {
        let printed = print_entry(alloc, entry).expect(rt, "memory");
        let line = str::from_utf8(printed.as_bytes()).expect(rt, "UTF-8");
        append(rt, text, line);
        append(rt, text, "\n");
    }
}

// The journal, once all calls were made behind the lock.
fn run_behind<R: Wait + Abort, F: DeskStart, B: Ledgers>(
    rt: &R,
    alloc: Global,
    config: &Arc<Config>,
    setup: Setup,
    blanks: Blanks,
    table: Table,
    text: &mut String,
) -> MemJournal
    requires first { F.first ≡ record { config = setup; offset = pos 0 } }
    requires asks { (blanks.asks.name ≡ B.asks.name) × (blanks.asks.parts ≡ B.asks.parts)
        × (B.asks.parts ≡ 1) }
    requires makes { (blanks.makes.name ≡ B.makes.name) × (blanks.makes.parts ≡ B.makes.parts)
        × (B.makes.parts ≡ 1) }
    requires refusals { (blanks.refusals.name ≡ B.refusals.name)
        × (blanks.refusals.parts ≡ B.refusals.parts)
        × (B.refusals.parts ≡ CALLERS) }
    requires grants { (blanks.grants.name ≡ B.grants.name) × (blanks.grants.parts ≡ B.grants.parts)
        × (B.grants.parts ≡ 1) }
{
    let clock = clock(rt, alloc, table);
    let rewriter = rewriter_of(rt, alloc, config);
    let pools = pools_of(rt, alloc, config);
    let desk = begin::<R, F>(rt, alloc, setup);
    let desk = run_locked::<R, Desk<MemJournal, F>, B>(
        rt, alloc, config, rewriter, desk, pools, clock, blanks, table, text,
    );
    desk.finish()
}

// What is told of the calls behind the locks: their marks, what those of the table answer, and the journal.
fn told_locked<R: Wait + Abort>(rt: &R, alloc: Global, table: Table) -> String {
    let mut told = String::new(alloc);
    let setup = setup_of(rt, alloc, CONF.as_bytes());
    let beside = setup_of(rt, alloc, BESIDE.as_bytes());
    let journal = run_behind::<R, Brand, Brand>(
        rt,
        alloc,
        beside.config(),
        setup,
        Blanks::new(),
        table,
        &mut told,
    );
    put_journal(rt, alloc, &mut told, &journal);
    told
}

// The mark that the call of a line has to have.
fn wanted_mark(row: &str) -> char {
    if row.ends_with(" => refused") {
        'R'
    } else {
        '.'
    }
}

// Whether the call of a line adds an entry.
fn adds(row: &str) -> bool {
    is_noted(row) && row.contains(" => ")
}

// What has to be told: each call was made, and each that adds an entry has the line's.
fn wanted(rt: &impl Abort, alloc: Global, table: Table) -> String {
    let (rows, answers, judged) = match table {
        Table::Desk => (DESK, "", ""),
        Table::Pools => ("", SEATS, ""),
        Table::Rewriter => ("", QUESTIONS, JUDGED),
        Table::Waits => (WAITS, "", ""),
    };
    let mut marks = String::new(alloc);
    let mut lines = String::new(alloc);
    append(rt, &mut lines, BEGIN);
    for rows in [FIRST, AGAIN, SECOND, rows] {
        for row in rows.lines() {
            marks.push(wanted_mark(row)).expect(rt, "memory");
            if let (true, Some((_, line))) = (adds(row), row.split_at_checked(2)) {
                append(rt, &mut lines, "\n");
                append(rt, &mut lines, line);
            }
        }
    }
    format!(in alloc; "{marks}{answers}\n{lines}\n{judged}").expect(rt, "memory")
}

/// Ends the process unless what has to be told is told of the calls behind the locks.
pub fn check<R: Wait + Abort>(rt: &R, alloc: Global, table: Table) {
    let wanted = wanted(rt, alloc, table);
    let told = told_locked(rt, alloc, table);
    assert!(rt; told.as_str() == wanted.as_str(), "{told}");
}

#[test]
fn each_call_behind_the_lock_is_that_of_the_desk(rt: HostRuntime) {
    check(&rt, rt.alloc(), Table::Desk);
}
