//! The answering of questions about hosts.
ghost use Rattle.std.specs.Prelude.{◌≡◌, ◌≤◌, ◌<◌, ◌∷◌, ◌++◌, [], true, false, IfSome, IfNone};
ghost use Rattle.std.specs.Option.{OnSome, option_copied};
ghost use Rattle.std.specs.Io.KnownBytes.{IsAtEnd};
ghost use Rattle.sq_dst.specs.AnsweredLines.{AnswersLines, AnswersTold, HandsAnswers, IsFound, WalksAnswers, answer_step};
ghost use Rattle.sq_dst.specs.LookupAcls.{reply_text};
ghost use Rattle.sq_dst.specs.LookupKeys.{host_asked};
ghost use Rattle.sq_keeper.specs.Walk.{closing, step_handed, step_line};
ghost use Rattle.sq_keeper.specs.declared.desk.Handed.TheVariants as handed;
ghost use Rattle.sq_outside.specs.Causes.{Rose, raised};

use crate::keys::host_of;
use crate::replies::reply_for;
use sq_base::{Addrs, ProcNo, Text};
use sq_keeper::{KeeperEnd, LineBuffer, LineDesk, hand};
use sq_outside::{LookFault, Resolver, Source};
use sq_rules::Config;
use std::alloc::Global;
use std::sync::Wait;
use std::thread;

/// At most this many bytes are read at a time.
const CHUNK: usize = 4096;

// The host for which a question asks. It is tried again where there is no memory.
fn host_in<R: Wait>(rt: &R, alloc: Global, question: &[u8]) -> Option<Text>
    ensures { result ≡ host_asked question.now }
{
    for _ in rt.forever() {
        match host_of(alloc, question) {
            Ok(host) => return host,
            Err(_) => thread::yield_now(),
        }
    }
    unreachable!()
}

// The addresses of a host. None where the resolver failed. It is asked again where it has no memory.
fn look<R: Wait, Q: Resolver>(rt: &R, alloc: Global, resolver: &mut Q, host: &Text) -> Option<Addrs>
    ensures told { IfSome result
        (λ addrs. IfSome (Q.names resolver.old) (λ of. addrs ≡ of host.now)) }
    ensures quiet { OnSome result (Q.faults resolver.new ≡ Q.faults resolver.old) }
    ensures failed { IfNone result (Rose (Q.faults resolver.old) (Q.faults resolver.new)) }
    ensures later { Q.faults resolver.old ≤ Q.faults resolver.new }
    ensures names { Q.names resolver.new ≡ Q.names resolver.old }
{
    for _ in rt.forever() {
        match resolver.look(alloc, host) {
            Ok(found) => return Some(found),
            Err(LookFault::Failed) => return None,
            Err(LookFault::WantOfMemory) => thread::yield_now(),
        }
    }
    unreachable!()
}

// What is found of a question's host.
fn find<R: Wait, Q: Resolver>(
    rt: &R,
    alloc: Global,
    resolver: &mut Q,
    question: &[u8],
) -> Option<Addrs>
    ensures found { IsFound (Q.names resolver.old) (Q.faults resolver.old) (Q.faults resolver.new)
        question.now result }
    ensures names { Q.names resolver.new ≡ Q.names resolver.old }
{
    match host_in(rt, alloc, question) {
        None => None,
        Some(host) => look(rt, alloc, resolver, &host),
    }
}

// The reply to a question. It is tried again where there is no memory.
fn reply<R: Wait>(
    rt: &R,
    alloc: Global,
    config: &Config,
    question: &[u8],
    found: Option<&Addrs>,
) -> Text
    ensures { result ≡ reply_text config.now question.now (option_copied found.entry) }
{
    for _ in rt.forever() {
        match reply_for(alloc, config, question, found) {
            Ok(text) => return text,
            Err(_) => thread::yield_now(),
        }
    }
    unreachable!()
}

// Hands on the reply to a question. Answers whether the desk wants more.
fn answer<R: Wait, Q: Resolver, K: LineDesk>(
    rt: &R,
    alloc: Global,
    resolver: &mut Q,
    config: &Config,
    proc: ProcNo,
    question: &[u8],
    desk: &mut K,
) -> bool
    ensures hands { HandsAnswers config.now
        (answer_step (Q.names resolver.old) (Q.faults resolver.old) (Q.faults resolver.new)
        (K.handed desk.old) (K.handed desk.new))
        (handed.Line proc question.now ∷ closing proc result) }
    ensures names { Q.names resolver.new ≡ Q.names resolver.old }
    ensures looks_later { Q.faults resolver.old ≤ Q.faults resolver.new }
    ensures later { K.refused desk.old ≤ K.refused desk.new }
    ensures told { result ≡ false → Rose (K.refused desk.old) (K.refused desk.new) }
    ensures passes { K.passes desk.old desk.new }
{
    let found = find(rt, alloc, resolver, question);
    let text = reply(rt, alloc, config, question, found.as_ref());
    hand(rt, proc, text.as_bytes(), desk)
}

// Takes one byte: it ends the line, which is answered, or belongs to it.
fn take_byte<R: Wait, Q: Resolver, K: LineDesk>(
    rt: &R,
    alloc: Global,
    resolver: &mut Q,
    config: &Config,
    proc: ProcNo,
    line: &mut LineBuffer,
    byte: u8,
    desk: &mut K,
) -> bool
    ensures hands { HandsAnswers config.now
        (answer_step (Q.names resolver.old) (Q.faults resolver.old) (Q.faults resolver.new)
        (K.handed desk.old) (K.handed desk.new))
        (step_handed proc line.old byte ++ closing proc result) }
    ensures names { Q.names resolver.new ≡ Q.names resolver.old }
    ensures looks_later { Q.faults resolver.old ≤ Q.faults resolver.new }
    ensures line { line.new ≡ step_line line.old byte }
    ensures later { K.refused desk.old ≤ K.refused desk.new }
    ensures told { result ≡ false → Rose (K.refused desk.old) (K.refused desk.new) }
    ensures passes { K.passes desk.old desk.new }
    ensures ended { result ≡ false → byte ≡ 10 }
{
    if byte != b'\n' {
        line.take(byte);
        return true;
    }
    let more = answer(rt, alloc, resolver, config, proc, line.as_bytes(), desk);
    line.clear();
    more
}

// Takes bytes, up to the LF at which the desk wants no more.
fn take_bytes<R: Wait, Q: Resolver, K: LineDesk>(
    rt: &R,
    alloc: Global,
    resolver: &mut Q,
    config: &Config,
    proc: ProcNo,
    line: &mut LineBuffer,
    bytes: &[u8],
    desk: &mut K,
) -> bool
    ensures walks { WalksAnswers config.now
        (answer_step (Q.names resolver.old) (Q.faults resolver.old) (Q.faults resolver.new)
        (K.handed desk.old) (K.handed desk.new))
        proc line.old line.new bytes.now result }
    ensures names { Q.names resolver.new ≡ Q.names resolver.old }
    ensures looks_later { Q.faults resolver.old ≤ Q.faults resolver.new }
    ensures later { K.refused desk.old ≤ K.refused desk.new }
    ensures told { result ≡ false → Rose (K.refused desk.old) (K.refused desk.new) }
    ensures passes { K.passes desk.old desk.new }
{
    for &byte in bytes {
        if !take_byte(rt, alloc, resolver, config, proc, line, byte, desk) {
            return false;
        }
    }
    true
}

/// Reads questions to the end of the source, and hands the desk one reply for each line, in order; then it tells it once that the
/// process died, unless the desk wanted no more. A line's reply is `reply_for` it, over the addresses that the resolver found of
/// its host, or over nothing where it is no key, or where the resolver failed and counted that. A line is looked at up to its
/// first 65,537 bytes; one of more than 65,536 is no key. Where there is no memory for a step behind the first, that step is made
/// again, so it may wait; it may wait, too, as long as the source gives nothing or the resolver is not done.
pub fn answer_lines<R: Wait + Sync, S: Source, Q: Resolver, K: LineDesk>(
    rt: &R,
    alloc: Global,
    from: &mut S,
    resolver: &mut Q,
    config: &Config,
    proc: ProcNo,
    desk: &mut K,
) -> KeeperEnd
    ensures lines { AnswersLines config.now
        (answer_step (Q.names resolver.old) (Q.faults resolver.old) (Q.faults resolver.new)
        (K.handed desk.old) (K.handed desk.new))
        proc (S.left from.old) (S.left from.new) result }
    // Where the resolver tells its addresses, and its count did not rise, each reply is over these.
    ensures found { IfSome (Q.names resolver.old)
        (λ of. Q.faults resolver.new < raised (Q.faults resolver.old)
        → AnswersTold config.now of proc (S.left from.old) (S.left from.new) (K.handed desk.old)
        (K.handed desk.new) result) }
    ensures ended { result ≡ KeeperEnd.Ended → IsAtEnd (S.left from.new) }
    ensures fault { result ≡ KeeperEnd.ReadFault → Rose (S.faults from.old) (S.faults from.new) }
    ensures told { result ≡ KeeperEnd.Told → Rose (K.refused desk.old) (K.refused desk.new) }
    ensures memory { result ≡ KeeperEnd.WantOfMemory
        → (from.new ≡ from.old) × (resolver.new ≡ resolver.old) × (desk.new ≡ desk.old) }
    ensures names { Q.names resolver.new ≡ Q.names resolver.old }
    ensures looks_later { Q.faults resolver.old ≤ Q.faults resolver.new }
    ensures faults_later { S.faults from.old ≤ S.faults from.new }
    // The first read that fails ends the reading: where it ended otherwise, none failed.
    ensures quiet { (result ≡ KeeperEnd.ReadFault → ⊥) → S.faults from.new ≡ S.faults from.old }
    ensures refused_later { K.refused desk.old ≤ K.refused desk.new }
    ensures passes { K.passes desk.old desk.new }
{
    let Ok(mut line) = LineBuffer::new(alloc) else {
        return KeeperEnd::WantOfMemory;
    };
    let mut chunk = [0u8; CHUNK];
    for _ in rt.forever() {
        match from.read(&mut chunk) {
            Err(_) => {
                desk.died(proc);
                return KeeperEnd::ReadFault;
            }
            Ok(0) => {
                desk.died(proc);
                return KeeperEnd::Ended;
            }
            Ok(count) => {
                let bytes = &chunk[..count];
                if !take_bytes(rt, alloc, resolver, config, proc, &mut line, bytes, desk) {
                    return KeeperEnd::Told;
                }
            }
        }
    }
    unreachable!()
}
