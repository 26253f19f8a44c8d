//! What a keeper thread does.
use crate::board::Task;
use crate::halves::AskerOut;
use crate::keeper_halves::ProcOut;
use crate::lines::ServeLines;
use crate::reader::Reader;
use crate::site::Site;
use sq_calls::DeskCalls;
use sq_keeper::{KeeperEnd, LineDesk};
use sq_outside::{Clock, Resolver, Source};
use sq_shared::{Ledgers, LockDesk, tell_end};
use std::alloc::Global;
use std::sync::Wait;
use std::thread;

// Hands the lines of a program to the desk, until it ends or no more are wanted.
fn read_all<R: Wait + Sync, P: Source, K: LineDesk>(
    rt: &R,
    alloc: Global,
    half: &mut Reader<P>,
    lines: &mut K,
) {
    for _ in rt.forever() {
        match half.read_lines(rt, alloc, lines) {
            KeeperEnd::WantOfMemory => thread::yield_now(),
            KeeperEnd::Ended | KeeperEnd::ReadFault | KeeperEnd::Told => break,
        }
    }
}

// Hands the replies to questions about hosts to the desk, until these end or no more are wanted.
fn answer_all<R: Wait + Sync, Q: Resolver, K: LineDesk>(
    rt: &R,
    alloc: Global,
    half: &mut Reader<AskerOut<'_, R>>,
    resolver: &mut Q,
    lines: &mut K,
) {
    for _ in rt.forever() {
        match half.answer_lines(rt, alloc, resolver, lines) {
            KeeperEnd::WantOfMemory => thread::yield_now(),
            KeeperEnd::Ended | KeeperEnd::ReadFault | KeeperEnd::Told => break,
        }
    }
}

impl<'s, R: Wait + Sync, P: Source + Drop, D: DeskCalls, B: Ledgers> Site<'s, '_, R, P, D, B> {
    /// Takes a half from the shelf, and hands its lines to the desk until the process ends or no more are wanted; of a process of
    /// the class by which names are looked up, the replies to its questions, over what the resolver finds. No lock is held while
    /// it looks. Whatever made it end, the pump learns by the shelf that this keeper has ended, and is woken for it.
    pub(crate) fn keep<Q: Resolver + Drop, C: Clock + Drop>(self, mut resolver: Q, clock: C) {
        let Site {
            rt,
            alloc,
            room,
            shelf,
        } = self;
        let Some(task) = shelf.board.take(rt) else {
            return;
        };
        let Task { mut half, refused } = task;
        let mut lines = ServeLines::new(alloc, LockDesk::new(rt, room, refused), clock);
        match &mut half {
            ProcOut::Child(half) => read_all(rt, alloc, half, &mut lines),
            ProcOut::Asker(half) => answer_all(rt, alloc, half, &mut resolver, &mut lines),
        }
        shelf.board.end(rt, &half);
        tell_end(rt, room);
    }
}
