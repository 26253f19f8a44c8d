//! The holds of the desk's lock by sessions. Nothing is proved here of what lies under it but what its type keeps; each
//! function takes the lock, makes the one call of its name with the arguments that it was handed, and lets go. The moment of
//! the call is taken from the clock under the lock. What it says is what the shares tell.
ghost use Rattle.std.specs.Prelude.{◌≡◌, ◌<◌, IfOk, IsErrOf};
ghost use Rattle.sq_calls.specs.declared.faults.DeskFault.TheVariants as fault;
ghost use Rattle.sq_shared.specs.Books.{SharesMade, SharesRefusal};

use crate::ledgers::{Asks, Ledgers, Refusals};
use crate::room::Room;
use sq_base::{Addr, CheckNo, ConnNo, Request};
use sq_calls::{DeskCalls, DeskFault};
use sq_checks::Record;
use sq_model::Stepped;
use sq_outside::Clock;
use std::alloc::Global;
use std::sync::Wait;
use std::sync::ledger::Share;

// Wakes the pump where an act may be due.
fn wake_pump_if<D: DeskCalls, B: Ledgers>(room: &Room<D, B>, due: bool) {
    if due {
        room.wake_pump();
    }
}

/// A client's connection opens.
pub fn open<R: Wait, C: Clock, D: DeskCalls, B: Ledgers>(
    rt: &R,
    room: &Room<D, B>,
    conn: ConnNo,
    addr: Addr,
    port: u16,
    clock: &mut C,
    refused: &mut Share<Refusals<B>>,
) -> Result<(), DeskFault>
    requires { 0 < refused.old.parts }
    ensures refused { SharesRefusal refused.old.amount refused.new.amount result }
    ensures parts { refused.new.parts ≡ refused.old.parts }
{
    room.hall.lock(rt).open(conn, addr, port, clock, refused)
}

/// A connection closes.
pub fn close<R: Wait, C: Clock, D: DeskCalls, B: Ledgers>(
    rt: &R,
    room: &Room<D, B>,
    conn: ConnNo,
    clock: &mut C,
    refused: &mut Share<Refusals<B>>,
) -> Result<(), DeskFault>
    requires { 0 < refused.old.parts }
    ensures memory { IsErrOf result fault.WantOfMemory → ⊥ }
    ensures refused { SharesRefusal refused.old.amount refused.new.amount result }
    ensures parts { refused.new.parts ≡ refused.old.parts }
{
    let mut hall = room.hall.lock(rt);
    let gave = hall.close(conn, clock, refused);
    let due = hall.may_have_older();
    drop(hall);
    wake_pump_if(room, due);
    gave
}

/// A check goes on.
pub fn step<R: Wait, C: Clock, D: DeskCalls, B: Ledgers>(
    rt: &R,
    room: &Room<D, B>,
    alloc: Global,
    check: CheckNo,
    clock: &mut C,
    refused: &mut Share<Refusals<B>>,
) -> Result<Stepped, DeskFault>
    requires { 0 < refused.old.parts }
    ensures refused { SharesRefusal refused.old.amount refused.new.amount result }
    ensures parts { refused.new.parts ≡ refused.old.parts }
{
    room.hall.lock(rt).step(alloc, check, clock, refused)
}

/// The outcome of a check is taken.
pub fn take<R: Wait, C: Clock, D: DeskCalls, B: Ledgers>(
    rt: &R,
    room: &Room<D, B>,
    alloc: Global,
    check: CheckNo,
    clock: &mut C,
    refused: &mut Share<Refusals<B>>,
) -> Result<Record, DeskFault>
    requires { 0 < refused.old.parts }
    ensures record { IfOk result (λ r. r.check ≡ check) }
    ensures refused { SharesRefusal refused.old.amount refused.new.amount result }
    ensures parts { refused.new.parts ≡ refused.old.parts }
{
    let mut hall = room.hall.lock(rt);
    let gave = hall.take(alloc, check, clock, refused);
    let due = hall.may_have_older();
    drop(hall);
    wake_pump_if(room, due);
    gave
}

/// A request arrives on a connection.
pub fn ask<R: Wait, C: Clock, D: DeskCalls, B: Ledgers>(
    rt: &R,
    room: &Room<D, B>,
    alloc: Global,
    conn: ConnNo,
    request: Request,
    clock: &mut C,
    asked: &mut Share<Asks<B>>,
    refused: &mut Share<Refusals<B>>,
) -> Result<CheckNo, DeskFault>
    requires asked { 0 < asked.old.parts }
    requires refused { 0 < refused.old.parts }
    ensures asked { SharesMade asked.old.amount asked.new.amount result }
    ensures asked_parts { asked.new.parts ≡ asked.old.parts }
    ensures refused { SharesRefusal refused.old.amount refused.new.amount result }
    ensures parts { refused.new.parts ≡ refused.old.parts }
{
    room.hall
        .lock(rt)
        .ask(alloc, conn, request, clock, asked, refused)
}
