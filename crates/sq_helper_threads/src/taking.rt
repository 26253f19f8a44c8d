//! What becomes of the two halves of a process that was started. What is proved of a function grows with the types that it may
//! name, so these are over the halves and the desk alone.
ghost use Rattle.std.specs.Prelude.{◌≡◌, ◌-◌, ◌<◌, ◌++◌, ◌∷◌, [], false, OnOk, vec_capacity, vec_len};
ghost use Rattle.sq_calls.specs.Telling.{CountsRefusal, IsStarted, Notes, RefusesAt};
ghost use Rattle.sq_keeper.specs.Pipes.{half_tells};
ghost use Rattle.sq_keeper.specs.PipeViews.{pipes_of, room_of};
ghost use Rattle.sq_machine.specs.declared.entries.Event.TheVariants as event;
ghost use Rattle.sq_machine.specs.declared.entries.Told.TheVariants as answer;
ghost use Rattle.sq_helper_threads.specs.Turning.{IsClosedHalf, TellsStop};

use crate::reader::Reader;
use sq_base::{EpochNo, Moment, ProcNo, WantOfMemory};
use sq_calls::{DeskFault, HelperCalls};
use sq_keeper::Pipes;
use sq_outside::Out;
use std::alloc::Global;

// Makes room for both halves of one process more.
fn make_room<P: Drop, Q: Out + Drop>(
    pipes: &mut Pipes<Q>,
    readers: &mut Vec<Reader<P>>,
) -> Result<(), WantOfMemory>
    ensures pipe_room { OnOk result (0 < room_of pipes.new) }
    ensures room { OnOk result (0 < vec_capacity readers.new - vec_len readers.new) }
    ensures pipes { pipes_of pipes.new ≡ pipes_of pipes.old }
    ensures readers { readers.new.items ≡ readers.old.items }
{
    pipes.reserve()?;
    readers.reserve(1)?;
    Ok(())
}

// Tells the desk that a process was started, and gives its number, where there is room for both halves.
#[tactic(auto, using(crate::proofs::TakingLaws::tells_stop))]
pub(crate) fn note_start<K: HelperCalls, P: Drop, Q: Out + Drop>(
    desk: &mut K,
    pipes: &mut Pipes<Q>,
    readers: &mut Vec<Reader<P>>,
    alloc: Global,
    epoch: EpochNo,
    class: u32,
    now: Moment,
) -> Result<ProcNo, DeskFault>
    ensures told { Notes K.first now answer.Proc
        (IsStarted K.first (K.told desk.old) epoch class) (K.told desk.old) (K.told desk.new)
        result }
    ensures refuses { RefusesAt K.first now (λ name. event.Started epoch name) epoch class
        (K.told desk.old) result }
    ensures refused { CountsRefusal (K.refused desk.old) (K.refused desk.new) result }
    ensures stopped { TellsStop (K.is_stopped desk.old) (K.is_stopped desk.new) result }
    ensures made { K.made desk.new ≡ K.made desk.old }
    ensures pipe_room { OnOk result (0 < room_of pipes.new) }
    ensures room { OnOk result (0 < vec_capacity readers.new - vec_len readers.new) }
    ensures pipes { pipes_of pipes.new ≡ pipes_of pipes.old }
    ensures readers { readers.new.items ≡ readers.old.items }
{
    if make_room(pipes, readers).is_err() {
        return Err(DeskFault::WantOfMemory);
    }
    desk.started(alloc, epoch, class, now)
}

// Keeps both halves of a process under its number, the one that is read with the moment of its start. It takes no memory.
pub(crate) fn put_both<P: Drop, Q: Out + Drop>(
    pipes: &mut Pipes<Q>,
    readers: &mut Vec<Reader<P>>,
    proc: ProcNo,
    since: Moment,
    from: P,
    to: Q,
)
    requires pipe_room { 0 < room_of pipes.old }
    requires room { 0 < vec_capacity readers.old - vec_len readers.old }
    ensures pipes { pipes_of pipes.new ≡ pipes_of pipes.old
        ++ record { proc = proc; to = to; closed = false } ∷ [] }
    ensures readers { readers.new.items ≡ readers.old.items
        ++ record { proc = proc; since = since; from = from } ∷ [] }
{
    pipes.put(proc, to);
    readers.push_reserved(Reader::new(proc, since, from));
}

// Closes the half of a process that is written to, which stops it, and lets go of the one that is read.
pub(crate) fn let_go<P: Drop, Q: Out + Drop>(_from: P, to: &mut Q)
    ensures { IsClosedHalf (half_tells Q.Sink.contents Q.Sink.faults Q.closed) to.old to.new }
{
    to.close();
}
