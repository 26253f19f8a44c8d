//! `Front`: the engine, the rewriter and the pools as one connection sees them.
ghost use Rattle.std.specs.Prelude.{◌≡◌, ℕ, ◌≤◌, ◌∷◌, ◌++◌, [], List, false, OnOk, OnErr};
ghost use Rattle.sq_outside.specs.Causes.{count_limit};
ghost use Rattle.sq_turns.specs.Fronts.{FrontAnswer, OfOpen, OfDecide, OfRewrite, OfSit, OfClose, Decides, Rewrites, Asks, OpenRefuses, DecideRefuses, CloseRefuses, takes_seat};

use sq_base::{Addr, Request, Text};
use sq_checks::Record;
use sq_forward::Meter;
use sq_machine::Refusal;
use std::alloc::Global;
use thiserror::Error;

/// What the opening of a connection comes to.
#[derive(Clone, Copy)]
pub enum Opened {
    /// It is open.
    In,
    /// As many connections are open as may be.
    Full,
    /// It is refused otherwise.
    Refused(Refusal),
    /// The journal could not be written.
    JournalFault,
    /// There was no memory.
    WantOfMemory,
}

/// What a question about a request comes to.
#[derive(Drop)]
pub enum Decided {
    /// The check of this request is over.
    Record(Record),
    /// The check that is over judged another request.
    Mismatch { judged: Request },
    /// The question is refused.
    Refused(Refusal),
    /// The journal could not be written.
    JournalFault,
    /// There was no memory.
    WantOfMemory,
}

/// What becomes of an allowed request before it goes on.
#[derive(Drop)]
pub enum Rewritten {
    /// It goes on as it is.
    Same,
    /// This request goes on in its place.
    New(Request),
    /// The client is sent to this URL, with this status.
    Redirect(u16, Text),
    /// There was no memory.
    WantOfMemory,
}

/// Why no seat was taken.
#[derive(Clone, Copy, Debug, Error)]
pub enum SitFault {
    /// The numbers of seats are used up.
    #[error("the numbers of seats are used up")]
    Spent,
    /// There was no memory.
    #[error("out of memory")]
    WantOfMemory,
}

/// Why a connection was not closed.
#[derive(Clone, Copy, Debug, Error)]
pub enum CloseFault {
    /// It is refused.
    #[error("{0}")]
    Refused(Refusal),
    /// The journal could not be written.
    #[error("the journal failed")]
    JournalFault,
    /// There was no memory.
    #[error("out of memory")]
    WantOfMemory,
}

/// How many questions were asked, and how many bytes were granted on seats. Each stays at 2^63 - 1 once it
/// is there.
#[derive(Clone, Copy)]
pub struct Counts {
    pub asked: u64,
    pub granted: u64,
}

/// What one connection sees of the engine, the rewriter and the pools.
pub trait Front: Meter {
    /// It stands for this list of the answers that it gave so far, where it tells them.
    ghost stands: { Self → List FrontAnswer → Type 0 };

    /// The number of its connection. No call changes it.
    ghost number: { Self → ℕ };

    /// How many questions it asked. It never falls.
    ghost asked: { Self → ℕ };

    /// How often it was refused. It never falls.
    ghost refused: { Self → ℕ };

    /// Opens the connection of a client.
    fn open(&mut self, alloc: Global, addr: Addr, port: u16) -> Opened
        ensures told { (list : List FrontAnswer) → stands self.old list
            → stands self.new (list ++ OfOpen addr port result ∷ []) }
        ensures number { number self.new ≡ number self.old }
        ensures asked { asked self.new ≡ asked self.old }
        ensures refused_later { refused self.old ≤ refused self.new }
        ensures refused { OpenRefuses (refused self.old) (refused self.new) result }
        ensures seated { Self.Meter.seated self.new ≡ Self.Meter.seated self.old }
        ensures granted { Self.Meter.granted self.new ≡ Self.Meter.granted self.old }
        ensures dry { Self.Meter.dry self.new ≡ Self.Meter.dry self.old };

    /// Asks about a request, and waits until its check is over.
    fn decide(&mut self, alloc: Global, request: &Request) -> Decided
        ensures told { (list : List FrontAnswer) → stands self.old list
            → stands self.new (list ++ OfDecide request.now result ∷ []) }
        ensures number { number self.new ≡ number self.old }
        ensures record { Decides request.now result }
        ensures asked_later { asked self.old ≤ asked self.new }
        ensures asked { Asks (asked self.old) (asked self.new) result }
        ensures refused_later { refused self.old ≤ refused self.new }
        ensures refused { DecideRefuses (refused self.old) (refused self.new) result }
        ensures seated { Self.Meter.seated self.new ≡ Self.Meter.seated self.old }
        ensures granted { Self.Meter.granted self.new ≡ Self.Meter.granted self.old }
        ensures dry { Self.Meter.dry self.new ≡ Self.Meter.dry self.old };

    /// Asks the rewriter about the request of a record, and waits until it has answered. Another request has the
    /// method, version and fields of that one, and the scheme http.
    fn rewrite(&mut self, alloc: Global, judged: &Record) -> Rewritten
        ensures told { (list : List FrontAnswer) → stands self.old list
            → stands self.new (list ++ OfRewrite judged.now result ∷ []) }
        ensures number { number self.new ≡ number self.old }
        ensures rewrites { Rewrites judged.now.sight.request result }
        ensures asked { asked self.new ≡ asked self.old }
        ensures refused_later { refused self.old ≤ refused self.new }
        ensures seated { Self.Meter.seated self.new ≡ Self.Meter.seated self.old }
        ensures granted { Self.Meter.granted self.new ≡ Self.Meter.granted self.old }
        ensures dry { Self.Meter.dry self.new ≡ Self.Meter.dry self.old };

    /// Takes a seat in the pool of a record, if it has one; in a pool with buckets by tags only for the tag of the
    /// record, if it has one.
    fn sit(&mut self, alloc: Global, judged: &Record) -> Result<(), SitFault>
        requires unseated { Self.Meter.seated self.old ≡ false }
        ensures told { (list : List FrontAnswer) → stands self.old list
            → stands self.new (list ++ OfSit judged.now result ∷ []) }
        ensures number { number self.new ≡ number self.old }
        ensures seated { OnOk result (Self.Meter.seated self.new ≡ takes_seat judged.now) }
        ensures refused_seat { OnErr result (Self.Meter.seated self.new ≡ false) }
        ensures asked { asked self.new ≡ asked self.old }
        ensures refused_later { refused self.old ≤ refused self.new }
        ensures granted { Self.Meter.granted self.new ≡ Self.Meter.granted self.old }
        ensures dry { Self.Meter.dry self.new ≡ Self.Meter.dry self.old };

    /// Gives its seat back, if it holds one.
    fn rise(&mut self)
        ensures told { (list : List FrontAnswer) → stands self.old list → stands self.new list }
        ensures number { number self.new ≡ number self.old }
        ensures seated { Self.Meter.seated self.new ≡ false }
        ensures asked { asked self.new ≡ asked self.old }
        ensures refused_later { refused self.old ≤ refused self.new }
        ensures granted { Self.Meter.granted self.new ≡ Self.Meter.granted self.old }
        ensures dry { Self.Meter.dry self.new ≡ Self.Meter.dry self.old };

    /// Closes the connection.
    fn close(&mut self) -> Result<(), CloseFault>
        ensures told { (list : List FrontAnswer) → stands self.old list
            → stands self.new (list ++ OfClose result ∷ []) }
        ensures number { number self.new ≡ number self.old }
        ensures asked { asked self.new ≡ asked self.old }
        ensures refused_later { refused self.old ≤ refused self.new }
        ensures refused { CloseRefuses (refused self.old) (refused self.new) result }
        ensures seated { Self.Meter.seated self.new ≡ Self.Meter.seated self.old }
        ensures granted { Self.Meter.granted self.new ≡ Self.Meter.granted self.old }
        ensures dry { Self.Meter.dry self.new ≡ Self.Meter.dry self.old };

    /// How many questions it asked, and how many bytes were granted on its seats. It takes no memory.
    fn counted(&self) -> Counts
        ensures asked { result.asked ≡ asked self.now }
        ensures granted { result.granted ≡ Self.Meter.granted self.now };

    ghost asked_capped: { (front : Self) → asked front ≤ count_limit };

    // Grants and pauses change none of what it tells.
    ghost number_besides: { (a b : Self) → Self.Meter.besides a ≡ Self.Meter.besides b
        → number a ≡ number b };

    ghost asked_besides: { (a b : Self) → Self.Meter.besides a ≡ Self.Meter.besides b
        → asked a ≡ asked b };

    ghost refused_besides: { (a b : Self) → Self.Meter.besides a ≡ Self.Meter.besides b
        → refused a ≡ refused b };

    ghost stands_besides: { (a b : Self) → Self.Meter.besides a ≡ Self.Meter.besides b
        → (list : List FrontAnswer) → stands a list → stands b list };
}
