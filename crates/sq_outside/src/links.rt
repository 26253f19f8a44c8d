//! Links: a sink that can be closed, what dials origins, and what accepts clients.
ghost use Rattle.std.specs.Prelude.{◌≡◌, ℕ, ◌+◌, ◌≤◌, List, Bool, IfOk, OnOk, OnErr};
ghost use Rattle.std.specs.declared.option.Option.{Option};
ghost use Rattle.sq_outside.specs.Causes.{HasCause, TakesBack, count_limit};
ghost use Rattle.sq_outside.specs.Dials.{Dialled, Coming, IsClosed, IsOpen, CallsMore, DialsMore, DialReaches, GivesDial, LinkComes};
ghost use Rattle.sq_outside.specs.World.{IfLink, IfNoLink, AcceptHasCause};

use crate::observing::DialSeen;
use crate::traits::{Failed, Sink, Source};
use sq_base::{Addr, Text};
use std::alloc::Global;

/// A sink whose end the other side can see.
pub trait Out: Sink {
    /// Whether it was closed, where it tells that.
    ghost closed: { Self → Option Bool };

    /// Ends it: the other side reads to the end of what was written. A second call does nothing more.
    fn close(&mut self)
        ensures contents { Self.Sink.contents self.new ≡ Self.Sink.contents self.old }
        ensures closed { IsClosed (closed self.new) }
        ensures later { Self.Sink.faults self.old ≤ Self.Sink.faults self.new };
}

/// For what a link to an origin is dialled.
#[derive(Clone, Copy, PartialEq, Eq)]
pub enum LinkUse {
    /// A request and its reply, which one thread carries.
    Exchange,
    /// A tunnel, each of whose directions a thread of its own carries.
    Tunnel,
}

/// What reaches origins by host and port.
pub trait Dialer {
    type In: Source + Send + Drop;

    type Outgo: Out + Send + Drop;

    /// How many dials were made, failed ones not counted, and those that were given back, where it tells them.
    ghost dialled: { Self → Option Dialled };

    /// How often `dial` was called, failed calls too, where it tells that.
    ghost calls: { Self → Option ℕ };

    /// How often it has failed, and how many dials came back of which a half had failed.
    ghost faults: { Self → ℕ };

    /// Reaches the origin. Both halves begin with the count 0; the outgoing one is open. The use is for the dialer to
    /// see to what the link needs beside itself; no clause depends on it.
    fn dial(
        &mut self,
        alloc: Global,
        host: &Text,
        port: u16,
        link_use: LinkUse,
    ) -> Result<(Self::In, Self::Outgo), Failed>
        ensures calls { CallsMore (calls self.old) (calls self.new) }
        ensures made { OnOk result (DialsMore (dialled self.old) (dialled self.new)) }
        ensures failed { OnErr result (dialled self.new ≡ dialled self.old) }
        ensures reaches { IfOk result (λ h. DialReaches (dialled self.new) host.now port
            (Self.In.origin h.0) (Self.In.left h.0) (Self.Outgo.Sink.contents h.1)) }
        ensures open { IfOk result (λ h. IsOpen (Self.Outgo.closed h.1)) }
        ensures fresh { IfOk result
            (λ h. (Self.In.faults h.0 ≡ 0) × (Self.Outgo.Sink.faults h.1 ≡ 0)) }
        ensures cause { HasCause (faults self.old) (faults self.new) result };

    /// Takes both halves of a dial back. It takes no memory.
    fn give_back(&mut self, from: Self::In, to: Self::Outgo)
        ensures given { GivesDial (dialled self.old) (dialled self.new)
            (Self.In.origin from) (Self.Outgo.Sink.contents to) }
        ensures calls { calls self.new ≡ calls self.old }
        ensures cause { TakesBack (faults self.old) (faults self.new)
            (Self.In.faults from + Self.Outgo.Sink.faults to) };

    /// What it tells of its last dial: of one that failed, or that was given back. It takes no memory.
    fn seen(&self) -> DialSeen {
        DialSeen::nothing()
    }

    ghost capped: { (dialer : Self) → faults dialer ≤ count_limit };
}

/// What a listener answers.
#[derive(Drop)]
pub enum Accepted<I, O> {
    /// A client's link, with the address and the port from which it came.
    Link {
        from: I,
        to: O,
        addr: Addr,
        port: u16,
    },
    /// No link comes any more: it was asked to stop, by its own word, or all links of a listener in memory came.
    Stopped,
    /// The call failed, and was counted.
    Failed,
}

/// What accepts the links of clients.
pub trait Listener {
    type In: Source + Send + Drop;

    type Outgo: Out + Send + Drop;

    /// The links that will come, the next one first, where it tells them.
    ghost coming: { Self → Option (List Coming) };

    /// How often it has failed.
    ghost faults: { Self → ℕ };

    /// Waits for the next link. Both halves begin with the count 0; the outgoing one is open.
    fn next(&mut self, alloc: Global) -> Accepted<Self::In, Self::Outgo>
        ensures link { IfLink result
            (λ from to addr port. LinkComes (coming self.old) (coming self.new) addr port
            (Self.In.left from) (Self.Outgo.Sink.contents to)) }
        ensures none { IfNoLink result (coming self.new ≡ coming self.old) }
        ensures open { IfLink result (λ from to addr port. IsOpen (Self.Outgo.closed to)) }
        ensures fresh { IfLink result (λ from to addr port.
            (Self.In.faults from ≡ 0) × (Self.Outgo.Sink.faults to ≡ 0)) }
        ensures cause { AcceptHasCause (faults self.old) (faults self.new) result };

    ghost capped: { (listener : Self) → faults listener ≤ count_limit };
}
