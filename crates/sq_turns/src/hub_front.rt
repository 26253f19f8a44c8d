//! `HubFront`: the front of one connection over a hub.
ghost use Rattle.std.specs.Prelude.{◌≡◌, ◌==◌, ◌<◌, ◌≤◌, ◌-◌, ◌^◌, IfSome, is_some, false};
ghost use Rattle.std.specs.declared.option.Option.{Option};
ghost use Rattle.sq_turns.specs.Hubs.{opened_of, unclosed_of, OpenFails, CloseFails, DecideFails};
ghost use Rattle.sq_turns.specs.Judging.{GrantsOn, emptied_on};
ghost use Rattle.sq_turns.specs.Tellings.{Tells};

use crate::asked_rewriter::rewrite;
use crate::front::{CloseFault, Counts, Decided, Front, Opened, Rewritten, SitFault};
use crate::hub::{Hub, HubFault};
use crate::judging::judge;
use crate::seating::{give_back, granted, take_seat};
use sq_base::{Addr, ConnNo, Request};
use sq_checks::Record;
use sq_forward::Meter;
use sq_machine::Refusal;
use sq_outside::COUNT_LIMIT;
use sq_pools::HeldSeat;
use std::alloc::Global;
use std::sync::Wait;

/// What one connection sees of a hub: its questions, and the seat that it holds.
#[derive(Drop)]
pub struct HubFront<'a, R: Wait, H: Hub + Drop> {
    rt: &'a R,
    hub: H,
    conn: ConnNo,
    seat: Option<HeldSeat>,
    short: bool,
    dry: u64,
    ghost dry_capped: { dry ≤ 2 ^ 63 - 1 },
}

impl<'a, R: Wait, H: Hub + Drop> HubFront<'a, R, H> {
    ghost use Rattle.std.specs.Prelude.{List, []};
    ghost use Rattle.sq_rules.specs.Configurations.{Configuration};
    ghost use Rattle.sq_machine.specs.Entries.{History};
    ghost use Rattle.sq_turns.specs.Pieces.{FrontStands, RunsTo, served_told};
    ghost use Rattle.sq_turns.specs.Tellings.{StandsAt};
    ghost use Rattle.sq_rewrite.specs.Calls.{Calls};

    /// The front of a connection of this number. It holds no seat. It takes no memory.
    pub fn new(rt: &'a R, hub: H, conn: ConnNo) -> HubFront<'a, R, H>
        ensures hub { result.hub ≡ hub }
        ensures conn { result.conn ≡ conn }
        ensures seat { is_some result.seat ≡ false }
        ensures dry { result.dry ≡ 0 }
        // Where the hub tells a state that stands for a history, and one of a rewriter after some calls, the front
        // stands for no answers so far.
        ensures stands { IfSome (H.told hub)
            (λ v. (configs : List Configuration) (h : History) (calls : Calls)
            → StandsAt configs h v.machine → RunsTo v.rewriter calls
            → FrontStands conn (served_told (H.told hub)) (H.refused hub) []) }
    {
        HubFront {
            rt,
            hub,
            conn,
            seat: None,
            short: false,
            dry: 0,
        }
    }

    /// The hub, handed back. It takes no memory.
    pub fn finish(self) -> H
        requires unseated { is_some self.seat ≡ false }
        ensures hub { result ≡ self.entry.hub }
    {
        self.hub
    }
}

impl<'a, R: Wait, H: Hub + Drop> Meter for HubFront<'a, R, H> {
    ghost use Rattle.std.specs.Prelude.{is_some};
    ghost use Rattle.sq_turns.specs.Hubs.{Counted};
    ghost use Rattle.sq_turns.specs.Pieces.{served_told};
    ghost use Rattle.sq_forward.specs.Meters.{is_short, Gives, granted_after, dry_after_grant};

    ghost seated = { λ f. is_some f.seat };

    ghost granted = { λ f. H.granted f.hub };

    ghost emptied = { λ f. emptied_on f.seat (H.told f.hub) };

    ghost short = { λ f. f.short };

    ghost dry = { λ f. f.dry };

    ghost Besides = { Counted };

    ghost besides = { λ f. record {
      conn = f.conn;
      served = served_told (H.told f.hub);
      asked = H.asked f.hub;
      refused = H.refused f.hub;
    } };

    ghost capped = { λ f. H.granted_capped f.hub };

    fn is_seated(&self) -> bool {
        self.seat.is_some()
    }

    fn grant(&mut self, wanted: u64) -> u64
        // It is the hub's grant on its seat, where it holds one.
        ensures told { Tells (GrantsOn self.old.seat wanted result) (H.told self.old.hub)
            (H.told self.new.hub) }
        ensures gives { Gives (is_some self.old.seat) wanted result }
        ensures empty { 0 < wanted
            → IfSome (emptied_on self.old.seat (H.told self.old.hub)) (λ e. (result == 0) ≡ e) }
        ensures seated { is_some self.new.seat ≡ is_some self.old.seat }
        ensures besides { ◌≡◌ {A = Counted}
            (record {
              conn = self.new.conn;
              served = served_told (H.told self.new.hub);
              asked = H.asked self.new.hub;
              refused = H.refused self.new.hub;
            })
            (record {
              conn = self.old.conn;
              served = served_told (H.told self.old.hub);
              asked = H.asked self.old.hub;
              refused = H.refused self.old.hub;
            }) }
        ensures granted { H.granted self.new.hub
            ≡ granted_after (is_some self.old.seat) (H.granted self.old.hub) result }
        ensures short { self.new.short ≡ is_short wanted result }
        ensures dry { self.new.dry ≡ dry_after_grant result self.old.dry }
        ensures conn { self.new.conn ≡ self.old.conn }
        ensures seat { self.new.seat ≡ self.old.seat }
    {
        let given = granted(&mut self.hub, &self.seat, wanted);
        self.short = wanted > 0 && given == 0;
        if given > 0 {
            self.dry = 0;
        }
        given
    }

    fn pause(&mut self) {
        self.hub.pause();
        if self.short {
            self.dry = (self.dry + 1).min(COUNT_LIMIT);
        }
        self.short = false;
    }
}

impl<'a, R: Wait, H: Hub + Drop> Front for HubFront<'a, R, H> {
    ghost use Rattle.std.proofs.Common.{ap, subst};
    ghost use Rattle.std.specs.Prelude.{List, ◌∷◌, ◌++◌, [], OnOk, OnErr};
    ghost use Rattle.sq_turns.specs.Fronts.{FrontAnswer, OfOpen, OfDecide, OfRewrite, OfSit, OfClose, Decides, Rewrites, Asks, OpenRefuses, DecideRefuses, CloseRefuses, takes_seat};
    ghost use Rattle.sq_turns.specs.Hubs.{Counted};
    ghost use Rattle.sq_turns.specs.Judging.{Closes, Judges, Opens, RewritesFor, Rises, Sits};
    ghost use Rattle.sq_turns.specs.Pieces.{FrontStands, served_told};

    ghost stands = { λ f list. FrontStands f.conn (served_told (H.told f.hub)) (H.refused f.hub)
        list };

    ghost number = { λ f. f.conn };

    ghost asked = { λ f. H.asked f.hub };

    ghost refused = { λ f. H.refused f.hub };

    fn open(&mut self, alloc: Global, addr: Addr, port: u16) -> Opened
        // It opens, or is full or refused, as the machine answers.
        ensures opens { Tells (Opens self.old.conn addr port result) (H.told self.old.hub)
            (H.told self.new.hub) }
        ensures told { (list : List FrontAnswer)
            → FrontStands self.old.conn (served_told (H.told self.old.hub))
            (H.refused self.old.hub) list
            → FrontStands self.new.conn (served_told (H.told self.new.hub))
            (H.refused self.new.hub) (list ++ OfOpen addr port result ∷ []) }
        ensures number { self.new.conn ≡ self.old.conn }
        ensures asked { H.asked self.new.hub ≡ H.asked self.old.hub }
        ensures refused_later { H.refused self.old.hub ≤ H.refused self.new.hub }
        ensures refused { OpenRefuses (H.refused self.old.hub) (H.refused self.new.hub) result }
        ensures failed { OpenFails (H.faults self.old.hub) (H.faults self.new.hub) result }
        ensures seated { is_some self.new.seat ≡ is_some self.old.seat }
        ensures granted { H.granted self.new.hub ≡ H.granted self.old.hub }
        ensures dry { self.new.dry ≡ self.old.dry }
    {
        match self.hub.open(alloc, self.conn, addr, port) {
            Ok(()) => Opened::In,
            Err(fault) => opened_of(fault),
        }
    }

    fn decide(&mut self, alloc: Global, request: &Request) -> Decided
        // Where the hub tells, the record is of the check of this very request, and is taken last; no other request is
        // judged; and a refusal is the machine's, on a connection that was open without a check for a last number alone.
        ensures judges { Tells (Judges self.old.conn request.now result) (H.told self.old.hub)
            (H.told self.new.hub) }
        ensures told { (list : List FrontAnswer)
            → FrontStands self.old.conn (served_told (H.told self.old.hub))
            (H.refused self.old.hub) list
            → FrontStands self.new.conn (served_told (H.told self.new.hub))
            (H.refused self.new.hub) (list ++ OfDecide request.now result ∷ []) }
        ensures number { self.new.conn ≡ self.old.conn }
        ensures record { Decides request.now result }
        ensures asked_later { H.asked self.old.hub ≤ H.asked self.new.hub }
        ensures asked { Asks (H.asked self.old.hub) (H.asked self.new.hub) result }
        ensures refused_later { H.refused self.old.hub ≤ H.refused self.new.hub }
        ensures refused { DecideRefuses (H.refused self.old.hub) (H.refused self.new.hub) result }
        ensures failed { DecideFails (H.faults self.old.hub) (H.faults self.new.hub) result }
        ensures seated { is_some self.new.seat ≡ is_some self.old.seat }
        ensures granted { H.granted self.new.hub ≡ H.granted self.old.hub }
        ensures dry { self.new.dry ≡ self.old.dry }
    {
        judge(self.rt, alloc, &mut self.hub, self.conn, request)
    }

    fn rewrite(&mut self, alloc: Global, judged: &Record) -> Rewritten
        // Where the hub tells, it is what was taken of the question that was put for this record. Besides, the request
        // stays the same only where there is no rewriter, or where it has no place or no number for the question.
        ensures takes { Tells (RewritesFor judged.now result) (H.told self.old.hub)
            (H.told self.new.hub) }
        ensures told { (list : List FrontAnswer)
            → FrontStands self.old.conn (served_told (H.told self.old.hub))
            (H.refused self.old.hub) list
            → FrontStands self.new.conn (served_told (H.told self.new.hub))
            (H.refused self.new.hub) (list ++ OfRewrite judged.now result ∷ []) }
        ensures number { self.new.conn ≡ self.old.conn }
        ensures rewrites { Rewrites judged.now.sight.request result }
        ensures asked { H.asked self.new.hub ≡ H.asked self.old.hub }
        ensures refused_later { H.refused self.old.hub ≤ H.refused self.new.hub }
        ensures seated { is_some self.new.seat ≡ is_some self.old.seat }
        ensures granted { H.granted self.new.hub ≡ H.granted self.old.hub }
        ensures dry { self.new.dry ≡ self.old.dry }
    {
        rewrite(self.rt, alloc, &mut self.hub, judged)
    }

    fn sit(&mut self, alloc: Global, judged: &Record) -> Result<(), SitFault>
        requires unseated { is_some self.old.seat ≡ false }
        // It is the hub's choice of the record's pool, if that has one; where the buckets of that are by tags, for the
        // tag of the record, if that has one.
        ensures sits { Tells (Sits judged.now result self.old.seat self.new.seat)
            (H.told self.old.hub) (H.told self.new.hub) }
        ensures told { (list : List FrontAnswer)
            → FrontStands self.old.conn (served_told (H.told self.old.hub))
            (H.refused self.old.hub) list
            → FrontStands self.new.conn (served_told (H.told self.new.hub))
            (H.refused self.new.hub) (list ++ OfSit judged.now result ∷ []) }
        ensures number { self.new.conn ≡ self.old.conn }
        ensures seated { OnOk result (is_some self.new.seat ≡ takes_seat judged.now) }
        ensures refused_seat { OnErr result (is_some self.new.seat ≡ false) }
        ensures asked { H.asked self.new.hub ≡ H.asked self.old.hub }
        ensures refused_later { H.refused self.old.hub ≤ H.refused self.new.hub }
        ensures granted { H.granted self.new.hub ≡ H.granted self.old.hub }
        ensures dry { self.new.dry ≡ self.old.dry }
    {
        match take_seat(alloc, &mut self.hub, judged) {
            Ok(seat) => {
                self.seat = seat;
                Ok(())
            }
            Err(fault) => Err(fault),
        }
    }

    fn rise(&mut self)
        // It gives back the seat that it holds.
        ensures rises { Tells (Rises self.old.seat) (H.told self.old.hub) (H.told self.new.hub) }
        ensures told { (list : List FrontAnswer)
            → FrontStands self.old.conn (served_told (H.told self.old.hub))
            (H.refused self.old.hub) list
            → FrontStands self.new.conn (served_told (H.told self.new.hub))
            (H.refused self.new.hub) list }
        ensures number { self.new.conn ≡ self.old.conn }
        ensures seated { is_some self.new.seat ≡ false }
        ensures asked { H.asked self.new.hub ≡ H.asked self.old.hub }
        ensures refused_later { H.refused self.old.hub ≤ H.refused self.new.hub }
        ensures granted { H.granted self.new.hub ≡ H.granted self.old.hub }
        ensures dry { self.new.dry ≡ self.old.dry }
    {
        match self.seat.take() {
            Some(seat) => give_back(&mut self.hub, seat),
            None => {}
        }
    }

    fn close(&mut self) -> Result<(), CloseFault>
        // It closes, or is refused, as the machine answers.
        ensures closes { Tells (Closes self.old.conn result) (H.told self.old.hub)
            (H.told self.new.hub) }
        ensures told { (list : List FrontAnswer)
            → FrontStands self.old.conn (served_told (H.told self.old.hub))
            (H.refused self.old.hub) list
            → FrontStands self.new.conn (served_told (H.told self.new.hub))
            (H.refused self.new.hub) (list ++ OfClose result ∷ []) }
        ensures number { self.new.conn ≡ self.old.conn }
        ensures asked { H.asked self.new.hub ≡ H.asked self.old.hub }
        ensures refused_later { H.refused self.old.hub ≤ H.refused self.new.hub }
        ensures refused { CloseRefuses (H.refused self.old.hub) (H.refused self.new.hub) result }
        ensures failed { CloseFails (H.faults self.old.hub) (H.faults self.new.hub) result }
        ensures seated { is_some self.new.seat ≡ is_some self.old.seat }
        ensures granted { H.granted self.new.hub ≡ H.granted self.old.hub }
        ensures dry { self.new.dry ≡ self.old.dry }
    {
        match self.hub.close(self.conn) {
            Ok(()) => Ok(()),
            Err(fault) => Err(unclosed_of(fault)),
        }
    }

    fn counted(&self) -> Counts {
        self.hub.counted()
    }

    ghost asked_capped = { λ f. H.asked_capped f.hub };

    ghost number_besides = { λ a b e. ap Counted.conn e };

    ghost asked_besides = { λ a b e. ap Counted.asked e };

    ghost refused_besides = { λ a b e. ap Counted.refused e };

    ghost stands_besides = { λ a b e list s.
        subst (λ k. FrontStands k.conn k.served k.refused list) e s };
}

// What the opening of a connection comes to that the hub did not open.
fn opened_of(fault: HubFault) -> Opened
    ensures { result ≡ opened_of fault }
{
    match fault {
        HubFault::Refused(Refusal::TooManyConns(_)) => Opened::Full,
        HubFault::Refused(Refusal::WantOfMemory) => Opened::WantOfMemory,
        HubFault::Refused(why) => Opened::Refused(why),
        HubFault::JournalFault => Opened::JournalFault,
        HubFault::WantOfMemory => Opened::WantOfMemory,
    }
}

// Why a connection was not closed that the hub did not close.
fn unclosed_of(fault: HubFault) -> CloseFault
    ensures { result ≡ unclosed_of fault }
{
    match fault {
        HubFault::Refused(Refusal::WantOfMemory) => CloseFault::WantOfMemory,
        HubFault::Refused(why) => CloseFault::Refused(why),
        HubFault::JournalFault => CloseFault::JournalFault,
        HubFault::WantOfMemory => CloseFault::WantOfMemory,
    }
}
