//! `MemHub`.
ghost use Rattle.std.specs.Prelude.{◌≡◌, ℕ, ◌-◌, ◌≤◌, ◌^◌, ◌∷◌, true, is_some, Some};
ghost use Rattle.sq_base.specs.Targets.{target_of};
ghost use Rattle.sq_outside.specs.Causes.{raised};
ghost use Rattle.sq_rules.specs.Sights.{asked_request, unversioned};
ghost use Rattle.sq_mem_hub.specs.MemHubs.{hub_result};
ghost use Rattle.sq_turns.specs.Hubs.{HubRefuses, HubFails, asked_by};
ghost use Rattle.sq_turns.specs.Pieces.{RunsTo};
ghost use Rattle.sq_turns.specs.Tellings.{PutsBy, TakesBy};
ghost use Rattle.std.specs.Prelude.{[]};

use crate::acting::{Asked, act_all, hear};
use crate::rewriting::{hear_rewriter, work};
use sq_base::{Addr, CheckNo, ConnNo, EpochNo, Moment, QuestionNo, Request, Text, WantOfMemory};
use sq_cache::HashSeed;
use sq_checks::Record;
use sq_engine::Engine;
use sq_machine::{Offset, Refusal};
use sq_model::Stepped;
use sq_outside::{raised, raised_by};
use sq_pools::{ChooseFault, Pools, Seat, TagPools, TagSeat};
use sq_rewrite::{RewriteFault, Rewriter, Rewriting};
use sq_rules::{Class, Config};
use sq_turns::{Counts, Hub, HubFault};
use sq_urlmatch::Setup;
use std::alloc::Global;
use std::sync::{Arc, Wait};

/// A machine with its rewriter and its pools, at one moment, and the lines that their processes write.
#[derive(Drop)]
pub struct MemHub<'a, R: Wait> {
    rt: &'a R,
    alloc: Global,
    engine: Engine,
    pools: Pools,
    tags: TagPools,
    moment: Moment,
    // The next last.
    lines: Vec<Text>,
    asked_last: Asked,
    rewriter: Option<Rewriter>,
    rewriter_lines: Vec<Text>,
    rewriter_asked: Asked,
    // Whether the question that was found waiting last is one to the rewriter.
    rewriting: bool,
    asked: u64,
    refused: u64,
    granted: u64,
    ghost asked_capped: { asked ≤ 2 ^ 63 - 1 },
    ghost refused_capped: { refused ≤ 2 ^ 63 - 1 },
    ghost granted_capped: { granted ≤ 2 ^ 63 - 1 },
}

// What holds of every request.
fn formed(request: &Request)
    ensures parts { unversioned request.now
        ≡ asked_request request.now.method request.now.target request.now.fields }
    ensures target { is_some (target_of request.now.method request.now.target) ≡ true }
{
    let _minor = request.minor;
}

// What the hub answers where the machine answered so. A refusal is counted.
fn answer<T>(refused: &mut u64, made: Result<T, Refusal>) -> Result<T, HubFault>
    requires { refused.old ≤ 2 ^ 63 - 1 }
    ensures result { result ≡ hub_result made }
    ensures refuses { HubRefuses refused.old refused.new result }
    ensures fails { (before now : ℕ) → HubFails before now result }
    ensures later { refused.old ≤ refused.new }
    ensures capped { refused.new ≤ 2 ^ 63 - 1 }
{
    match made {
        Ok(value) => Ok(value),
        Err(Refusal::WantOfMemory) => Err(HubFault::WantOfMemory),
        Err(why) => {
            *refused = raised(*refused);
            Err(HubFault::Refused(why))
        }
    }
}

// Counts a check that began.
fn count_asked(asked: &mut u64, said: &Result<CheckNo, HubFault>)
    requires { asked.old ≤ 2 ^ 63 - 1 }
    ensures counts { asked.new ≡ asked_by asked.old said.now }
    ensures capped { asked.new ≤ 2 ^ 63 - 1 }
{
    match said {
        Ok(_) => *asked = raised(*asked),
        Err(_) => {}
    }
}

// The rewriter of this class, if there is one.
fn rewriter_of(alloc: Global, class: Option<&Class>) -> Option<Rewriter>
    ensures runs { RunsTo result [] }
{
    match class {
        Some(class) => Some(Rewriter::new(alloc, class)),
        None => None,
    }
}

// Puts the question about the request of a record.
fn put(
    alloc: Global,
    rewriter: &mut Option<Rewriter>,
    judged: &Record,
) -> Result<QuestionNo, RewriteFault>
    ensures puts { PutsBy judged.now result rewriter.old rewriter.new }
{
    let sight = judged.sight();
    match rewriter {
        Some(rewriter) => rewriter.ask(alloc, &sight.request, sight.addr),
        None => Err(RewriteFault::Full),
    }
}

// Takes what a question came to.
fn taken(
    rewriter: &mut Option<Rewriter>,
    question: QuestionNo,
) -> Result<Option<Rewriting>, RewriteFault>
    ensures takes { TakesBy question result rewriter.old rewriter.new }
{
    match rewriter {
        Some(rewriter) => rewriter.take(question),
        None => Err(RewriteFault::UnknownQuestion(question)),
    }
}

impl<'a, R: Wait> MemHub<'a, R> {
    ghost use Rattle.std.specs.Prelude.{IfOk, List, [], pos};
    ghost use Rattle.sq_rules.specs.Configurations.{Configuration, IsConfiguration};
    ghost use Rattle.sq_machine.specs.Epochs.{config_of};
    ghost use Rattle.sq_model.specs.Given.{EachOf};
    ghost use Rattle.sq_machine.specs.Entries.{entry_at};
    ghost use Rattle.sq_engine.specs.EngineViews.{state_of};
    ghost use Rattle.sq_machine.specs.declared.entries.Event.TheVariants as event;
    ghost use Rattle.sq_machine.specs.declared.entries.Told.TheVariants as told;
    ghost use Rattle.sq_turns.specs.Pieces.{RunsTo};
    ghost use Rattle.sq_turns.specs.Tellings.{StandsAt};

    /// A machine that begins with this configuration at this moment, with its rewriter, if it has one, and its pools. The
    /// helper processes write these lines, and those of the rewriter these, the last one first.
    pub fn new(
        rt: &'a R,
        alloc: Global,
        setup: Setup,
        moment: Moment,
        lines: Vec<Text>,
        rewriter_lines: Vec<Text>,
    ) -> Result<MemHub<'a, R>, WantOfMemory>
        ensures runs { IfOk result (λ m. RunsTo m.rewriter []) }
        ensures stands { IfOk result
            (λ m. (configs : List Configuration) → EachOf IsConfiguration configs
            → config_of configs 1 ≡ Some setup
            → StandsAt configs (entry_at moment (event.Begin (pos 0)) (told.Epoch 1) ∷ [])
            (state_of m.engine)) }
    {
        let pools = Pools::new(alloc, EpochNo(1), setup.config(), moment)?;
        let tags = TagPools::new(alloc, EpochNo(1), setup.config(), moment)?;
        let rewriter = rewriter_of(alloc, setup.config().rewriter());
        let engine = Engine::new(alloc, setup, Offset(0), moment, HashSeed::fixed())?;
        Ok(MemHub {
            rt,
            alloc,
            engine,
            pools,
            tags,
            moment,
            lines,
            asked_last: Asked::Nobody,
            rewriter,
            rewriter_lines,
            rewriter_asked: Asked::Nobody,
            rewriting: false,
            asked: 0,
            refused: 0,
            granted: 0,
        })
    }
}

impl<'a, R: Wait> Hub for MemHub<'a, R> {
    ghost use Rattle.std.specs.Prelude.{Some};
    ghost use Rattle.sq_mem_hub.specs.MemHubs.{both_pools, hub_state};

    ghost asked = { λ m. m.asked };

    ghost refused = { λ m. m.refused };

    ghost granted = { λ m. m.granted };

    ghost faults = { λ m. 0 };

    ghost told = { λ m. Some (hub_state m.engine m.rewriter (both_pools m.pools m.tags) m.moment) };

    fn open(
        &mut self,
        _alloc: Global,
        conn: ConnNo,
        addr: Addr,
        port: u16,
    ) -> Result<(), HubFault> {
        let made = self.engine.open(conn, addr, port, self.moment);
        answer(&mut self.refused, made)
    }

    fn close(&mut self, conn: ConnNo) -> Result<(), HubFault> {
        let made = self.engine.close(conn, self.moment);
        answer(&mut self.refused, made)
    }

    fn ask(&mut self, alloc: Global, conn: ConnNo, request: Request) -> Result<CheckNo, HubFault> {
        formed(&request);
        let made = self.engine.ask(alloc, conn, request, self.moment);
        let said = answer(&mut self.refused, made);
        count_asked(&mut self.asked, &said);
        said
    }

    fn step(&mut self, alloc: Global, check: CheckNo) -> Result<Stepped, HubFault> {
        self.rewriting = false;
        let made = self.engine.step(alloc, check, self.moment);
        answer(&mut self.refused, made)
    }

    fn take(&mut self, _alloc: Global, check: CheckNo) -> Result<Record, HubFault> {
        let made = self.engine.take(check, self.moment);
        answer(&mut self.refused, made)
    }

    fn rewrites(&self) -> bool {
        self.rewriter.is_some()
    }

    fn put_rewrite(&mut self, alloc: Global, judged: &Record) -> Result<QuestionNo, RewriteFault> {
        put(alloc, &mut self.rewriter, judged)
    }

    fn take_rewrite(&mut self, question: QuestionNo) -> Result<Option<Rewriting>, RewriteFault> {
        self.rewriting = true;
        taken(&mut self.rewriter, question)
    }

    fn choose(
        &mut self,
        alloc: Global,
        epoch: EpochNo,
        config: &Arc<Config>,
        pool: u32,
        addr: Addr,
    ) -> Result<Seat, ChooseFault> {
        let chosen = self
            .pools
            .choose(alloc, epoch, config, pool, addr, self.moment);
        // For the proof: a number is left.
        self.pools.facts();
        chosen
    }

    fn grant(&mut self, seat: &Seat, wanted: u64) -> u64 {
        let given = self.pools.grant(seat, wanted, self.moment);
        self.granted = raised_by(self.granted, given);
        given
    }

    fn leave(&mut self, seat: Seat) {
        self.pools.leave(seat);
    }

    fn choose_tag(
        &mut self,
        alloc: Global,
        epoch: EpochNo,
        config: &Arc<Config>,
        pool: u32,
        tag: &Text,
    ) -> Result<TagSeat, ChooseFault> {
        let chosen = self
            .tags
            .choose(alloc, epoch, config, pool, tag, self.moment);
        // For the proof: a number is left.
        self.tags.facts();
        chosen
    }

    fn grant_tag(&mut self, seat: &TagSeat, wanted: u64) -> u64 {
        let given = self.tags.grant(seat, wanted, self.moment);
        self.granted = raised_by(self.granted, given);
        given
    }

    fn leave_tag(&mut self, seat: TagSeat) {
        self.tags.leave(seat);
    }

    fn wait(&mut self) {
        if self.rewriting {
            work(
                self.rt,
                self.alloc,
                &mut self.rewriter,
                &mut self.rewriter_asked,
            );
            hear_rewriter(
                self.alloc,
                &mut self.rewriter,
                &mut self.rewriter_lines,
                self.rewriter_asked,
            );
            return;
        }
        act_all(
            self.rt,
            self.alloc,
            &mut self.engine,
            &mut self.asked_last,
            self.moment,
        );
        hear(
            self.alloc,
            &mut self.engine,
            &mut self.lines,
            self.asked_last,
            self.moment,
        );
    }

    fn pause(&mut self) {}

    fn counted(&self) -> Counts {
        Counts {
            asked: self.asked,
            granted: self.granted,
        }
    }

    ghost asked_capped = { λ m. m.asked_capped };

    ghost granted_capped = { λ m. m.granted_capped };
}
