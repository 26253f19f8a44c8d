//! `MemSpawner`: a spawner in memory.
ghost use Rattle.std.specs.Prelude.{◌≡◌, ◌+◌, ◌<◌, ◌≤◌, [], vec_len, vec_capacity, Some, IfOk, IfSome, IfNone, OnErr, OnOk, is_err, is_none, position};
ghost use Rattle.sq_outside.specs.Calls.{next_call, counted};
ghost use Rattle.sq_outside.specs.Causes.{HasCause};
ghost use Rattle.sq_outside_mem.specs.Memory.{source_faults, sink_bytes, sink_faults};
ghost use Rattle.sq_outside_mem.specs.Taking.{TakesFirst, same_words};

use crate::mem_child::{MemChildOut, MemWait};
use crate::mem_out::{MemOut, MemPair};
use sq_base::{Text, WantOfMemory};
use sq_outside::{Another, Calls, Failed, Spawner};
use std::alloc::Global;

/// A process that answers one start: the words that start it, the link to it, with the lines that it says, and
/// for what it waits before it says them.
#[derive(Drop)]
pub struct MemChild<'a> {
    pub words: Vec<Text>,
    pub pair: MemPair<'a>,
    pub waits: Option<MemWait<'a>>,
}

/// A spawner in memory. Each of its children answers one start, and it has room for as many starts as children.
#[derive(Drop)]
pub struct MemSpawner<'a> {
    pub(crate) alloc: Global,
    pub(crate) children: Vec<MemChild<'a>>,
    pub(crate) started: Vec<Vec<Text>>,
    pub(crate) calls: Calls,
    ghost fits: { vec_len started + vec_len children ≤ vec_capacity started },
}

/// The place of the first child that these words start.
fn child_place<'a>(children: &[MemChild<'a>], words: &[Text]) -> Option<usize>
    ensures { result ≡ position (λ c. same_words c.words.items words.now) children.now }
{
    children.iter().position(|c| c.words.as_slice() == words)
}

/// Takes the first child that these words start out of the list.
fn take_child<'a>(children: &mut Vec<MemChild<'a>>, words: &[Text]) -> Option<MemChild<'a>>
    ensures found { is_none result
        ≡ is_none (position (λ c. same_words c.words.items words.now) children.old.items) }
    ensures taken { IfSome result
        (TakesFirst (λ c. same_words c.words.items words.now) children.old.items
        children.new.items) }
    ensures words { IfSome result (λ c. c.words.items ≡ words.now) }
    ensures len { IfSome result (λ _. vec_len children.new + 1 ≡ vec_len children.old) }
    ensures kept { IfNone result (children.new ≡ children.old) }
{
    let place = child_place(children.as_slice(), words)?;
    Some(children.remove(place))
}

impl<'a> MemSpawner<'a> {
    ghost use Rattle.sq_outside_mem.specs.MemoryServer.{spawner_children, spawner_started, spawner_fails, spawner_calls, spawner_faults};

    /// A spawner of these children, of which the listed starts are to fail.
    pub fn new(
        alloc: Global,
        children: Vec<MemChild<'a>>,
        fails: Vec<u64>,
    ) -> Result<MemSpawner<'a>, WantOfMemory>
        ensures children { IfOk result (λ s. spawner_children s ≡ children.entry.items) }
        ensures started { IfOk result (λ s. spawner_started s ≡ []) }
        ensures fails { IfOk result (λ s. spawner_fails s ≡ fails.items) }
        ensures calls { IfOk result (λ s. spawner_calls s ≡ 0) }
        ensures faults { IfOk result (λ s. spawner_faults s ≡ 0) }
    {
        let started = Vec::with_capacity(alloc, children.len())?;
        Ok(MemSpawner {
            alloc,
            children,
            started,
            calls: Calls::new(fails),
        })
    }
}

impl<'a> Spawner for MemSpawner<'a> {
    ghost use Rattle.sq_outside.specs.Dials.{IsOpen, IsEmpty};
    ghost use Rattle.sq_outside.specs.World.{StartsMore};
    ghost use Rattle.sq_outside_mem.specs.MemoryLinks.{out_sink, out_closed};
    ghost use Rattle.sq_outside_mem.specs.MemoryChildren.{child_source};
    ghost use Rattle.sq_outside_mem.specs.MemoryServer.{spawner_children, spawner_started, spawner_fails, spawner_fails_next, spawner_calls, spawner_faults, StartTakes};

    type ChildOut = MemChildOut<'a>;

    type ChildIn = MemOut<'a>;

    ghost starts = { λ s. Some (spawner_started s) };

    ghost faults = { spawner_faults };

    ghost capped = { λ s. s.calls.capped };

    fn start(
        &mut self,
        _alloc: Global,
        words: &[Text],
    ) -> Result<(MemChildOut<'a>, MemOut<'a>), Failed>
        ensures made { OnOk result
            (StartsMore (Some (spawner_started self.old)) (Some (spawner_started self.new))
            words.now) }
        ensures failed { OnErr result
            (Some (spawner_started self.new) ≡ Some (spawner_started self.old)) }
        ensures empty { IfOk result (λ h. IsEmpty (Some (sink_bytes (out_sink h.1)))) }
        ensures open { IfOk result (λ h. IsOpen (Some (out_closed h.1))) }
        ensures fresh { IfOk result
            (λ h. (source_faults (child_source h.0) ≡ 0) × (sink_faults (out_sink h.1) ≡ 0)) }
        ensures cause { HasCause (spawner_faults self.old) (spawner_faults self.new) result }
        // The link is the one to the first child that these words start, which then is used up.
        ensures link { IfOk result
            (λ h. StartTakes (spawner_children self.old) (spawner_children self.new) words.now h.0
            h.1) }
        ensures kept { OnErr result (spawner_children self.new ≡ spawner_children self.old) }
        // A start fails where it is listed, or no child that these words start is left, and only there; each
        // failure is counted.
        ensures fails { is_err result ≡ spawner_fails_next self.old words.now }
        ensures counts { spawner_faults self.new
            ≡ counted (spawner_fails_next self.old words.now) (spawner_faults self.old) }
        ensures calls { spawner_calls self.new ≡ next_call (spawner_calls self.old) }
        ensures list { spawner_fails self.new ≡ spawner_fails self.old }
    {
        self.calls.next()?;
        match take_child(&mut self.children, words) {
            None => {
                self.calls.raise();
                Err(Failed)
            }
            Some(child) => {
                let MemChild { words, pair, waits } = child;
                let MemPair { from, to } = pair;
                self.started.push(words).unwrap();
                Ok((MemChildOut::new(from, waits), to))
            }
        }
    }
}

impl<'a> Another for MemSpawner<'a> {
    ghost use Rattle.sq_outside_mem.specs.MemoryServer.{spawner_children, spawner_started, spawner_fails, spawner_faults};

    /// A spawner that has no children, so that each of its starts fails.
    fn another(&self) -> MemSpawner<'a>
        ensures children { spawner_children result ≡ [] }
        ensures started { spawner_started result ≡ [] }
        ensures fails { spawner_fails result ≡ [] }
        ensures faults { spawner_faults result ≡ 0 }
    {
        MemSpawner {
            alloc: self.alloc,
            children: Vec::new(self.alloc),
            started: Vec::new(self.alloc),
            calls: Calls::new(Vec::new(self.alloc)),
        }
    }
}
