//! A net in memory whose spawner has a copy with children of its own.
ghost use Rattle.std.specs.Prelude.{◌≤◌, None};
ghost use Rattle.sq_outside.specs.Causes.{count_limit};
ghost use Rattle.sq_outside_mem.specs.MemoryNet.{net_faults};

use sq_base::Text;
use sq_outside::{Another, Failed, Net, Parts, Spawner, raised};
use sq_outside_mem::{
    MemChildOut, MemClock, MemDialer, MemListener, MemNet, MemOut, MemResolver, MemSpawner,
    MemStopper,
};
use std::alloc::Global;
use std::sync::Mutex;

/// A spawner in memory, and the one that its first copy is.
#[derive(Drop)]
pub struct PairedSpawner<'a> {
    own: MemSpawner<'a>,
    copy: Mutex<Option<MemSpawner<'a>>>,
    faults: u64,
    ghost few: { faults ≤ count_limit },
}

impl<'a> PairedSpawner<'a> {
    /// A spawner whose first copy is this other one, if there is one.
    pub fn new(own: MemSpawner<'a>, copy: Option<MemSpawner<'a>>) -> PairedSpawner<'a> {
        PairedSpawner {
            own,
            copy: Mutex::new(copy),
            faults: 0,
        }
    }

    // The one that the first copy is.
    fn take_copy(&self) -> Option<MemSpawner<'a>> {
        match self.copy.try_lock() {
            Some(mut copy) => copy.take(),
            None => None,
        }
    }
}

impl<'a> Spawner for PairedSpawner<'a> {
    type ChildOut = MemChildOut<'a>;

    type ChildIn = MemOut<'a>;

    ghost starts = { λ _. None };

    ghost faults = { λ s. s.faults };

    ghost capped = { λ s. s.few };

    fn start(
        &mut self,
        alloc: Global,
        words: &[Text],
    ) -> Result<(MemChildOut<'a>, MemOut<'a>), Failed> {
        let started = self.own.start(alloc, words);
        if started.is_err() {
            self.faults = raised(self.faults);
        }
        started
    }
}

impl<'a> Another for PairedSpawner<'a> {
    fn another(&self) -> PairedSpawner<'a> {
        match self.take_copy() {
            Some(copy) => PairedSpawner::new(copy, None),
            None => PairedSpawner::new(self.own.another(), None),
        }
    }
}

// For the proofs: the count of a net has a limit.
fn has_limit<N: Net>(net: &N)
    ensures { N.faults net.now ≤ count_limit }
{
    let _net = net;
}

/// A net in memory, and the spawner that the first copy of its spawner is.
#[derive(Drop)]
pub struct PairedNet<'a> {
    net: MemNet<'a>,
    copy: Option<MemSpawner<'a>>,
    ghost few: { net_faults net ≤ count_limit },
}

impl<'a> PairedNet<'a> {
    /// A net, and the spawner that the first copy of its spawner is.
    pub fn new(net: MemNet<'a>, copy: MemSpawner<'a>) -> PairedNet<'a> {
        has_limit(&net);
        PairedNet {
            net,
            copy: Some(copy),
        }
    }
}

impl<'a> Net for PairedNet<'a> {
    ghost use Rattle.sq_outside_mem.specs.MemoryNet.{net_faults};

    type L = MemListener<'a>;

    type T = MemStopper<'a>;

    type D = MemDialer<'a>;

    type S = PairedSpawner<'a>;

    type C = MemClock;

    type Q = MemResolver<'a>;

    ghost faults = { λ n. net_faults n.net };

    ghost capped = { λ n. n.few };

    fn parts(
        &mut self,
        alloc: Global,
        port: u16,
        workers: u32,
    ) -> Result<Parts<PairedNet<'a>>, Failed> {
        let opened = self.net.parts(alloc, port, workers);
        has_limit(&self.net);
        match opened {
            Ok(parts) => {
                let Parts {
                    listener,
                    stopper,
                    dialer,
                    spawner,
                    clock,
                    resolver,
                } = parts;
                Ok(Parts {
                    listener,
                    stopper,
                    dialer,
                    spawner: PairedSpawner::new(spawner, self.copy.take()),
                    clock,
                    resolver,
                })
            }
            Err(Failed) => Err(Failed),
        }
    }

    fn give_back(&mut self, listener: MemListener<'a>) {
        self.net.give_back(listener);
        has_limit(&self.net);
    }
}
