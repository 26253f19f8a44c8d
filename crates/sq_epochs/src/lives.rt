//! Which epochs live: checks that begin and are over, the end of an epoch, and another configuration.
ghost use Rattle.std.specs.Prelude.{◌≡◌, ◌<◌, ◌^◌, [], suc, true, is_some, filter, length, map, IfOk, OnOk, OnErr};
ghost use Rattle.std.specs.Arc.{arc_value};
ghost use Rattle.std.specs.Vec.{vec_capacity, vec_len};
ghost use Rattle.sq_machine.specs.Rising.{Rises};
ghost use Rattle.sq_epochs.specs.EpochProcs.{AreWhole};
ghost use Rattle.sq_epochs.specs.EpochStates.{epoch_at, epoch_in, epoch_number, new_epoch};
ghost use Rattle.sq_epochs.specs.HomeStates.{other_homes, procs_of, with_numbers};
ghost use Rattle.sq_epochs.specs.LiveEpochs.{after_began, after_ended, busy_count, checks_at, has_checks, without_epoch};
ghost use Rattle.sq_epochs.specs.Reconfigured.{after_reconfigured, with_begun};

use crate::epoch::Epoch;
use crate::epochs::{Epochs, place_of};
use crate::homes::Homes;
use sq_base::{EpochNo, WantOfMemory};
use sq_cache::HashSeed;
use sq_rules::Config;
use std::alloc::Global;
use std::sync::Arc;

// Ends an epoch: its processes live no more, and their stops are due. It takes no memory.
fn drop_epoch(epochs: &mut Vec<Epoch>, homes: &mut Homes, epoch: EpochNo)
    requires rise { Rises (map epoch_number epochs.old.items) }
    requires there { is_some (epoch_in epoch epochs.old.items) ≡ true }
    ensures epochs { epochs.new.items ≡ without_epoch epoch epochs.old.items }
    ensures given { homes.new.given ≡ homes.old.given }
    ensures homes { homes.new.homes ≡ other_homes epoch homes.old.homes }
    ensures stops { homes.new.stops
        ≡ with_numbers (procs_of epoch homes.old.homes) homes.old.stops }
{
    let place = place_of(epochs, epoch);
    let _ended = epochs.remove(place);
    homes.drop_epoch(epoch);
}

// Puts an epoch that begins behind the others, with what is kept of the classes of the one before that are alike.
// There is room for it.
fn put_behind(epochs: &mut Vec<Epoch>, before: EpochNo, mut begun: Epoch)
    requires rise { Rises (map epoch_number epochs.old.items) }
    requires there { is_some (epoch_in before epochs.old.items) ≡ true }
    requires next { begun ≡ new_epoch (suc before) begun.config }
    requires room { vec_len epochs.old < vec_capacity epochs.old }
    ensures { epochs.new.items ≡ with_begun before begun.config epochs.old.items }
{
    let place = place_of(epochs, before);
    let left = &mut epochs[place];
    begun.inherit(left);
    epochs.push_reserved(begun);
}

// How many of these epochs have an open check.
fn busy_among(epochs: &[Epoch]) -> usize
    ensures { result ≡ length (filter has_checks epochs.now) }
{
    epochs
        .iter()
        .filter(|epoch| epoch.open_checks() > 0)
        .count()
}

impl Epochs {
    /// What holds of them: it changes nothing, and its contract says it to a proof.
    pub fn facts(&self)
        ensures { AreWhole self.now }
    {
        let _current = self.current;
    }

    /// How many epochs have an open check.
    pub fn busy(&self) -> usize
        ensures { result ≡ busy_count self.now }
    {
        busy_among(&self.epochs)
    }

    /// How many checks of an epoch are open; 0 where it does not live.
    pub fn checks(&self, epoch: EpochNo) -> u64
        ensures { result ≡ checks_at self.now epoch }
    {
        match self.epoch(epoch) {
            Some(live) => live.open_checks(),
            None => 0,
        }
    }

    /// A check of a live epoch began. It takes no memory.
    pub fn began(&mut self, epoch: EpochNo)
        requires there { is_some (epoch_at self.old epoch) ≡ true }
        requires room { suc (checks_at self.old epoch) < 2 ^ 64 }
        ensures { self.new ≡ after_began epoch self.old }
    {
        let place = place_of(&self.epochs, epoch);
        let live = &mut self.epochs[place];
        live.begin_check();
    }

    /// An open check of an epoch is over. Where it was the last one, and the epoch is not current, the epoch ends,
    /// and a stop of each of its processes is due. It takes no memory.
    pub fn ended(&mut self, epoch: EpochNo)
        requires { 0 < checks_at self.old epoch }
        ensures { self.new ≡ after_ended epoch self.old }
    {
        let checks = self.checks(epoch);
        let last = checks == 1;
        if last && epoch.0 != self.current.0 {
            drop_epoch(&mut self.epochs, &mut self.homes, epoch);
            return;
        }
        let place = place_of(&self.epochs, epoch);
        let live = &mut self.epochs[place];
        live.end_check();
    }

    /// Another configuration is current, in an epoch of its own. Its classes have what was kept of those of the epoch
    /// that was current that are alike; that epoch ends where it has no open check. All memory is taken first. The
    /// seed is for the hashes of keys.
    pub fn reconfigure(
        &mut self,
        alloc: Global,
        config: Arc<Config>,
        seed: HashSeed,
    ) -> Result<EpochNo, WantOfMemory>
        requires few { suc self.old.current < 2 ^ 63 }
        ensures number { IfOk result (λ n. n ≡ suc self.old.current) }
        ensures ok { OnOk result (self.new ≡ after_reconfigured (arc_value config) self.old) }
        ensures err { OnErr result (self.new ≡ self.old) }
    {
        let before = self.current;
        let checks = self.checks(before);
        let number = EpochNo(before.0 + 1);
        let begun = Epoch::new(alloc, number, config, seed)?;
        self.epochs.reserve(1)?;
        put_behind(&mut self.epochs, before, begun);
        self.current = number;
        if checks == 0 {
            drop_epoch(&mut self.epochs, &mut self.homes, before);
            return Ok(number);
        }
        Ok(number)
    }
}
