//! `Control`: what reads the configuration of a server again.
ghost use Rattle.std.specs.Prelude.{◌≡◌, ◌≤◌, ◌∷◌, [], ℕ, List, true, IfOk, IfErr};
ghost use Rattle.sq_rules.specs.declared.kinds.ConfError.{ConfError};
ghost use Rattle.sq_outside.specs.Causes.{Rose};
ghost use Rattle.sq_outside.specs.Input.{IsWhole, OpensAtMost};
ghost use Rattle.sq_outside.specs.Told.{IsNotTold};
ghost use Rattle.sq_rules.specs.ConfText.{conf_gives, conf_refuses};
ghost use Rattle.sq_rules.specs.Limits.{text_limit};
ghost use Rattle.sq_rules.specs.declared.kinds.Kind.{Kind};
ghost use Rattle.sq_calls.specs.Legality.{IsStated};
ghost use Rattle.sq_calls.specs.Moments.{GrewAt};
ghost use Rattle.sq_calls.specs.Telling.{CountsRefusal, IsReread, Notes};
ghost use Rattle.sq_machine.specs.declared.entries.Told.TheVariants as answer;
ghost use Rattle.sq_control.specs.Rereading.{Adds, Asks, CountsMade, IsRefused, answers, is_refusal};

use sq_base::{EpochNo, Moment, Text};
use sq_calls::{ControlCalls, DeskFault};
use sq_conf::{ConfFault, read_config};
use sq_machine::Refusal;
use sq_outside::{Files, NoOpen, read_file};
use sq_rules::{ConfError, Kind, TEXT_LIMIT};
use sq_urlmatch::Setup;
use std::alloc::Global;

/// What became of a reconfiguration.
#[derive(Clone, Copy, PartialEq, Eq)]
pub enum Reread {
    /// It was made, and this epoch has begun.
    Made(EpochNo),
    /// The text that was read is refused.
    At(ConfError),
    /// There is no such file.
    Missing,
    /// The file could not be opened or read, which was counted.
    Read,
    /// As many epochs have an open check as may have.
    Epochs,
    /// The numbers of epochs are used up.
    Spent,
    /// The desk has stopped.
    Journal,
    /// There was no memory.
    WantOfMemory,
}

/// What reads the configuration of a server again, and hands it to a desk.
#[derive(Drop)]
pub struct Control<K> {
    alloc: Global,
    desk: K,
}

// What a text states, or its first fault; a file that has more bytes than a text may have is refused.
#[tactic(auto, using(crate::proofs::RereadLaws::is_stated))]
fn set_up(alloc: Global, text: Option<Text>) -> Result<Setup, ConfFault>
    ensures ok { IfOk result
        (λ c. (bytes : List ℕ) → IsWhole text_limit bytes text → conf_gives bytes c) }
    ensures stated { IfOk result (λ c. IsStated c) }
    ensures err { IfErr result
        (λ e. (line : ℕ) (kind : Kind) → e ≡ ConfFault.At (record { line = line; kind = kind })
        → (bytes : List ℕ) → IsWhole text_limit bytes text → conf_refuses bytes line kind) }
{
    match text {
        Some(text) => read_config(alloc, text.as_bytes()),
        None => Err(ConfFault::At(ConfError {
            line: 0,
            kind: Kind::TooMany,
        })),
    }
}

// What the desk's answer comes to.
fn answer_of(gave: Result<EpochNo, DeskFault>) -> Reread
    ensures { result ≡ answers gave }
{
    match gave {
        Ok(epoch) => Reread::Made(epoch),
        Err(DeskFault::Engine(Refusal::TooManyEpochs(_))) => Reread::Epochs,
        Err(DeskFault::Engine(_)) => Reread::Spent,
        Err(DeskFault::WantOfMemory) => Reread::WantOfMemory,
        Err(_) => Reread::Journal,
    }
}

impl<K: ControlCalls> Control<K> {
    ghost use Rattle.sq_control.specs.ControlViews.{desk_of};

    /// A control over this desk.
    pub fn new(alloc: Global, desk: K) -> Control<K>
        ensures { desk_of result ≡ desk }
    {
        Control { alloc, desk }
    }

    /// The desk, lent.
    pub fn desk(&self) -> &K
        ensures { result.now ≡ desk_of self.now }
    {
        &self.desk
    }

    /// The desk, given back.
    pub fn into_desk(self) -> K
        ensures { result ≡ desk_of self }
    {
        self.desk
    }

    /// Reads the file of this name, and makes one reconfiguration of what it states, at this moment.
    #[tactic(auto, using(crate::proofs::RereadLaws::opens_most))]
    pub fn reread<F: Files>(&mut self, conf: &Text, files: &mut F, now: Moment) -> Reread
        // At most one entry is added: the reconfiguration of the text that was read, and that exactly where it was made.
        ensures adds { Adds (F.texts files.old) (F.opened files.old) (F.opened files.new) conf.now
            (K.told (desk_of self.old)) (K.told (desk_of self.new)) result }
        // It was noted at this moment, or the latest so far.
        ensures grew { GrewAt (now ∷ []) (K.told (desk_of self.old)) (K.told (desk_of self.new)) }
        // Where it tells its count, that rose by one, and the epoch is one above it.
        ensures made { CountsMade (K.made (desk_of self.old)) (K.made (desk_of self.new)) result }
        // What the desk's `reconfigure` gave is answered, and none of its answers comes otherwise.
        ensures asks { Asks (F.texts files.old) (F.opened files.old) (F.opened files.new) conf.now
            (λ config gave. K.rereads (desk_of self.old) config now gave (desk_of self.new)
            × CountsRefusal (K.refused (desk_of self.old)) (K.refused (desk_of self.new)) gave
            × Notes K.first now answer.Epoch (IsReread config) (K.told (desk_of self.old))
            (K.told (desk_of self.new)) gave)
            (desk_of self.old) (desk_of self.new) result }
        // Of files, that of this name was opened once at most.
        ensures opened { OpensAtMost (F.opened files.old) (F.opened files.new) conf.now }
        ensures at { (e : ConfError) → result ≡ Reread.At e
            → IsRefused (F.texts files.old) (F.opened files.old) (F.opened files.new) conf.now e }
        ensures missing { result ≡ Reread.Missing → IsNotTold (F.texts files.old) conf.now }
        ensures unopened { result ≡ Reread.Missing → F.opened files.new ≡ F.opened files.old }
        ensures read { result ≡ Reread.Read → Rose (F.faults files.old) (F.faults files.new) }
        ensures refused { is_refusal result ≡ true
            → Rose (K.refused (desk_of self.old)) (K.refused (desk_of self.new)) }
        ensures later { K.refused (desk_of self.old) ≤ K.refused (desk_of self.new) }
        ensures quiet { (result ≡ Reread.Read → ⊥) → F.faults files.new ≡ F.faults files.old }
        ensures faults_later { F.faults files.old ≤ F.faults files.new }
        ensures texts { F.texts files.new ≡ F.texts files.old }
    {
        let text = match read_file(self.alloc, TEXT_LIMIT, conf, files) {
            Ok(text) => text,
            Err(NoOpen::Missing) => return Reread::Missing,
            Err(NoOpen::Failed) => return Reread::Read,
            Err(NoOpen::WantOfMemory) => return Reread::WantOfMemory,
        };
        let setup = match set_up(self.alloc, text) {
            Ok(setup) => setup,
            Err(ConfFault::At(error)) => return Reread::At(error),
            Err(ConfFault::WantOfMemory) => return Reread::WantOfMemory,
        };
        answer_of(self.desk.reconfigure(self.alloc, setup, now))
    }
}
