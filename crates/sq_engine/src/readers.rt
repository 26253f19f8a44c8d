//! What can be read of the machine.
ghost use Rattle.std.specs.Prelude.{◌≡◌, ◌+◌, length};
ghost use Rattle.std.specs.Arc.{arc_value};
ghost use Rattle.std.specs.Option.{option_map};
ghost use Rattle.sq_machine.specs.declared.entries.Told.TheVariants as told;
ghost use Rattle.sq_model.specs.Answers.{take_answer};
ghost use Rattle.sq_model.specs.Says.{class_in};
ghost use Rattle.sq_engine.specs.EngineViews.{state_of};
ghost use Rattle.sq_engine.specs.Stepping.{epoch_of};
ghost use Rattle.sq_engine.specs.Tellings.{IsAlwaysTold};

use crate::engines::Engine;
use sq_base::{CheckNo, EpochNo, Moment, Text, Texts};
use sq_machine::Refusal;
use sq_rules::{Class, Config, Outcome};
use std::sync::Arc;

impl Engine {
    /// How many epochs live. It takes no memory, nor does any other reader.
    pub fn epochs(&self) -> usize
        ensures { result ≡ length self.now.epochs.epochs }
    {
        self.epochs.len()
    }

    /// How many connections are open and how many processes of live epochs live, together.
    pub fn load(&self) -> u128
        ensures { result ≡ length self.now.conns.links + length self.now.epochs.homes }
    {
        self.conns.len() as u128 + self.epochs.living() as u128
    }

    /// The greatest moment so far.
    pub fn latest(&self) -> Moment
        ensures { result ≡ self.now.latest }
    {
        self.latest
    }

    /// The configuration of a live epoch, lent.
    pub fn config(&self, epoch: EpochNo) -> Option<&Arc<Config>>
        ensures { option_map (λ c. arc_value c.now) result ≡ (state_of self.now).config epoch }
    {
        self.epochs.config(epoch)
    }

    /// The class at a place of a live epoch, lent.
    pub fn class(&self, epoch: EpochNo, class: u32) -> Option<&Class>
        ensures { option_map (λ c. c.now) result ≡ class_in (state_of self.now) epoch class }
    {
        self.epochs.class(epoch, class)
    }

    /// The name of a class of a live epoch, lent.
    pub fn name(&self, epoch: EpochNo, class: u32) -> Option<&Text>
        ensures { option_map (λ t. t.now) result
            ≡ option_map (λ c. c.name) (class_in (state_of self.now) epoch class) }
    {
        let class = self.class(epoch, class)?;
        Some(&class.name)
    }

    /// The words of the program of a class of a live epoch, lent.
    pub fn words(&self, epoch: EpochNo, class: u32) -> Option<&Texts>
        ensures { option_map (λ t. t.now) result
            ≡ option_map (λ c. c.words) (class_in (state_of self.now) epoch class) }
    {
        let class = self.class(epoch, class)?;
        Some(&class.words)
    }

    /// The outcome of a check that `take` would give, lent. It is refused as `take` is.
    pub fn outcome(&self, check: CheckNo) -> Result<&Outcome, Refusal>
        ensures { IsAlwaysTold (λ o. told.Judged (epoch_of (state_of self.now) check) o.now)
            (take_answer (state_of self.now) check) result }
    {
        let Some(open) = self.checks.get(check) else {
            return Err(Refusal::UnknownCheck(check));
        };
        match open.outcome() {
            Some(outcome) => Ok(outcome),
            None => Err(Refusal::NotDone(check)),
        }
    }

    /// The epoch of an open check; 0 where it is not open.
    pub fn epoch_of(&self, check: CheckNo) -> EpochNo
        ensures { result ≡ epoch_of (state_of self.now) check }
    {
        match self.checks.get(check) {
            Some(open) => open.epoch(),
            None => EpochNo(0),
        }
    }
}
