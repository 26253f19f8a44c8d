//! What is told of the machine in the entries of a journal, copied.
ghost use Rattle.std.specs.Prelude.{◌≡◌, true, IfOk};
ghost use Rattle.sq_machine.specs.Entries.{is_row};
ghost use Rattle.sq_machine.specs.declared.entries.Event.TheVariants as event;
ghost use Rattle.sq_model.specs.Answers.{name_in};
ghost use Rattle.sq_engine.specs.Acting.{told_of_act};
ghost use Rattle.sq_engine.specs.EngineViews.{state_of};

use crate::engines::Engine;
use sq_base::{Copying, EpochNo, Text, WantOfMemory};
use sq_machine::{Act, Told};
use std::alloc::Global;

impl Engine {
    /// A copy of the name of the class at a place of a live epoch; no byte where there is none.
    pub fn name_told(&self, alloc: Global, epoch: EpochNo, class: u32) -> Result<Text, WantOfMemory>
        ensures { IfOk result
            (λ t. t ≡ name_in (state_of self.now) (record { epoch = epoch; class = class })) }
    {
        match self.name(epoch, class) {
            Some(name) => name.copy(alloc),
            None => Ok(Text::new(alloc)),
        }
    }

    /// The answer that tells of an act.
    pub fn act_told(&self, alloc: Global, act: Act) -> Result<Told, WantOfMemory>
        ensures told { IfOk result (λ t. t ≡ told_of_act (state_of self.now) act) }
        ensures row { IfOk result (λ t. is_row event.Act t ≡ true) }
    {
        match act {
            Act::Stop(proc) => Ok(Told::Stop(proc)),
            Act::Send {
                proc,
                question,
                channel,
                text,
            } => Ok(Told::Send {
                proc,
                question,
                channel,
                key: text,
            }),
            Act::Start { epoch, class } => {
                let class = self.name_told(alloc, epoch, class)?;
                Ok(Told::Start { epoch, class })
            }
        }
    }
}
