//! What the machine's answers make of a driver.
ghost use Rattle.std.specs.Prelude.{◌≡◌, OnOk};
ghost use Rattle.sq_commands.specs.Driving.{act_made, answered, asked, passed, replied, stepped};

use crate::drivers::{CHECK_TURNS, Driver};
use crate::rehearsal_stages::{DriverStage, Pending, SentQuestion, StepKind};
use crate::rehearsed_requests::is_even_key;
use sq_base::{ConnNo, WantOfMemory};
use sq_machine::Told;

impl Driver {
    // A request was asked.
    fn asked(&mut self, told: Told)
        ensures { self.new ≡ asked told self.old }
    {
        match told {
            Told::Check(check) => {
                self.at = Pending {
                    check,
                    conn: ConnNo(self.number as u64),
                    more: CHECK_TURNS,
                };
                self.stage = DriverStage::Stepping;
            }
            _ => self.stage = DriverStage::Over,
        }
    }

    // A check went on.
    fn stepped(&mut self, told: Told) -> Result<(), WantOfMemory>
        ensures { OnOk result (self.new ≡ stepped told self.old) }
    {
        self.said = match told {
            Told::Took(_) => StepKind::Took,
            Told::Waits(_) => StepKind::Waits,
            _ => StepKind::Done,
        };
        self.go_acting()
    }

    // An act was made.
    fn act_made(&mut self, told: Told) -> Result<(), WantOfMemory>
        ensures { OnOk result (self.new ≡ act_made told self.old) }
    {
        match told {
            Told::Start { epoch, class } => {
                self.stage = DriverStage::Starting { epoch, class };
                Ok(())
            }
            Told::Send {
                proc,
                question: _,
                channel,
                key,
            } => {
                self.sent.push(SentQuestion {
                    proc,
                    channel,
                    ok: is_even_key(key.as_bytes()),
                })?;
                self.go_acting()
            }
            _ => self.go_acting(),
        }
    }

    // The first question that was sent is answered.
    fn replied(&mut self)
        ensures { self.new ≡ replied self.old }
    {
        let _sent = self.sent.pop();
        self.begin_round();
    }

    /// The event that it wanted was made, and the machine answered so.
    pub fn answered(&mut self, told: Told) -> Result<(), WantOfMemory>
        ensures { OnOk result (self.new ≡ answered told self.old) }
    {
        match &self.stage {
            DriverStage::Opening => self.stage = DriverStage::Asking,
            DriverStage::Asking => self.asked(told),
            DriverStage::Stepping => return self.stepped(told),
            DriverStage::Acting => return self.act_made(told),
            DriverStage::Starting { epoch: _, class: _ } => return self.go_acting(),
            DriverStage::Replying => self.replied(),
            DriverStage::Taking => self.stage = DriverStage::Closing,
            DriverStage::Closing => self.onward(),
            DriverStage::Over => {}
        }
        Ok(())
    }
    /// The event that it wanted was refused.
    pub fn passed(&mut self) -> Result<(), WantOfMemory>
        ensures { OnOk result (self.new ≡ passed self.old) }
    {
        self.answered(Told::Fine)
    }
}
