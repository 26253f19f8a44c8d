//! How a driver goes from check to check, and from round to round.
ghost use Rattle.std.specs.Prelude.{◌≡◌, OnOk};
ghost use Rattle.sq_commands.specs.Going.{acted, acting, after_request, checks_begun, left_open, next_in_round, onward, put_back, round_begun};

use crate::drivers::Driver;
use crate::rehearsal_stages::{DriverStage, StepKind};
use sq_base::WantOfMemory;

impl Driver {
    // The open checks go on, the first of them first.
    fn begin_checks(&mut self)
        ensures { self.new ≡ checks_begun self.old }
    {
        match self.others.pop() {
            None => self.next_request(),
            Some(check) => {
                self.at = check;
                self.left = self.others.len();
                self.stage = DriverStage::Stepping;
            }
        }
    }

    /// A round goes on: the questions that were sent are answered first.
    pub fn begin_round(&mut self)
        ensures { self.new ≡ round_begun self.old }
    {
        if self.sent.is_empty() {
            self.begin_checks();
        } else {
            self.stage = DriverStage::Replying;
        }
    }

    // The next open check of this round goes on. Behind the last another round begins, while a check is open.
    fn next_in_round(&mut self)
        ensures { self.new ≡ next_in_round self.old }
    {
        if self.others.is_empty() {
            self.next_request();
            return;
        }
        if self.left == 0 {
            self.begin_round();
            return;
        }
        self.left -= 1;
        match self.others.pop() {
            None => self.next_request(),
            Some(check) => {
                self.at = check;
                self.stage = DriverStage::Stepping;
            }
        }
    }

    // Behind every fourth request, when four checks are open, and behind the last rounds begin.
    fn after_request(&mut self)
        ensures { self.new ≡ after_request self.old }
    {
        if self.others.len() >= 4 || self.number == self.last {
            self.in_round = true;
            self.begin_round();
        } else {
            self.next_request();
        }
    }

    /// Nothing is left to do for the check that was driven.
    pub fn onward(&mut self)
        ensures { self.new ≡ onward self.old }
    {
        if self.in_round {
            self.next_in_round();
        } else {
            self.after_request();
        }
    }

    // The check that was driven stays open.
    fn put_back(&mut self) -> Result<(), WantOfMemory>
        ensures { OnOk result (self.new ≡ put_back self.old) }
    {
        self.others.push(self.at)?;
        self.onward();
        Ok(())
    }

    // The check that was driven has no outcome. Where it has no turn left, it is closed.
    fn leave_open(&mut self) -> Result<(), WantOfMemory>
        ensures { OnOk result (self.new ≡ left_open self.old) }
    {
        if self.at.more > 0 {
            return self.put_back();
        }
        self.stage = DriverStage::Closing;
        Ok(())
    }

    /// No act is due any more after the step of the check that is driven.
    pub fn acted(&mut self) -> Result<(), WantOfMemory>
        ensures { OnOk result (self.new ≡ acted self.old) }
    {
        match self.said {
            StepKind::Took => {
                self.stage = if self.at.more == 0 {
                    DriverStage::Closing
                } else {
                    DriverStage::Stepping
                };
                Ok(())
            }
            StepKind::Waits => self.leave_open(),
            StepKind::Done => {
                if !self.in_round && self.at.more > 0 {
                    return self.put_back();
                }
                self.stage = DriverStage::Taking;
                Ok(())
            }
        }
    }
    /// Acts are made while the check that is driven has turns.
    pub fn go_acting(&mut self) -> Result<(), WantOfMemory>
        ensures { OnOk result (self.new ≡ acting self.old) }
    {
        if self.at.more == 0 {
            return self.acted();
        }
        self.at.more -= 1;
        self.stage = DriverStage::Acting;
        Ok(())
    }
}
