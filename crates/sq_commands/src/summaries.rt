//! What a rehearsal came to.
ghost use Rattle.std.specs.Prelude.{◌≡◌, ◌+◌, ◌++◌, ◌<◌, ◌^◌, decimal, IfOk, OnOk};
ghost use Rattle.sq_commands.specs.Summaries.{count_outcome, count_told, no_count, summary_line, total};

use itoa::Buffer;
use sq_base::{Text, WantOfMemory};
use sq_machine::Told;
use sq_rules::{Outcome, Why};
use std::alloc::Global;

/// How many checks began, how many outcomes allowed, denied without a fault, and denied by one, and how many questions were sent.
#[derive(Clone, Copy, Drop)]
pub struct Summary {
    pub asks: u64,
    pub allowed: u64,
    pub denied: u64,
    pub faults: u64,
    pub sends: u64,
}

impl Summary {
    /// Nothing was counted.
    pub fn new() -> Summary
        ensures { result ≡ no_count }
    {
        Summary {
            asks: 0,
            allowed: 0,
            denied: 0,
            faults: 0,
            sends: 0,
        }
    }

    // Counts an outcome that was taken.
    fn count_outcome(&mut self, outcome: &Outcome)
        requires { total self.old < 2 ^ 63 }
        ensures { self.new ≡ count_outcome outcome.now self.old }
    {
        if outcome.allow {
            self.allowed += 1;
            return;
        }
        match &outcome.why {
            Why::Fault {
                rule: _,
                acl: _,
                cause: _,
            } => self.faults += 1,
            _ => self.denied += 1,
        }
    }

    /// Counts an answer of the machine.
    pub fn count(&mut self, told: &Told)
        requires { total self.old < 2 ^ 63 }
        ensures { self.new ≡ count_told told.now self.old }
    {
        match told {
            Told::Check(_) => self.asks += 1,
            Told::Judged { epoch: _, outcome } => self.count_outcome(outcome),
            Told::Send {
                proc: _,
                question: _,
                channel: _,
                key: _,
            } => self.sends += 1,
            _ => {}
        }
    }

    /// The line of a summary, with its LF.
    pub fn line(&self, alloc: Global) -> Result<Text, WantOfMemory>
        ensures { IfOk result (λ text. text ≡ summary_line self.now) }
    {
        let mut text = Text::new(alloc);
        put_count(&mut text, b"asks ", self.asks)?;
        put_count(&mut text, b" allowed ", self.allowed)?;
        put_count(&mut text, b" denied ", self.denied)?;
        put_count(&mut text, b" faults ", self.faults)?;
        put_count(&mut text, b" sends ", self.sends)?;
        text.push(b'\n')?;
        Ok(text)
    }
}

// Puts a word and a number.
fn put_count(to: &mut Text, word: &[u8], number: u64) -> Result<(), WantOfMemory>
    ensures { OnOk result (to.new ≡ to.old ++ (word.now ++ decimal number)) }
{
    let mut buffer = Buffer::new();
    to.append(word)?;
    to.append(buffer.format(number).as_bytes())
}
