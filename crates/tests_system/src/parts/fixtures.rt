//! What several tests share: classes, words and numbers of tables, farms and processes that are asked.
ghost use Rattle.std.specs.Prelude.{◌≤◌, ◌<◌};

use sq_base::{Listed, ProcNo, QuestionNo, Text, Texts, WantOfMemory, number_of};
use sq_channel::Process;
use sq_farm::{Farm, FarmAct, FarmFault, PutFault};
use sq_rules::Class;
use std::alloc::Global;
use std::marker::Model;
use std::process::Abort;

/// A class with these options.
pub fn class(alloc: Global, children_max: u32, concurrency: u32, queue_size: u32) -> Class
    requires some { 1 ≤ children_max }
    requires few { children_max ≤ 1024 }
    requires channels { concurrency ≤ 1024 }
    requires queue { queue_size ≤ 1000000 }
{
    Class {
        name: Text::new(alloc),
        ttl: 3600,
        negative_ttl: 3600,
        grace: 0,
        cache: 262144,
        children_max,
        startup: 0,
        concurrency,
        queue_size,
        format: Listed::new(alloc),
        words: Texts::new(alloc),
    }
}

/// A text of this word.
pub fn said(rt: &impl Abort, alloc: Global, word: &str) -> String {
    let mut text = String::new(alloc);
    text.push_str(word).expect(rt, "memory");
    text
}

/// A text of this word and this number.
pub fn said_of(rt: &impl Abort, alloc: Global, word: &str, number: u64) -> String {
    format!(in alloc; "{word} {number}").expect(rt, "memory")
}

/// A text of this number.
pub fn count(rt: &impl Abort, alloc: Global, number: u64) -> String {
    format!(in alloc; "{number}").expect(rt, "memory")
}

/// The small number that a word is.
pub fn number(rt: &impl Abort, word: &str) -> u64
    ensures { result < 100 }
{
    match number_of(word.as_bytes(), 100) {
        Some(number) => number,
        None => rt.panic("no number"),
    }
}

/// A farm that is asked questions in the order of their numbers.
#[derive(Drop)]
pub struct Asked {
    farm: Farm,
    next: u32,
}

impl Model for Asked {
    ghost use Rattle.std.specs.Prelude.{◌≡◌, ◌≤◌, ℕ};
    ghost use Rattle.sq_machine.specs.Farms.{places};

    ghost Value = { ℕ };

    ghost view = { λ a. a.next };

    ghost invariant = { λ a. (q : ℕ) → a.next ≤ q → places q a.farm ≡ 0 };
}

impl Asked {
    /// A farm without processes; its first question is 1.
    pub fn new(alloc: Global, class: &Class) -> Asked {
        let farm = Farm::new(alloc, class);
        Asked { farm, next: 1 }
    }

    /// Puts the next question.
    pub fn put(&mut self, text: Text) -> Result<(), PutFault> {
        let question = self.next;
        if question == u32::MAX {
            return Err(PutFault::WantOfMemory);
        }
        self.next += 1;
        self.farm.put(QuestionNo(question as u64), text)
    }

    pub fn act(&mut self) -> Option<FarmAct> {
        self.farm.act()
    }

    /// Notes a start, where the process does not live yet.
    pub fn started(&mut self, alloc: Global, proc: u32) -> bool {
        let proc = ProcNo(proc as u64);
        match self.farm.look(alloc, proc, b"") {
            Err(FarmFault::UnknownProc) => self.farm.started(alloc, proc).is_ok(),
            _ => false,
        }
    }

    /// The farm, which is asked no more.
    pub fn farm(self) -> Farm {
        self.farm
    }
}

/// A process with question 1 on its first channel.
pub fn process_asked(alloc: Global, concurrency: u32) -> Result<Process, WantOfMemory> {
    let mut process = Process::new(alloc, concurrency)?;
    process.ask(QuestionNo(1));
    Ok(process)
}
