//! `Watched`: a journal that remembers whether a note of it failed.
ghost use Rattle.std.specs.Prelude.{◌≡◌, ◌≤◌, ℕ, true, false};
ghost use Rattle.sq_outside.specs.Causes.{Rose};

use sq_base::WantOfMemory;
use sq_journal::Journal;
use sq_machine::Entry;
use sq_outside::Failed;
use std::marker::{Brand, PhantomData};

/// The count of faults with which a journal began.
pub trait Before {
    ghost faults: { ℕ };
}

impl Before for Brand {
    ghost faults = { 0 };
}

/// A journal, and whether a note of it failed. It says so where its count of faults rose since it began, and there alone.
#[derive(Drop)]
pub struct Watched<J: Journal, B: Before> {
    journal: J,
    failed: bool,
    begun: PhantomData<B>,
    ghost later: { B.faults ≤ J.faults journal },
    ghost said: { failed ≡ true → Rose B.faults (J.faults journal) },
    ghost quiet: { failed ≡ false → J.faults journal ≡ B.faults },
}

impl<J: Journal, B: Before> Watched<J, B> {
    /// A journal that begins with this count.
    pub fn new(journal: J) -> Watched<J, B>
        requires { B.faults ≡ J.faults journal }
        ensures { result.journal ≡ journal }
    {
        Watched {
            journal,
            failed: false,
            begun: PhantomData,
        }
    }

    /// The journal, given back, and whether a note of it failed.
    pub fn finish(self) -> (J, bool)
        ensures journal { result.0 ≡ self.journal }
        ensures later { B.faults ≤ J.faults result.0 }
        ensures cause { result.1 ≡ true → Rose B.faults (J.faults result.0) }
        ensures quiet { result.1 ≡ false → J.faults result.0 ≡ B.faults }
    {
        let Watched {
            journal,
            failed,
            ..
        } = self;
        (journal, failed)
    }
}

impl<J: Journal, B: Before> Journal for Watched<J, B> {
    ghost history = { λ w. J.history w.journal };

    ghost spare = { λ w. J.spare w.journal };

    ghost faults = { λ w. J.faults w.journal };

    ghost capped = { λ w. J.capped w.journal };

    fn reserve(&mut self, n: u32) -> Result<(), WantOfMemory> {
        self.journal.reserve(n)
    }

    fn note(&mut self, entry: Entry) -> Result<(), Failed> {
        let Watched {
            journal,
            failed,
            ..
        } = self;
        let noted = journal.note(entry);
        if noted.is_err() {
            *failed = true;
        }
        noted
    }
}
