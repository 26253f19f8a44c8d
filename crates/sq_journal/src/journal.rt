//! What a journal is to those who note entries.
ghost use Rattle.std.specs.Prelude.{◌≡◌, ◌+◌, ℕ, ◌<◌, ◌≤◌, OnOk, OnErr};
ghost use Rattle.std.specs.declared.option.Option.{Option};
ghost use Rattle.sq_outside.specs.Causes.{HasCause, count_limit};
ghost use Rattle.sq_machine.specs.Entries.{History};
ghost use Rattle.sq_journal.specs.Noting.{with_entry};

use sq_base::WantOfMemory;
use sq_machine::Entry;
use sq_outside::Failed;

/// A journal to which entries are noted, each in a place that was made before.
pub trait Journal {
    /// The entries, the newest first, where the journal tells them.
    ghost history: { Self → Option History };

    /// For how many entries there is a place.
    ghost spare: { Self → ℕ };

    /// How often it has failed.
    ghost faults: { Self → ℕ };

    /// Makes places for so many entries, those that are there counted. Without memory the places that are there stay.
    fn reserve(&mut self, n: u32) -> Result<(), WantOfMemory>
        ensures made { OnOk result (n ≤ spare self.new) }
        ensures stay { spare self.old ≤ spare self.new }
        ensures history { history self.new ≡ history self.old }
        ensures faults { faults self.new ≡ faults self.old };

    /// Notes an entry. It takes one of the places and no memory; after a fault the entry is not in the journal.
    fn note(&mut self, entry: Entry) -> Result<(), Failed>
        requires { 0 < spare self.old }
        ensures noted { OnOk result (history self.new ≡ with_entry entry (history self.old)) }
        ensures failed { OnErr result (history self.new ≡ history self.old) }
        ensures place { spare self.new + 1 ≡ spare self.old }
        ensures cause { HasCause (faults self.old) (faults self.new) result };

    ghost capped: { (journal : Self) → faults journal ≤ count_limit };
}
