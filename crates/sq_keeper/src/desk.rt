//! What takes the lines of helper processes.
ghost use Rattle.std.specs.Prelude.{◌≡◌, ℕ, ◌≤◌, ⊤, List, [], ◌∷◌};
ghost use Rattle.std.specs.declared.option.Option.{Option};
ghost use Rattle.sq_keeper.specs.declared.desk.Handed.{Handed};
ghost use Rattle.sq_keeper.specs.Handing.{Adds, taken};
ghost use Rattle.sq_outside.specs.Causes.{Rose};

use sq_base::{ProcNo, Text};

/// What the desk said of a line.
#[derive(Clone, Copy)]
pub enum LineEnd {
    /// The line was taken.
    Go,
    /// No more lines are wanted: the line was bad or stray, the process is unknown, or the desk stopped.
    End,
    /// There was no memory, and the line was not taken.
    WantOfMemory,
}

/// What a desk was handed, and where it wanted no more.
#[derive(Drop)]
pub enum Handed {
    /// A line of this process.
    Line(ProcNo, Text),
    /// The desk wanted no line of this process after the last.
    Stop(ProcNo),
    /// This process died.
    Died(ProcNo),
}

/// What takes the lines of helper processes, and learns that they died.
pub trait LineDesk {
    /// How often it refused. It never falls.
    ghost refused: { Self → ℕ };

    /// What it was handed, in order, where it tells that.
    ghost handed: { Self → Option (List Handed) };

    /// What holds between the desk before some of its calls and after them, where it says more of them: as of a desk with a
    /// clock, at which moments it noted what it was handed.
    ghost passes: { Self → Self → Type 0 } = { λ _ _. ⊤ };

    /// Takes a line of the process. Where there was no memory the line was not taken.
    fn line(&mut self, proc: ProcNo, bytes: &[u8]) -> LineEnd
        ensures handed { Adds (handed self.old) (handed self.new) (taken proc bytes.now result) }
        ensures later { refused self.old ≤ refused self.new }
        ensures refused { result ≡ LineEnd.End → Rose (refused self.old) (refused self.new) }
        ensures passes { passes self.old self.new };

    /// Learns that the process died.
    fn died(&mut self, proc: ProcNo)
        ensures handed { Adds (handed self.old) (handed self.new) (Handed.Died proc ∷ []) }
        ensures later { refused self.old ≤ refused self.new }
        ensures passes { passes self.old self.new };

    ghost still: { (desk : Self) → passes desk desk };

    ghost further: { (a b c : Self) → passes a b → passes b c → passes a c };
}
