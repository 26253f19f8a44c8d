//! What hands a rewriter the lines of its processes.
ghost use Rattle.std.specs.Prelude.{◌≡◌, ◌≤◌, None, [], ◌∷◌};
ghost use Rattle.sq_keeper.specs.Handing.{Adds, taken};
ghost use Rattle.sq_keeper.specs.declared.desk.Handed.TheVariants as handed;
ghost use Rattle.sq_outside.specs.Causes.{Rose, count_limit};
ghost use Rattle.sq_rewrite.specs.Handing.{HandsDeath, HandsLine, line_end, refused_after};

use crate::calls::RewriterCalls;
use crate::faults::RewriteFault;
use sq_base::ProcNo;
use sq_farm::Got;
use sq_keeper::{LineDesk, LineEnd};
use sq_outside::{Clock, raised};
use std::alloc::Global;

/// The desk of a keeper. It hands each line and each death to a rewriter, and lets a little time pass where that had no
/// memory for a line. Its refusals are counted here, up to 2^63 - 1, and nowhere else.
#[derive(Drop)]
pub struct RewriterLines<K, C> {
    alloc: Global,
    rewriter: K,
    clock: C,
    refused: u64,
    ghost capped: { refused ≤ count_limit },
}

// What a keeper is answered.
fn line_end(gave: &Result<Got, RewriteFault>) -> LineEnd
    ensures { result ≡ line_end gave.now }
{
    match gave {
        Ok(Got::Reply(_, _)) => LineEnd::Go,
        Ok(Got::Bad) | Ok(Got::Stray) => LineEnd::End,
        Err(RewriteFault::WantOfMemory) => LineEnd::WantOfMemory,
        Err(_) => LineEnd::End,
    }
}

impl<K: RewriterCalls, C: Clock> RewriterLines<K, C> {
    ghost use Rattle.sq_rewrite.specs.LineViews.{lines_refused, lines_rewriter};

    /// Hands lines to this rewriter. Nothing was refused yet.
    pub fn new(alloc: Global, rewriter: K, clock: C) -> RewriterLines<K, C>
        ensures rewriter { lines_rewriter result ≡ rewriter }
        ensures refused { lines_refused result ≡ 0 }
    {
        RewriterLines {
            alloc,
            rewriter,
            clock,
            refused: 0,
        }
    }
}

impl<K: RewriterCalls, C: Clock> LineDesk for RewriterLines<K, C> {
    ghost use Rattle.sq_rewrite.specs.LineViews.{lines_refused, lines_rewriter};

    ghost refused = { λ s. lines_refused s };

    ghost handed = { λ _. None };

    ghost still = { λ d. tt };

    ghost further = { λ a b c x y. tt };

    fn line(&mut self, proc: ProcNo, bytes: &[u8]) -> LineEnd
        ensures handed { Adds None None (taken proc bytes.now result) }
        ensures later { lines_refused self.old ≤ lines_refused self.new }
        ensures refused { result ≡ LineEnd.End
            → Rose (lines_refused self.old) (lines_refused self.new) }
        // The rewriter was handed this line, and its answer decides.
        ensures hands { HandsLine (K.told (lines_rewriter self.old))
            (K.told (lines_rewriter self.new)) proc bytes.now result }
        ensures counts { lines_refused self.new ≡ refused_after result (lines_refused self.old) }
    {
        let gave = self.rewriter.line(self.alloc, proc, bytes);
        let end = line_end(&gave);
        match end {
            LineEnd::Go => {}
            LineEnd::End => self.refused = raised(self.refused),
            LineEnd::WantOfMemory => self.clock.pause(),
        }
        end
    }

    fn died(&mut self, proc: ProcNo)
        ensures handed { Adds None None (handed.Died proc ∷ []) }
        ensures later { lines_refused self.old ≤ lines_refused self.new }
        // The rewriter was told of this death, and noted or refused it.
        ensures hands { HandsDeath (K.told (lines_rewriter self.old))
            (K.told (lines_rewriter self.new)) proc }
        ensures counts { lines_refused self.new ≡ lines_refused self.old }
    {
        let _gave = self.rewriter.died(proc);
    }
}
