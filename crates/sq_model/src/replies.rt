//! What a reply ends its question with.
ghost use Rattle.std.specs.Prelude.{◌≡◌, IfOk};
ghost use Rattle.sq_machine.specs.Questions.{what_of};

use sq_base::{Cause, Copying, Reply, WantOfMemory, What, Word};
use std::alloc::Global;

/// What a question ends with that has this reply: its pairs under yes or no, and a fault where the helper said
/// that it is broken.
pub fn what_of(alloc: Global, reply: &Reply) -> Result<What, WantOfMemory>
    ensures { IfOk result (λ w. w ≡ what_of reply.now) }
{
    match reply.word {
        Word::Yes => {
            let pairs = reply.pairs.copy(alloc)?;
            Ok(What::Yes(pairs))
        }
        Word::No => {
            let pairs = reply.pairs.copy(alloc)?;
            Ok(What::No(pairs))
        }
        Word::Broken => Ok(What::Fault(Cause::Bh)),
    }
}
