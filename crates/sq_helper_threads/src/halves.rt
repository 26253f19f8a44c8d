//! The halves of processes: of programs that were started, and of threads that answer look-ups of names.
ghost use Rattle.std.proofs.Common.{rules};
ghost use Rattle.sq_helper_threads.specs.Halves.{in_closed, in_contents, in_faults};

use sq_dst::{PipeIn, PipeOut};
use sq_outside::{Failed, Out, Sink};
use sq_rules::Config;
use std::sync::{Arc, Wait};

/// The half of a process that is written to.
#[derive(Drop)]
pub enum ProcIn<'a, Q, R: Wait> {
    /// Of a program that was started.
    Child(Q),
    /// Of a thread that answers look-ups of names. It tells nothing, and never fails.
    Asker(PipeIn<'a, R>),
}

impl<'a, Q: Out, R: Wait> Sink for ProcIn<'a, Q, R> {
    ghost use Rattle.sq_helper_threads.specs.declared.halves.ProcIn.TheVariants.{Asker, Child};

    ghost contents = { in_contents Q.Sink.contents };

    ghost faults = { in_faults Q.Sink.faults };

    ghost capped = { elim [ Child to ↦ Q.Sink.capped to | Asker to ↦ Prim.search rules ] };

    fn write(&mut self, bytes: &[u8]) -> Result<usize, Failed> {
        match self {
            ProcIn::Child(to) => to.write(bytes),
            ProcIn::Asker(to) => to.write(bytes),
        }
    }
}

impl<'a, Q: Out, R: Wait> Out for ProcIn<'a, Q, R> {
    ghost closed = { in_closed Q.closed };

    fn close(&mut self) {
        match self {
            ProcIn::Child(to) => to.close(),
            ProcIn::Asker(to) => to.close(),
        }
    }
}

/// The half of a thread that answers look-ups of names that is read, and the configuration by which it answers.
#[derive(Drop)]
pub struct AskerOut<'a, R: Wait> {
    pub(crate) from: PipeOut<'a, R>,
    pub(crate) config: Arc<Config>,
}
