//! The halves of processes that keepers read.
ghost use Rattle.sq_helper_threads.specs.KeeperHalves.{out_proc};

use crate::board::OfProcess;
use crate::halves::AskerOut;
use crate::reader::Reader;
use sq_base::ProcNo;
use std::sync::Wait;

/// The half of a process that is read.
#[derive(Drop)]
pub(crate) enum ProcOut<'a, P, R: Wait> {
    /// Of a program: the lines that it writes.
    Child(Reader<P>),
    /// Of the class by which names are looked up: the questions, which the keeper answers itself.
    Asker(Reader<AskerOut<'a, R>>),
}

impl<'a, P, R: Wait> OfProcess for ProcOut<'a, P, R> {
    ghost proc_of = { out_proc };

    fn proc(&self) -> ProcNo {
        match self {
            ProcOut::Child(half) => half.proc(),
            ProcOut::Asker(half) => half.proc(),
        }
    }
}
