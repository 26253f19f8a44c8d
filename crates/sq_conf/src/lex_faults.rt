//! Why a text has no lines.
use sq_base::{LineFault, WantOfMemory};
use thiserror::Error;

/// The first faulty line, by the number of its first part, or want of memory.
#[derive(Clone, Copy, Debug, Error)]
pub enum LexFault {
    #[error("line {0} is too long")]
    LineTooLong(u32),
    #[error("line {0} is not UTF-8")]
    NotUtf8(u32),
    #[error("out of memory")]
    WantOfMemory,
}

impl From<WantOfMemory> for LexFault {
    ghost use Rattle.std.specs.Prelude.{◌≡◌};
    ghost use Rattle.sq_conf.specs.declared.lex_faults.LexFault.TheVariants as lex;

    ghost from_gives = { λ _ e. e ≡ lex.WantOfMemory };

    fn from(_error: WantOfMemory) -> LexFault {
        LexFault::WantOfMemory
    }
}

impl From<LineFault> for LexFault {
    ghost use Rattle.std.specs.Prelude.{◌≡◌};
    ghost use Rattle.sq_conf.specs.LexFaults.{lex_fault};

    ghost from_gives = { λ f e. e ≡ lex_fault f };

    fn from(fault: LineFault) -> LexFault {
        match fault {
            LineFault::LineTooLong(number) => LexFault::LineTooLong(number),
            LineFault::NotUtf8(number) => LexFault::NotUtf8(number),
        }
    }
}
