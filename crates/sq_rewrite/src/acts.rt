//! What a rewriter asks for next.
ghost use Rattle.std.specs.Prelude.{◌≡◌};
ghost use Rattle.std.specs.Option.{option_map};
ghost use Rattle.sq_rewrite.specs.States.{as_act};

use sq_base::{ProcNo, QuestionNo, Text};
use sq_farm::FarmAct;

/// What a rewriter asks for next.
#[derive(Drop)]
pub enum RewriteAct {
    /// This process is to be stopped.
    Stop(ProcNo),
    /// This question is to be written to this process, on this channel where it has channels.
    Send {
        proc: ProcNo,
        question: QuestionNo,
        channel: Option<u32>,
        text: Text,
    },
    /// A process is to be started.
    Start,
}

// The act of a farm.
pub(crate) fn as_act(act: Option<FarmAct>) -> Option<RewriteAct>
    ensures { result ≡ option_map as_act act }
{
    let Some(act) = act else {
        return None;
    };
    match act {
        FarmAct::Send {
            proc,
            question,
            channel,
            text,
        } => Some(RewriteAct::Send {
            proc,
            question,
            channel,
            text,
        }),
        FarmAct::Start => Some(RewriteAct::Start),
    }
}
