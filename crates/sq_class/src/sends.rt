//! A question that is to be written to a process.
ghost use Rattle.std.specs.Prelude.{◌≡◌};
ghost use Rattle.sq_class.specs.Sends.{sending_of};

use sq_base::{ProcNo, QuestionNo, Text};
use sq_farm::FarmAct;
use std::marker::Model;

/// A question that is to be written to a process, on this channel where its lines have channel numbers.
#[derive(Drop)]
pub struct Sending {
    pub proc: ProcNo,
    pub question: QuestionNo,
    pub channel: Option<u32>,
    pub text: Text,
}

impl Model for Sending {
    ghost use Rattle.sq_machine.specs.Farms.{Sending};

    ghost Value = { Sending };

    ghost view = { λ s. record {
      proc = s.proc;
      question = s.question;
      channel = s.channel;
      text = s.text;
    } };
}

// The send that an act is.
pub(crate) fn as_sending(act: Option<FarmAct>) -> Option<Sending>
    ensures { result ≡ sending_of act }
{
    let Some(act) = act else {
        return None;
    };
    match act {
        FarmAct::Send {
            proc,
            question,
            channel,
            text,
        } => Some(Sending {
            proc,
            question,
            channel,
            text,
        }),
        FarmAct::Start => None,
    }
}
