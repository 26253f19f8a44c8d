//! Questions, written to a sink.
ghost use Rattle.std.specs.Prelude.{OnOk, OnErr};
ghost use Rattle.std.specs.Io.KnownBytes.{Appends};
ghost use Rattle.sq_base.specs.Replies.{question_text};
ghost use Rattle.sq_outside.specs.Causes.{HasCause};
ghost use Rattle.sq_outside.specs.Output.{Grew, IsProperPrefix};

use itoa::Buffer;
use sq_outside::{Failed, Sink, write_all, write_line};

/// Writes the line of a question: its channel, where it has one, its text and LF, piece by piece and without memory.
/// Before a fault a front of the line was written, and not all.
#[tactic(auto, unfolding(sq_base::specs::Replies::question_text))]
pub fn write_question<O: Sink>(to: &mut O, channel: Option<u32>, text: &[u8]) -> Result<(), Failed>
    ensures ok { OnOk result
        (Appends (O.contents to.old) (O.contents to.new) (question_text channel text.now)) }
    ensures err { OnErr result
        (Grew (O.contents to.old) (O.contents to.new)
        (λ part. IsProperPrefix part (question_text channel text.now))) }
    ensures cause { HasCause (O.faults to.old) (O.faults to.new) result }
{
    let Some(number) = channel else {
        return write_line(to, b"", text);
    };
    let mut buffer = Buffer::new();
    write_all(to, buffer.format(number).as_bytes())?;
    write_line(to, b" ", text)
}
