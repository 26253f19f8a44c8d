//! Lines of the file joined where one goes on with the next.
ghost use Rattle.std.specs.Prelude.{◌≡◌, ◌<◌, ◌^◌, length, IfOk};
ghost use Rattle.sq_base.specs.Lines.{goes_on, but_last, joined};

use crate::splitting::ends_in;
use crate::wording::is_comment;
use sq_base::{Listed, Text, WantOfMemory};
use std::alloc::Global;
use std::marker::Model;

/// Lines of the file joined to one, with the number of the first of them.
#[derive(Drop)]
pub struct Joined {
    pub number: u32,
    pub text: Text,
}

impl Model for Joined {
    ghost use Rattle.sq_base.specs.Lines.{Joined};

    ghost Value = { Joined };

    ghost view = { λ j. record { number = j.number; text = j.text } };
}

/// The joined lines, numbered from 1.
pub fn join(alloc: Global, lines: &[Text]) -> Result<Listed<Joined>, WantOfMemory>
    requires { length lines.now < 2 ^ 31 }
    ensures { IfOk result (λ js. js ≡ joined 1 lines.now) }
{
    let mut all = Listed::new(alloc);
    let mut front = Text::new(alloc);
    let mut first: u32 = 1;
    let mut next: u32 = 1;
    for line in lines {
        let line = line.as_bytes();
        next += 1;
        if goes_on(line) {
            front.append(but_last(line))?;
            front.push(b' ')?;
        } else {
            front.append(line)?;
            all.push(Joined {
                number: first,
                text: front,
            })?;
            front = Text::new(alloc);
            first = next;
        }
    }
    if !front.is_empty() {
        all.push(Joined {
            number: first,
            text: front,
        })?;
    }
    Ok(all)
}

fn goes_on(line: &[u8]) -> bool
    ensures { result ≡ goes_on line.now }
{
    ends_in(line, b'\\') && !is_comment(line)
}

fn but_last(line: &[u8]) -> &[u8]
    ensures { result.now ≡ but_last line.now }
{
    &line[..line.len().saturating_sub(1)]
}
