//! Lines `http_port`, and lines that have no effect.
ghost use Rattle.std.specs.Prelude.{◌≡◌, OnOk, Ok};
ghost use Rattle.sq_conf.specs.Forms.{Gives, Makes};
ghost use Rattle.sq_rules.specs.ClassLines.{with_notice, with_notice_if};
ghost use Rattle.sq_rules.specs.PoolLines.{mode_step, port_line, with_http_port};
ghost use Rattle.sq_rules.specs.Steps.{over};

use crate::builder::Builder;
use crate::config_words::ConfigWords;
use crate::faults::ReadFault;
use crate::numbers::number_in;
use crate::pairs::{has_host, port_text};
use sq_base::{PORT_LIMIT, Text, WantOfMemory, is_among};
use sq_rules::{Kind, Notice};
use std::alloc::Global;

// Modes of interception, of a reverse proxy and of TLS that is opened.
const REFUSED_MODES: [&[u8]; 4] = [b"intercept", b"tproxy", b"accel", b"ssl-bump"];

/// Notes that a line has no effect, or only in part.
pub fn note(
    alloc: Global,
    builder: &mut Builder,
    line: u32,
    directive: &[u8],
) -> Result<(), WantOfMemory>
    ensures { OnOk result (builder.new ≡ with_notice line directive.now builder.old) }
{
    let directive = Text::from_slice(alloc, directive)?;
    builder.push_notice(Notice { line, directive })
}

/// The same where there is something to note.
pub fn note_if(
    alloc: Global,
    builder: &mut Builder,
    noted: bool,
    line: u32,
    directive: &[u8],
) -> Result<(), WantOfMemory>
    ensures { OnOk result (builder.new ≡ with_notice_if noted line directive.now builder.old) }
{
    if noted {
        note(alloc, builder, line, directive)
    } else {
        Ok(())
    }
}

// Whether there is something to note, with the words behind the port.
fn modes(noted: bool, words: &[Text]) -> Result<bool, ReadFault>
    ensures { Gives (λ n. n) result (over mode_step noted words.now) }
{
    let mut so_far = noted;
    for word in words {
        if is_among(&REFUSED_MODES, word.as_bytes()) {
            return Err(ReadFault::Fault(Kind::BadValue));
        }
        so_far = true;
    }
    Ok(so_far)
}

// Only the first port counts.
fn set_port(builder: &mut Builder, port: u16)
    ensures { builder.new ≡ with_http_port port builder.old }
{
    if !builder.has_port() {
        builder.set_port(port);
    }
}

/// `http_port PORT|HOST:PORT ...`
#[tactic(auto, unfolding(sq_rules::specs::PoolLines::port_line))]
pub fn port_line(
    alloc: Global,
    builder: &mut Builder,
    line: u32,
    words: &[Text],
) -> Result<(), ReadFault>
    ensures { Makes result builder.new (port_line line builder.old words.now) }
{
    let mut words = ConfigWords::new(words);
    let first = words.next()?.as_bytes();
    let port = number_in(port_text(first), 1, PORT_LIMIT - 1)?;
    let noted = modes(has_host(first), words.rest())?;
    set_port(builder, port as u16);
    note_if(alloc, builder, noted, line, b"http_port")?;
    Ok(())
}
