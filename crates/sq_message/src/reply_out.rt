//! The head of a reply as the client gets it.
ghost use Rattle.std.specs.Prelude.{◌≡◌, ◌++◌, IfOk, OnOk};
ghost use Rattle.sq_message.specs.ReplyHeads.{reply_head_out, reply_head_out_where, status_line, status_text, leading_zeros};

use crate::kept::put_kept_fields;
use crate::lines::{put_closing, put_coding, put_number, put_tested_via};
use crate::name_test::{EachName, NameTest};
use crate::names::Direction;
use crate::replies::{ReplyHead, Shape};
use sq_base::{Text, WantOfMemory};
use std::alloc::Global;

/// The head of a reply as the client gets it, where what follows has this shape. Lines end with CRLF.
#[tactic(auto, unfolding(crate::specs::ReplyHeads::reply_head_out))]
pub fn reply_head_out(alloc: Global, head: &ReplyHead, shape: Shape) -> Result<Text, WantOfMemory>
    ensures text { IfOk result (λ t. t ≡ reply_head_out head.now shape) }
{
    reply_head_out_where(alloc, head, shape, &EachName)
}

/// The head of a reply as the client gets it, without the lines of fields whose names do not pass the test,
/// that of the proxy included: the lines Host, Content-Length, Transfer-Encoding and Connection always stay.
#[tactic(auto, unfolding(crate::specs::ReplyHeads::reply_head_out_where))]
pub fn reply_head_out_where<T: NameTest>(
    alloc: Global,
    head: &ReplyHead,
    shape: Shape,
    test: &T,
) -> Result<Text, WantOfMemory>
    requires { T.IsReady test.now }
    ensures text { IfOk result (λ t. t ≡ reply_head_out_where (T.passes test.now) head.now shape) }
{
    let mut text = Text::new(alloc);
    put_status_line(&mut text, head)?;
    put_kept_fields(
        alloc,
        &mut text,
        test,
        Direction::ToClient,
        head.fields.as_slice(),
    )?;
    put_coding(&mut text, shape.chunked)?;
    put_tested_via(&mut text, test, head.minor)?;
    put_closing(&mut text, shape.closes)?;
    text.append(b"\r\n")?;
    Ok(text)
}

fn put_status_line(to: &mut Text, head: &ReplyHead) -> Result<(), WantOfMemory>
    ensures { OnOk result (to.new ≡ to.old ++ status_line head.now) }
{
    to.append(b"HTTP/1.1 ")?;
    put_status(to, head.status)?;
    to.push(b' ')?;
    to.append(head.reason.as_bytes())?;
    to.append(b"\r\n")
}

// Puts a status in three digits.
fn put_status(to: &mut Text, status: u16) -> Result<(), WantOfMemory>
    ensures { OnOk result (to.new ≡ to.old ++ status_text status) }
{
    put_zeros(to, status)?;
    put_number(to, status as u64)
}

// Puts the zeros in front of a number below 100.
fn put_zeros(to: &mut Text, number: u16) -> Result<(), WantOfMemory>
    ensures { OnOk result (to.new ≡ to.old ++ leading_zeros number) }
{
    if number < 10 {
        to.append(b"00")
    } else if number < 100 {
        to.append(b"0")
    } else {
        Ok(())
    }
}
