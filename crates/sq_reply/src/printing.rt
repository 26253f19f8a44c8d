//! Writing of reply lines and question lines.
ghost use Rattle.std.specs.Prelude.{◌≡◌, ◌++◌, ◌≤◌, true, length, is_some, Some, ◌<◌, IfSome, IfOk, OnOk};
ghost use Rattle.std.specs.List.{flat_map};
ghost use Rattle.percent_encoding.specs.Percent.{percent_encode_byte};
ghost use Rattle.sq_base.specs.Replies.{reply_limit, channel_limit, channel_text, result_text, quoted_byte, value_text, pair_text, reply_of, reply_text, question_text, have_keys};
ghost use Rattle.sq_base.specs.Texts.{AreBytes};
ghost use Rattle.sq_reply.specs.Printing.{HaveBytes};

use itoa::Buffer;
use percent_encoding::percent_encode_byte;
use sq_base::{Pair, Reply, Text, WantOfMemory, Word};
use std::alloc::Global;

fn put_channel(text: &mut Text, channel: Option<u32>) -> Result<(), WantOfMemory>
    ensures text { OnOk result (text.new ≡ text.old ++ channel_text channel) }
    ensures number { IfSome channel (λ n. n < channel_limit) }
{
    let Some(number) = channel else {
        return Ok(());
    };
    let mut buffer = Buffer::new();
    text.append(buffer.format(number).as_bytes())?;
    text.append(b" ")
}

fn put_result(text: &mut Text, word: Word) -> Result<(), WantOfMemory>
    ensures { OnOk result (text.new ≡ text.old ++ result_text word) }
{
    match word {
        Word::Yes => text.append(b"OK"),
        Word::No => text.append(b"ERR"),
        Word::Broken => text.append(b"BH"),
    }
}

fn put_quoted_byte(text: &mut Text, byte: u8) -> Result<(), WantOfMemory>
    ensures { OnOk result (text.new ≡ text.old ++ quoted_byte byte) }
{
    match byte {
        b'\r' => text.append(b"\\r"),
        b'\n' => text.append(b"\\n"),
        b'"' => text.append(b"\\\""),
        b'\\' => text.append(b"\\\\"),
        other => text.push(other),
    }
}

fn put_quoted(text: &mut Text, value: &[u8]) -> Result<(), WantOfMemory>
    ensures { OnOk result (text.new ≡ text.old ++ flat_map quoted_byte value.now) }
{
    for &byte in value {
        put_quoted_byte(text, byte)?;
    }
    Ok(())
}

fn put_escaped(text: &mut Text, value: &[u8]) -> Result<(), WantOfMemory>
    ensures { OnOk result (text.new ≡ text.old ++ flat_map percent_encode_byte value.now) }
{
    for &byte in value {
        text.append(percent_encode_byte(byte).as_bytes())?;
    }
    Ok(())
}

#[tactic(auto, unfolding(sq_base::specs::Replies::value_text))]
fn put_value(text: &mut Text, value: &[u8]) -> Result<(), WantOfMemory>
    ensures { OnOk result (text.new ≡ text.old ++ value_text value.now) }
{
    if value.contains(&0) {
        return put_escaped(text, value);
    }
    text.append(b"\"")?;
    put_quoted(text, value)?;
    text.append(b"\"")
}

fn put_pair(text: &mut Text, pair: &Pair) -> Result<(), WantOfMemory>
    ensures text { OnOk result (text.new ≡ text.old ++ pair_text pair.now) }
    ensures small { AreBytes pair.now.value }
{
    let value = pair.value.as_bytes();
    text.append(b" ")?;
    text.append(pair.key.as_bytes())?;
    text.append(b"=")?;
    put_value(text, value)
}

fn put_pairs(text: &mut Text, pairs: &[Pair]) -> Result<(), WantOfMemory>
    ensures text { OnOk result (text.new ≡ text.old ++ flat_map pair_text pairs.now) }
    ensures small { OnOk result (HaveBytes pairs.now) }
{
    for pair in pairs {
        put_pair(text, pair)?;
    }
    Ok(())
}

#[tactic(auto, unfolding(sq_base::specs::Replies::reply_text))]
fn written(alloc: Global, channel: Option<u32>, reply: &Reply) -> Result<Text, WantOfMemory>
    ensures text { IfOk result (λ t. t ≡ reply_text channel reply.now) }
    ensures number { IfSome channel (λ n. n < channel_limit) }
    ensures small { OnOk result (HaveBytes reply.now.pairs) }
{
    let mut text = Text::new(alloc);
    put_channel(&mut text, channel)?;
    put_result(&mut text, reply.word)?;
    put_pairs(&mut text, reply.pairs.as_slice())?;
    Ok(text)
}

/// Writes a reply line without its LF, for a channel where it has one. What is written, where it is no
/// longer than a line may be, reads as the same.
pub fn print_reply(alloc: Global, channel: Option<u32>, reply: &Reply) -> Result<Text, WantOfMemory>
    requires { have_keys reply.now.pairs ≡ true }
    ensures text { IfOk result (λ t. t ≡ reply_text channel reply.now) }
    ensures again { IfOk result
        (λ t. length t ≤ reply_limit → reply_of (is_some channel) t ≡ Some (channel, reply.now)) }
{
    written(alloc, channel, reply)
}

/// Writes a question line with its LF, for a channel where it has one.
#[tactic(auto, unfolding(sq_base::specs::Replies::question_text))]
pub fn print_question(
    alloc: Global,
    channel: Option<u32>,
    text: &[u8],
) -> Result<Text, WantOfMemory>
    ensures { IfOk result (λ t. t ≡ question_text channel text.now) }
{
    let mut line = Text::new(alloc);
    put_channel(&mut line, channel)?;
    line.append(text)?;
    line.append(b"\n")?;
    Ok(line)
}
