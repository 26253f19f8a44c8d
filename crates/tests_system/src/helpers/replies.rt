//! Lines that helper programs write: what a reply says, and how it is printed. Which lines are replies, `cases/replies.txt` shows.
ghost use Rattle.std.specs.Prelude.{◌≡◌};
ghost use Rattle.sq_base.specs.Replies.{is_key_byte, is_key, have_keys};
ghost use Rattle.std.specs.List.{list_all};

use sq_base::{Pair, Reply, Text, WantOfMemory, Word};
use sq_reply::{print_reply, read_reply};
use std::alloc::Global;
use std::process::Abort;

/// Replies of helpers: the line, its word and pairs as `Yes|key=value|`, and how it is printed, with its channel.
static REPLIES: [(&[u8], &[u8], &[u8]); 30] = [
    (b"OK", b"Yes|", b"OK"),
    (b"ERR", b"No|", b"ERR"),
    (b"BH", b"Broken|", b"BH"),
    (b"OK\r", b"Yes|", b"OK"),
    (b"OK   ", b"Yes|", b"OK"),
    (b"ERR  \r", b"No|", b"ERR"),
    (b"OK user=joe", b"Yes|user=joe|", b"OK user=\"joe\""),
    (
        b"OK  user=joe  tag=a ",
        b"Yes|user=joe|tag=a|",
        b"OK user=\"joe\" tag=\"a\"",
    ),
    (
        b"OK user=joe user=ann\r",
        b"Yes|user=joe|user=ann|",
        b"OK user=\"joe\" user=\"ann\"",
    ),
    (
        b"OK user=\"a\\\"b\" tag=x%20y foo",
        b"Yes|user=a\"b|tag=x y|",
        b"OK user=\"a\\\"b\" tag=\"x y\"",
    ),
    (
        b"ERR message=\"he said \\\"no\\\"\"  ",
        b"No|message=he said \"no\"|",
        b"ERR message=\"he said \\\"no\\\"\"",
    ),
    (
        b"BH message=\"no database\" log=\"down\"",
        b"Broken|message=no database|log=down|",
        b"BH message=\"no database\" log=\"down\"",
    ),
    (
        b"OK m=\"a\\rb\\nc\\\\d\\qe\"",
        b"Yes|m=a\rb\nc\\dqe|",
        b"OK m=\"a\\rb\\nc\\\\dqe\"",
    ),
    (
        b"OK m=\"a=b c\\\\\"",
        b"Yes|m=a=b c\\|",
        b"OK m=\"a=b c\\\\\"",
    ),
    (b"OK m=\"x%20y\"", b"Yes|m=x%20y|", b"OK m=\"x%20y\""),
    (b"OK m=\"\"", b"Yes|m=|", b"OK m=\"\""),
    (b"OK m=", b"Yes|m=|", b"OK m=\"\""),
    (b"OK m= n=", b"Yes|m=|n=|", b"OK m=\"\" n=\"\""),
    (b"OK m=%41%6a%6A", b"Yes|m=Ajj|", b"OK m=\"Ajj\""),
    (
        b"OK m=100% n=a%2 o=%zz p=%2g q=%%41",
        b"Yes|m=100%|n=a%2|o=%zz|p=%2g|q=%A|",
        b"OK m=\"100%\" n=\"a%2\" o=\"%zz\" p=\"%2g\" q=\"%A\"",
    ),
    (
        b"OK m=%0d%0A%22%5C",
        b"Yes|m=\r\n\"\\|",
        b"OK m=\"\\r\\n\\\"\\\\\"",
    ),
    (b"OK m=a%00", b"Yes|m=a\0|", b"OK m=%61%00"),
    (
        b"OK m=a\"b=c\\n",
        b"Yes|m=a\"b=c\\n|",
        b"OK m=\"a\\\"b=c\\\\n\"",
    ),
    (
        b"OK clt_conn_tag=x A-9=y -=z",
        b"Yes|clt_conn_tag=x|A-9=y|-=z|",
        b"OK clt_conn_tag=\"x\" A-9=\"y\" -=\"z\"",
    ),
    (
        b"OK m=caf\xc3\xa9\xff\t",
        b"Yes|m=caf\xc3\xa9\xff\t|",
        b"OK m=\"caf\xc3\xa9\xff\t\"",
    ),
    (b"OK foo b.r \\ % \xff 1", b"Yes|", b"OK"),
    (b"0 OK", b"Yes|", b"0 OK"),
    (
        b"7 ERR message=\"x\"\r",
        b"No|message=x|",
        b"7 ERR message=\"x\"",
    ),
    (b"10 BH ", b"Broken|", b"10 BH"),
    (
        b"4294967295 OK user=a",
        b"Yes|user=a|",
        b"4294967295 OK user=\"a\"",
    ),
];

/// The text of these bytes.
fn text_of<R: Abort>(rt: &R, alloc: Global, bytes: &[u8]) -> Text {
    Text::from_slice(alloc, bytes).expect(rt, "memory")
}

fn is_key_byte(byte: u8) -> bool
    ensures { result ≡ is_key_byte byte }
{
    byte.is_ascii_alphanumeric() || byte == b'_' || byte == b'-'
}

fn are_key_bytes(bytes: &[u8]) -> bool
    ensures { result ≡ list_all is_key_byte bytes.now }
{
    bytes.iter().all(|&byte| is_key_byte(byte))
}

fn is_key(key: &[u8]) -> bool
    ensures { result ≡ is_key key.now }
{
    match key.split_first() {
        None => false,
        Some(_) => are_key_bytes(key),
    }
}

fn is_pair(pair: &Pair) -> bool
    ensures { result ≡ is_key pair.now.key }
{
    is_key(pair.key.as_bytes())
}

/// Whether each pair can be printed.
fn have_keys(pairs: &[Pair]) -> bool
    ensures { result ≡ have_keys pairs.now }
{
    pairs.iter().all(|pair| is_pair(pair))
}

fn put_pair(shown: &mut Text, pair: &Pair) -> Result<(), WantOfMemory> {
    shown.append(pair.key.as_bytes())?;
    shown.push(b'=')?;
    shown.append(pair.value.as_bytes())?;
    shown.push(b'|')
}

fn put_pairs(shown: &mut Text, pairs: &[Pair]) -> Result<(), WantOfMemory> {
    for pair in pairs {
        put_pair(shown, pair)?;
    }
    Ok(())
}

/// A reply as the table writes it down.
fn shown<R: Abort>(rt: &R, alloc: Global, reply: &Reply) -> Text {
    let word = match reply.word {
        Word::Yes => "Yes|",
        Word::No => "No|",
        Word::Broken => "Broken|",
    };
    let mut shown = text_of(rt, alloc, word.as_bytes());
    put_pairs(&mut shown, reply.pairs.as_slice()).expect(rt, "memory");
    shown
}

/// Ends the process unless the reply is this one, as the table writes it down.
fn check_shown<R: Abort>(rt: &R, alloc: Global, reply: &Reply, wanted: &[u8]) {
    let shown = shown(rt, alloc, reply);
    assert!(rt; shown.as_bytes() == wanted, "at {wanted:?}");
}

/// Ends the process unless the reply can be printed, and is printed so.
fn check_printed<R: Abort>(
    rt: &R,
    alloc: Global,
    channel: Option<u32>,
    reply: &Reply,
    text: &[u8],
) {
    assert!(rt; have_keys(reply.pairs.as_slice()));
    let printed = print_reply(alloc, channel, reply).expect(rt, "memory");
    assert!(rt; printed.as_bytes() == text, "at {text:?}");
}

fn check_reply<R: Abort>(rt: &R, alloc: Global, line: &[u8], wanted: &[u8], text: &[u8]) {
    let numbered = line.first().is_some_and(|byte| byte.is_ascii_digit());
    let (channel, reply) = read_reply(alloc, line, numbered).expect(rt, "a reply");
    check_shown(rt, alloc, &reply, wanted);
    check_printed(rt, alloc, channel, &reply, text);
}

#[test]
fn replies_of_helpers_are_read_and_printed(rt: HostRuntime) {
    for &(line, wanted, text) in &REPLIES {
        check_reply(&rt, rt.alloc(), line, wanted, text);
    }
}
