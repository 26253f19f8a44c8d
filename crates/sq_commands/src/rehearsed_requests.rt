//! The requests of a rehearsal, each by a number of one sequence, and the replies to their questions.
ghost use Rattle.std.specs.Prelude.{◌≡◌, IfOk};
ghost use Rattle.sq_commands.specs.Requests.{client_of, host_number, is_even_key, number_after, port_of, reply_line, target_text};

use itoa::Buffer;
use sq_base::{Addr, Text, WantOfMemory};
use std::alloc::Global;

/// The address of the first client, 10.0.0.1, as a number.
const FIRST_CLIENT: u128 = 167_772_161;

/// The number after this one.
pub fn number_after(x: u32) -> u32
    ensures { result ≡ number_after x }
{
    ((1_103_515_245 * x as u64 + 12_345) % 2_147_483_648) as u32
}

// The number of the host that is asked for, below 50.
fn host_number(x: u32) -> u32
    ensures { result ≡ host_number x }
{
    x / 16 % 50
}

// The port that is asked for.
fn port_of(x: u32) -> u16
    ensures { result ≡ port_of x }
{
    if x / 1024 % 8 == 0 { 81 } else { 80 }
}

/// The client that asks, one of four.
pub fn client_of(x: u32) -> Addr
    ensures { result ≡ client_of x }
{
    Addr {
        v6: false,
        number: FIRST_CLIENT + (x % 4) as u128,
    }
}

/// The target of the request.
pub fn target_text(alloc: Global, x: u32) -> Result<Text, WantOfMemory>
    ensures { IfOk result (λ text. text ≡ target_text x) }
{
    let mut host = Buffer::new();
    let mut port = Buffer::new();
    let mut text = Text::new(alloc);
    text.append(b"http://h")?;
    text.append(host.format(host_number(x)).as_bytes())?;
    text.append(b".example:")?;
    text.append(port.format(port_of(x)).as_bytes())?;
    text.push(b'/')?;
    Ok(text)
}

/// Whether the number of the host that a key names is even: the last digit before its first `.` says so.
pub fn is_even_key(key: &[u8]) -> bool
    ensures { result ≡ is_even_key key.now }
{
    let mut even = true;
    for &byte in key {
        if byte == b'.' {
            return even;
        }
        even = byte % 2 == 0;
    }
    even
}

/// The line by which a helper answers on a channel, if its class has channels: OK, or ERR.
pub fn reply_line(alloc: Global, channel: Option<u32>, ok: bool) -> Result<Text, WantOfMemory>
    ensures { IfOk result (λ text. text ≡ reply_line channel ok) }
{
    let mut text = Text::new(alloc);
    if let Some(number) = channel {
        let mut buffer = Buffer::new();
        text.append(buffer.format(number).as_bytes())?;
        text.push(b' ')?;
    }
    if ok {
        text.append(b"OK")?;
    } else {
        text.append(b"ERR")?;
    }
    Ok(text)
}
