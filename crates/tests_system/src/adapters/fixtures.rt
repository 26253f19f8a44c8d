//! What several tests share: a long text, and both ends of a link on this machine.
use sq_base::{Text, WantOfMemory};
use sq_outside::{Accepted, Dialer, Failed, LinkUse, Listener, Out, Source, read_whole, write_all};
use sq_system::{RealDialer, RealIn, RealListener, RealOut};
use std::alloc::Global;
use std::fs::File;
use std::net::{Net, TcpStream};
use std::rt::Files;
use std::sync::Wait;
use std::thread::Threads;
use std::time;

/// How many bytes each side sends.
pub const LONG: usize = 1 << 20;

// The byte at this place of a long text that is sent by the side of this mark: others follow each 4,096 bytes.
fn piece(mark: u8, number: u8) -> [u8; 4096] {
    [mark ^ number; 4096]
}

/// Writes a long text and closes. Whether all went well.
pub fn sends<O: Out>(to: &mut O, mark: u8) -> bool {
    for number in 0..=255u8 {
        if write_all(to, &piece(mark, number)).is_err() {
            return false;
        }
    }
    to.close();
    true
}

/// Reads to the end. Whether that was exactly the long text of this mark.
pub fn receives<S: Source>(alloc: Global, from: &mut S, mark: u8) -> bool {
    let Ok(Some(text)) = read_whole(alloc, LONG, from) else {
        return false;
    };
    let mut number = 0u8;
    for part in text.as_bytes().chunks(4096) {
        if part != piece(mark, number).as_slice() {
            return false;
        }
        number = number.wrapping_add(1);
    }
    text.len() == LONG
}

/// Both halves of a link.
pub type Halves<R> = (RealIn<R>, RealOut<R>);

/// Dials this machine by this host.
pub fn dials<
    R: Net<Stream = TcpStream>
        + time::Clock
        + Files<File = File>
        + Threads
        + Wait
        + Copy
        + Send
        + Drop,
>(alloc: Global, dialer: &mut RealDialer<R>, host: &[u8], port: u16) -> Result<Halves<R>, Failed> {
    let Ok(host) = Text::from_slice(alloc, host) else {
        return Err(Failed);
    };
    dialer.dial(alloc, &host, port, LinkUse::Exchange)
}

/// The halves of the next link, if one came.
pub fn accepts<R: time::Clock + Files + Wait + Copy + Send + Drop>(
    alloc: Global,
    listener: &mut RealListener<R>,
) -> Option<Halves<R>> {
    match listener.next(alloc) {
        Accepted::Link { from, to, .. } => Some((from, to)),
        _ => None,
    }
}

/// The words of a command.
pub fn words(alloc: Global, words: &[&[u8]]) -> Result<Vec<Text>, WantOfMemory> {
    let mut made = Vec::new(alloc);
    for word in words {
        made.push(Text::from_slice(alloc, word)?)?;
    }
    Ok(made)
}
