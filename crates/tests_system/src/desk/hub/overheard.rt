//! A link of which it is kept what it was told of the turns of its connection.
use sq_outside::{Failed, Observed, Out, Sink, TurnEnd};
use sq_outside_mem::Wire;

/// A half of a link that is written to. What it is told goes to a wire, a line each.
pub struct Overheard<'a, O: Out + Drop> {
    out: O,
    heard: &'a Wire,
}

// Written out, so that who lets one go does not take it apart.
impl<'a, O: Out + Drop> Drop for Overheard<'a, O> {
    fn drop(self) {
        let Overheard { out: _, heard: _ } = self;
    }
}

impl<'a, O: Out + Drop> Overheard<'a, O> {
    pub fn new(out: O, heard: &'a Wire) -> Overheard<'a, O> {
        Overheard { out, heard }
    }
}

// Puts a number below 1,000.
fn put_number(wire: &Wire, number: u64) {
    for unit in [100, 10, 1] {
        if number >= unit || unit == 1 {
            let digit = number / unit % 10;
            wire.put(&[b'0'.saturating_add(digit as u8)]);
        }
    }
}

fn word_of(end: TurnEnd) -> &'static [u8] {
    match end {
        TurnEnd::Stays => b"stays".as_slice(),
        TurnEnd::Closes => b"closes".as_slice(),
        TurnEnd::Cut => b"cut".as_slice(),
        TurnEnd::ClientFault => b"client fault".as_slice(),
        TurnEnd::OriginCut => b"origin cut".as_slice(),
        TurnEnd::OriginFault => b"origin fault".as_slice(),
        TurnEnd::Starved => b"starved".as_slice(),
        TurnEnd::WantOfMemory => b"want of memory".as_slice(),
    }
}

// Puts a line for what is told.
fn put(wire: &Wire, what: &Observed) {
    match what {
        Observed::Served {
            conn,
            addr: _,
            port: _,
        } => {
            wire.put(b"served ");
            put_number(wire, conn.0);
        }
        Observed::Asked(request) => {
            wire.put(b"asked ");
            wire.put(request.target.as_bytes());
        }
        Observed::Judged {
            check,
            allow,
            rule,
            tag,
        } => {
            wire.put(b"check ");
            put_number(wire, check.0);
            wire.put(if *allow {
                b" allow".as_slice()
            } else {
                b" deny".as_slice()
            });
            if let Some(rule) = rule {
                wire.put(b" ");
                put_number(wire, u64::from(*rule));
            }
            if let Some(tag) = tag {
                wire.put(b" tag ");
                wire.put(tag.as_bytes());
            }
        }
        Observed::Rewritten(request) => {
            wire.put(b"rewritten ");
            wire.put(request.target.as_bytes());
        }
        Observed::Replies(status) => {
            wire.put(b"replies ");
            put_number(wire, u64::from(*status));
        }
        Observed::OutOfMemory => wire.put(b"out of memory"),
        Observed::NoReply => wire.put(b"no reply"),
        Observed::Dialled(_) => wire.put(b"dialled"),
        Observed::Ended(end) => wire.put(word_of(*end)),
    }
    wire.put(b"\n");
}

impl<'a, O: Out + Drop> Sink for Overheard<'a, O> {
    ghost contents = { λ s. O.Sink.contents s.out };

    ghost faults = { λ s. O.Sink.faults s.out };

    ghost capped = { λ s. O.Sink.capped s.out };

    fn write(&mut self, bytes: &[u8]) -> Result<usize, Failed> {
        self.out.write(bytes)
    }

    fn observe(&self, what: &Observed) {
        put(self.heard, what);
    }
}

impl<'a, O: Out + Drop> Out for Overheard<'a, O> {
    ghost closed = { λ s. O.closed s.out };

    fn close(&mut self) {
        self.out.close();
    }
}
