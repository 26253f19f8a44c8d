//! The orders that a control gives, one a line.
ghost use Rattle.std.specs.Prelude.{◌≡◌, ◌∷◌, [], ◌++◌, take, IfOk, IfSome};
ghost use Rattle.sq_outside.specs.Causes.{HasCause};
ghost use Rattle.sq_control.specs.Orders.{Gives, IsNext, kept, order_of};

use sq_outside::{Failed, Source};
use std::marker::Model;
use std::sync::Wait;

/// One more byte than the longest order has.
const KEPT: usize = 12;

/// What a line orders.
#[derive(Clone, Copy)]
pub enum Order {
    /// `reconfigure`: the configuration is read again.
    Reconfigure,
    /// `shutdown`: the server ends.
    Shutdown,
    /// Any other line orders nothing.
    Nothing,
    /// No line comes any more. Bytes that no LF ends are none.
    End,
}

// The front of a line: enough of it to know its order.
#[derive(Drop)]
struct OrderPrefix {
    bytes: [u8; 12],
    len: usize,
}

impl Model for OrderPrefix {
    ghost use Rattle.std.specs.Prelude.{List, ℕ, ◌≤◌, take, length};

    ghost Value = { List ℕ };

    ghost view = { λ f. take f.len f.bytes };

    ghost invariant = { λ f. f.len ≤ 12 };
}

impl OrderPrefix {
    // The front of an empty line.
    fn new() -> OrderPrefix
        ensures { result ≡ [] }
    {
        OrderPrefix {
            bytes: [0; 12],
            len: 0,
        }
    }

    // The line has one byte more.
    fn push(&mut self, byte: u8)
        ensures { self.new ≡ kept (self.old ++ byte ∷ []) }
    {
        if self.len < KEPT {
            self.bytes[self.len] = byte;
            self.len += 1;
        }
    }

    // What the line orders.
    fn order(&self) -> Order
        ensures { result ≡ order_of self.now }
    {
        let line = &self.bytes[..self.len];
        if line == b"reconfigure".as_slice() {
            Order::Reconfigure
        } else if line == b"shutdown".as_slice() {
            Order::Shutdown
        } else {
            Order::Nothing
        }
    }
}

// The next byte of a source, or None at its end.
fn next_byte<S: Source>(source: &mut S) -> Result<Option<u8>, Failed>
    ensures byte { IfOk result (λ byte. Gives (S.left source.old) (S.left source.new) byte) }
    ensures cause { HasCause (S.faults source.old) (S.faults source.new) result }
{
    let mut byte = [0u8; 1];
    match source.read(&mut byte) {
        Ok(0) => Ok(None),
        Ok(_) => Ok(Some(byte[0])),
        Err(Failed) => Err(Failed),
    }
}

/// Takes the next line of a source, and says what it orders. It reads byte by byte, so what stands behind the line is left.
pub fn next_order<R: Wait, S: Source>(rt: &R, source: &mut S) -> Result<Order, Failed>
    ensures next { IfOk result
        (λ order. IfSome (S.left source.old) (λ bytes. IsNext bytes (S.left source.new) order)) }
    ensures cause { HasCause (S.faults source.old) (S.faults source.new) result }
{
    let mut front = OrderPrefix::new();
    'bytes: for _ in rt.forever() {
        match next_byte(source) {
            Ok(Some(b'\n')) => return Ok(front.order()),
            Ok(Some(byte)) => front.push(byte),
            Ok(None) => return Ok(Order::End),
            Err(Failed) => return Err(Failed),
        }
    }
    unreachable!()
}
