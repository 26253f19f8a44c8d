//! The line that says how long a chunk is.
ghost use Rattle.std.specs.Prelude.{◌≡◌, ◌++◌, ◌<◌, ◌≤◌, drop, OnOk, OnErr, false};
ghost use Rattle.std.specs.Fmt.{digits, digit_glyph};
ghost use Rattle.sq_message.specs.Bodies.{size_line};

use sq_base::{Text, WantOfMemory};

/// Puts the size in lower-case hexadecimal and CRLF at the end.
pub(crate) fn push_size(size: u64, out: &mut Text) -> Result<(), WantOfMemory>
    ensures ok { OnOk result (out.new ≡ out.old ++ size_line size) }
    ensures err { OnErr result (out.new ≡ out.old) }
{
    let mut line = [0u8; 66];
    line[64] = b'\r';
    line[65] = b'\n';
    let at = put_digits(size, &mut line);
    out.append(&line[at..])
}

// Puts the digits of a number, which are 64 at most, so that they end before place 64, and says where they begin.
fn put_digits(number: u64, line: &mut [u8; 66]) -> usize
    ensures within { result ≤ 64 }
    ensures digits { drop result line.new ≡ digits 16 false number ++ drop 64 line.old }
{
    let mut at = 64;
    let mut rest = number;
    while at > 0 {
        at -= 1;
        line[at] = hex_digit(rest % 16);
        rest /= 16;
        if rest == 0 {
            return at;
        }
    }
    at
}

fn hex_digit(digit: u64) -> u8
    requires { digit < 16 }
    ensures { result ≡ digit_glyph false digit }
{
    if digit < 10 {
        b'0' + digit as u8
    } else {
        b'a' - 10 + digit as u8
    }
}
