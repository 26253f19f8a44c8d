//! The lines that a proxy writes into each head: RFC 9110 sections 7.6.1 and 7.6.3.
ghost use Rattle.std.specs.Prelude.{◌≡◌, ◌++◌, codes, decimal, OnOk};
ghost use Rattle.sq_message.specs.FieldNames.{line_of};
ghost use Rattle.sq_message.specs.RequestHeads.{coding_line, via_line, closing_line};

use crate::name_test::{NameTest, goes_out};
use itoa::Buffer;
use sq_base::{Text, WantOfMemory};

/// Puts a number.
pub(crate) fn put_number(to: &mut Text, number: u64) -> Result<(), WantOfMemory>
    ensures { OnOk result (to.new ≡ to.old ++ decimal number) }
{
    to.append(Buffer::new().format(number).as_bytes())
}

/// Puts the line of a body that goes out in chunks.
pub(crate) fn put_coding(to: &mut Text, chunked: bool) -> Result<(), WantOfMemory>
    ensures { OnOk result (to.new ≡ to.old ++ coding_line chunked) }
{
    if chunked {
        to.append(b"Transfer-Encoding: chunked\r\n")
    } else {
        Ok(())
    }
}

/// Puts the version that was received, and by whom, where such a line goes out.
pub(crate) fn put_tested_via<T: NameTest>(
    to: &mut Text,
    test: &T,
    minor: u8,
) -> Result<(), WantOfMemory>
    requires { T.IsReady test.now }
    ensures { OnOk result
        (to.new ≡ to.old ++ line_of (T.passes test.now) (codes "Via") (via_line minor)) }
{
    if goes_out(test, b"Via") {
        put_via(to, minor)
    } else {
        Ok(())
    }
}

fn put_via(to: &mut Text, minor: u8) -> Result<(), WantOfMemory>
    ensures { OnOk result (to.new ≡ to.old ++ via_line minor) }
{
    to.append(b"Via: 1.")?;
    put_number(to, minor as u64)?;
    to.append(b" aclproxy\r\n")
}

/// Puts the line of a connection that closes.
pub(crate) fn put_closing(to: &mut Text, closes: bool) -> Result<(), WantOfMemory>
    ensures { OnOk result (to.new ≡ to.old ++ closing_line closes) }
{
    if closes {
        to.append(b"Connection: close\r\n")
    } else {
        Ok(())
    }
}
