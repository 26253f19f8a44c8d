//! The one spelling in which a host is reached.
ghost use Rattle.std.specs.Prelude.{◌≡◌};
ghost use Rattle.std.specs.Char.{is_ascii_digit, is_ascii_hexdigit};
ghost use Rattle.std.specs.List.{list_all};
ghost use Rattle.sq_system.specs.Hosts as spelling;

use sq_addr::read_addr;

// An IPv6 address that stands for no IPv4 one.
fn is_own_v6(number: u128) -> bool
    ensures { result ≡ spelling.is_own_v6 number }
{
    number >> 32 != 0xffff && (number <= 1 || number >= 1 << 32)
}

// A byte of a name in lower case.
fn is_name_byte(byte: u8) -> bool
    ensures { result ≡ spelling.is_name_byte byte }
{
    byte.is_ascii_lowercase()
        || byte.is_ascii_digit()
        || byte == b'-'
        || byte == b'.'
        || byte == b'_'
}

fn are_name_bytes(name: &[u8]) -> bool
    ensures { result ≡ list_all spelling.is_name_byte name.now }
{
    name.iter().all(|byte| is_name_byte(*byte))
}

fn are_hexadecimal(digits: &[u8]) -> bool
    ensures { result ≡ list_all is_ascii_hexdigit digits.now }
{
    digits.iter().all(|byte| byte.is_ascii_hexdigit())
}

fn are_decimal(digits: &[u8]) -> bool
    ensures { result ≡ list_all is_ascii_digit digits.now }
{
    digits.iter().all(|byte| byte.is_ascii_digit())
}

// A label that is a number to the system, or nothing.
fn is_number(label: &[u8]) -> bool
    ensures { result ≡ spelling.is_number label.now }
{
    if label.starts_with(b"0x") {
        are_hexadecimal(&label[2..])
    } else {
        are_decimal(label)
    }
}

// What stands behind the last dot.
fn last_label(host: &[u8]) -> &[u8]
    ensures { result.now ≡ spelling.last_label host.now }
{
    let mut label = host;
    let mut rest = host;
    while let Some((byte, more)) = rest.split_first() {
        if *byte == b'.' {
            label = more;
        }
        rest = more;
    }
    label
}

/// Whether this is the spelling in which a host is reached: an IPv4 address as four decimal numbers without leading zeros, an
/// IPv6 address that stands for no IPv4 one, or a name in lower case whose last label is there and is no number.
pub fn has_one_spelling(host: &str) -> bool
    ensures { result ≡ spelling.has_one_spelling host.now }
{
    match read_addr(host.as_bytes()) {
        Ok(addr) => !addr.v6 || is_own_v6(addr.number),
        Err(_) => {
            let name = host.as_bytes();
            are_name_bytes(name) && !is_number(last_label(name))
        }
    }
}
