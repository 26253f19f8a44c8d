//! Ports of authorities.
ghost use Rattle.std.specs.Prelude.{◌≡◌, nat_lt, Some, None, if◌then◌else◌};
ghost use Rattle.std.specs.List.{list_all};
ghost use Rattle.std.specs.Char.{is_ascii_digit};
ghost use Rattle.std.specs.Str.{str_to_ascii_lowercase};
ghost use Rattle.sq_base.specs.Decimals.{read_on};
ghost use Rattle.sq_base.specs.Targets.{port_of, port_after, scheme_port, connect_port, from_one};

/// The port behind a host; the default where there is none, or an empty one.
pub fn port_after(default: u16, rest: &[u8]) -> Option<u16>
    ensures { result ≡ port_after default rest.now }
{
    match rest {
        [] => Some(default),
        [byte] => { if *byte == b':' { Some(default) } else { None } }
        [byte, digits @ ..] => { if *byte == b':' { port_of(digits) } else { None } }
    }
}

/// The port behind the host of a CONNECT target.
pub fn connect_port(rest: &[u8]) -> Option<u16>
    ensures { result ≡ from_one (connect_port rest.now) }
{
    match rest {
        [b':', digits @ ..] => {
            let port = port_of(digits)?;
            if port == 0 { None } else { Some(port) }
        }
        _ => None,
    }
}

/// The port that a scheme has by itself, and 0 for one that is not known.
pub fn scheme_port(scheme: &[u8]) -> u16
    ensures { result ≡ scheme_port (str_to_ascii_lowercase scheme.now) }
{
    if scheme.eq_ignore_ascii_case(b"http") {
        80
    } else if scheme.eq_ignore_ascii_case(b"https") {
        443
    } else if scheme.eq_ignore_ascii_case(b"ftp") {
        21
    } else {
        0
    }
}

// The number of one to five digits.
#[tactic(auto, unfolding(sq_base::specs::Targets::port_of))]
fn port_of(word: &[u8]) -> Option<u16>
    ensures { result ≡ port_of word.now }
{
    if 1 <= word.len() && word.len() <= 5 && are_digits(word) {
        digits_value(word)
    } else {
        None
    }
}

fn are_digits(word: &[u8]) -> bool
    ensures { result ≡ list_all is_ascii_digit word.now }
{
    word.iter().all(|byte| byte.is_ascii_digit())
}

// The value of digits, where it is below 65536.
fn digits_value(digits: &[u8]) -> Option<u16>
    ensures { result ≡ (if nat_lt (read_on 0 digits.now) 65536 then Some (read_on 0 digits.now)
        else None) }
{
    let mut number: u32 = 0;
    for &byte in digits {
        number = number * 10 + byte.saturating_sub(b'0') as u32;
        if number >= 65536 {
            return None;
        }
    }
    Some(number as u16)
}
