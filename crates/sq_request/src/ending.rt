//! Where a head ends.
ghost use Rattle.std.specs.Prelude.{◌≡◌, ◌<◌, ◌≤◌, length, take, position, IfSome};
ghost use Rattle.sq_base.specs.Lines.{is_lf};
ghost use Rattle.sq_request.specs.Endings.{is_empty_line, head_end, IsWholeHead};

/// The place after the first empty line that follows a line with bytes. Lines end with LF, and one CR
/// before it is dropped. It takes no memory.
pub fn head_end(bytes: &[u8]) -> Option<usize>
    ensures place { result ≡ head_end bytes.now }
    ensures inside { IfSome result (λ n. n ≤ length bytes.now) }
    ensures whole { IfSome result (λ n. IsWholeHead (take n bytes.now)) }
{
    let mut rest = bytes;
    let mut passed = 0;
    let mut begun = false;
    while let Some(len) = line_len(rest) {
        passed += len + 1;
        if !is_empty_line(&rest[..len]) {
            begun = true;
        } else if begun {
            return Some(passed);
        }
        rest = &rest[len + 1..];
    }
    None
}

// How many bytes stand before the first LF.
fn line_len(bytes: &[u8]) -> Option<usize>
    ensures first { result ≡ position is_lf bytes.now }
    ensures bound { IfSome result (λ n. n < length bytes.now) }
{
    bytes.iter().position(|&byte| byte == b'\n')
}

fn is_empty_line(line: &[u8]) -> bool
    ensures { result ≡ is_empty_line line.now }
{
    match line {
        [] => true,
        [byte] => *byte == b'\r',
        _ => false,
    }
}
