//! Words cut at a byte.
ghost use Rattle.std.specs.Prelude.{◌≡◌, ◌<◌, ◌==◌, length, position, IfSome};
ghost use Rattle.std.specs.List.{before_first, after_first, after_last, list_any};

/// What stands before the first such byte; all where there is none.
pub fn before(word: &[u8], wanted: u8) -> &[u8]
    ensures { result.now ≡ before_first (λ b. b == wanted) word.now }
{
    match place_of(word, wanted) {
        Some(place) => {
            let (before, _) = word.split_at(place);
            before
        }
        None => word,
    }
}

/// What stands behind the first such byte; nothing where there is none.
pub fn behind(word: &[u8], wanted: u8) -> &[u8]
    ensures { result.now ≡ after_first (λ b. b == wanted) word.now }
{
    match place_of(word, wanted) {
        Some(place) => {
            let (_, behind) = word.split_at(place + 1);
            behind
        }
        None => b"".as_slice(),
    }
}

/// What stands behind the last such byte; all where there is none.
pub fn behind_last(word: &[u8], wanted: u8) -> &[u8]
    ensures { result.now ≡ after_last (λ b. b == wanted) word.now }
{
    let mut start = word.len();
    while start > 0 && word[start - 1] != wanted {
        start -= 1;
    }
    &word[start..]
}

/// Whether it holds such a byte.
pub fn holds(word: &[u8], wanted: u8) -> bool
    ensures { result ≡ list_any (λ b. b == wanted) word.now }
{
    word.iter().any(|&byte| byte == wanted)
}

fn place_of(word: &[u8], wanted: u8) -> Option<usize>
    ensures first { result ≡ position (λ b. b == wanted) word.now }
    ensures inside { IfSome result (λ i. i < length word.now) }
{
    word.iter().position(|&byte| byte == wanted)
}
