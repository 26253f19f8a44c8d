//! The bytes of a reply line, by kind, and how far a kind goes from the front.
ghost use Rattle.std.specs.Prelude.{◌≡◌, ◌≤◌, length};
ghost use Rattle.std.specs.List.{list_all, prefix_len};
ghost use Rattle.sq_base.specs.Replies.{is_line_byte, is_word_byte, is_value_byte, is_key_byte, is_key, meant};

/// Whether a reply line may hold the byte.
pub fn is_line_byte(byte: u8) -> bool
    ensures { result ≡ is_line_byte byte }
{
    !(byte == 0 || byte == b'\n' || byte == b'\r')
}

fn is_word_byte(byte: u8) -> bool
    ensures { result ≡ is_word_byte byte }
{
    is_line_byte(byte) && !(byte == b' ' || byte == b'"' || byte == b'=')
}

fn is_value_byte(byte: u8) -> bool
    ensures { result ≡ is_value_byte byte }
{
    is_line_byte(byte) && !(byte == b' ')
}

fn is_key_byte(byte: u8) -> bool
    ensures { result ≡ is_key_byte byte }
{
    byte.is_ascii_alphanumeric() || byte == b'_' || byte == b'-'
}

fn are_key_bytes(bytes: &[u8]) -> bool
    ensures { result ≡ list_all is_key_byte bytes.now }
{
    bytes.iter().all(|&byte| is_key_byte(byte))
}

/// Whether these bytes are the key of a pair.
pub fn is_key(bytes: &[u8]) -> bool
    ensures { result ≡ is_key bytes.now }
{
    match bytes.split_first() {
        None => false,
        Some(_) => are_key_bytes(bytes),
    }
}

/// The byte for which a `\` and this byte stand.
pub fn meant(byte: u8) -> u8
    ensures { result ≡ meant byte }
{
    match byte {
        b'r' => b'\r',
        b'n' => b'\n',
        other => other,
    }
}

/// How many bytes at the front may stand in a bare word.
pub fn word_len(bytes: &[u8]) -> usize
    ensures len { result ≡ prefix_len is_word_byte bytes.now }
    ensures bound { result ≤ length bytes.now }
{
    for (i, &byte) in bytes.iter().enumerate() {
        if !is_word_byte(byte) {
            return i;
        }
    }
    bytes.len()
}

/// How many bytes at the front may stand in a value without quotes.
pub fn value_len(bytes: &[u8]) -> usize
    ensures len { result ≡ prefix_len is_value_byte bytes.now }
    ensures bound { result ≤ length bytes.now }
{
    for (i, &byte) in bytes.iter().enumerate() {
        if !is_value_byte(byte) {
            return i;
        }
    }
    bytes.len()
}
