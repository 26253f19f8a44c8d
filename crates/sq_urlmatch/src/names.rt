//! Names of hosts, with hashes of their bytes.
ghost use Rattle.std.specs.Prelude.{◌≡◌, ◌∷◌, ◌&&◌, ◌||◌, ◌<◌, ℕ, List, nat_eq, bytes_eq, not, IfOk};
ghost use Rattle.std.specs.Char.{to_ascii_lowercase};
ghost use Rattle.std.specs.List.{ends_with};
ghost use Rattle.std.specs.Str.{str_to_ascii_lowercase};
ghost use Rattle.sq_base.specs.Bytes.{dot};
ghost use Rattle.sq_base.specs.Domains.{in_domain};
ghost use Rattle.sq_urlmatch.specs.Names.{hash_of, is_at, is_named, mixed, place_of};

use sq_base::{Text, WantOfMemory};
use std::alloc::Global;

/// A name in lower case with its hash; a wide one stands for all names below it too.
#[derive(Drop)]
pub struct Name {
    pub name: Text,
    pub wide: bool,
    pub hash: u64,
}

impl Name {
    /// The name of a domain, which is wide where the domain begins with `.`.
    pub fn of(alloc: Global, domain: &[u8]) -> Result<Name, WantOfMemory>
        ensures stands { IfOk result
            (λ n. (host : List ℕ) → is_at n host
            ≡ in_domain host (str_to_ascii_lowercase domain.now)) }
        ensures hash { IfOk result (λ n. n.hash ≡ hash_of n.name) }
    {
        match domain {
            [b'.', name @ ..] => wide_name(alloc, name),
            _ => exact_name(alloc, domain),
        }
    }

    /// Whether it is this one, whose hash is given; one that is not wide counts for a whole host
    /// alone.
    pub fn is(&self, hash: u64, bytes: &[u8], whole: bool) -> bool
        requires own { self.now.hash ≡ hash_of self.now.name }
        requires asked { hash ≡ hash_of bytes.now }
        ensures { result ≡ is_named bytes.now whole self.now }
    {
        self.hash == hash && self.name.as_bytes() == bytes && (whole || self.wide)
    }

    /// Whether it stands for all that another does, as it is the same name and wide where that is.
    pub fn covers(&self, other: &Name) -> bool
        ensures { result ≡ (bytes_eq self.now.name other.now.name
            && (self.now.wide || not other.now.wide)) }
    {
        self.name.as_bytes() == other.name.as_bytes() && (self.wide || !other.wide)
    }
}

// The name of a domain that stands for itself alone.
fn exact_name(alloc: Global, name: &[u8]) -> Result<Name, WantOfMemory>
    ensures stands { IfOk result
        (λ n. (host : List ℕ) → is_at n host ≡ bytes_eq (str_to_ascii_lowercase name.now) host) }
    ensures hash { IfOk result (λ n. n.hash ≡ hash_of n.name) }
{
    let name = lower(alloc, name)?;
    let hash = hash_of(name.as_bytes());
    Ok(Name {
        name,
        wide: false,
        hash,
    })
}

// The name of a domain that stands for all names below it too.
fn wide_name(alloc: Global, name: &[u8]) -> Result<Name, WantOfMemory>
    ensures stands { IfOk result
        (λ n. (host : List ℕ) → is_at n host
        ≡ (bytes_eq (str_to_ascii_lowercase name.now) host
        || ends_with nat_eq host (dot ∷ str_to_ascii_lowercase name.now))) }
    ensures hash { IfOk result (λ n. n.hash ≡ hash_of n.name) }
{
    let name = lower(alloc, name)?;
    let hash = hash_of(name.as_bytes());
    Ok(Name {
        name,
        wide: true,
        hash,
    })
}

// The text in lower case.
fn lower(alloc: Global, name: &[u8]) -> Result<Text, WantOfMemory>
    ensures { IfOk result (λ t. t ≡ str_to_ascii_lowercase name.now) }
{
    let bytes = name
        .iter()
        .map(|byte| byte.to_ascii_lowercase())
        .collect(alloc)?;
    Ok(Text::from_vec(bytes))
}

// The hash of a text.
fn hash_of(bytes: &[u8]) -> u64
    ensures { result ≡ hash_of bytes.now }
{
    let mut hash = 0;
    for k in 0..bytes.len() {
        hash = mixed(hash, bytes[bytes.len() - 1 - k]);
    }
    hash
}

/// The hash of a text with one byte more before it. The factor is an odd number without a pattern.
pub fn mixed(hash: u64, byte: u8) -> u64
    ensures { result ≡ mixed hash byte }
{
    hash.wrapping_add(byte as u64)
        .wrapping_mul(2_685_821_657_736_338_717)
}

/// The place of a hash: its first bits.
pub fn place_of(hash: u64, shift: u32) -> usize
    requires { shift < 64 }
    ensures { result ≡ place_of hash shift }
{
    (hash >> shift) as usize
}
