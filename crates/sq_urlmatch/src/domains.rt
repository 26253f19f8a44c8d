//! Sets of domains.
ghost use Rattle.std.specs.Prelude.{◌≡◌, ◌<◌, ℕ, List, true, IfOk};
ghost use Rattle.std.specs.List.Sorted.{IsNonDecreasingBy};
ghost use Rattle.sq_urlmatch.specs.Members.{in_some_domain};
ghost use Rattle.sq_urlmatch.specs.Names.{has_host, hash_of, is_at, place_of, some_named, AreHashed, AreStarts, IsTable};

use crate::names::{Name, mixed, place_of};
use sq_base::{Text, Texts, WantOfMemory};
use std::alloc::Global;
use std::marker::Model;

/// The names of a list of domains, by the places of their hashes: `starts` has for each place where
/// its names begin, and there are about as many places as names. Contracts ask `has_host` of it.
#[derive(Drop)]
pub struct DomainSet {
    names: Vec<Name>,
    starts: Vec<usize>,
    shift: u32,
}

impl Model for DomainSet {
    ghost use Rattle.std.specs.Prelude.{List};
    ghost use Rattle.sq_urlmatch.specs.Names.{IsTable};
    ghost use Rattle.sq_urlmatch.specs.declared.names.Name.{Name};

    ghost Value = { List Name };

    ghost view = { λ s. s.names.items };

    ghost invariant = { λ s. IsTable s.names.items s.shift s.starts.items };
}

impl DomainSet {
    /// The hosts of these domains: case does not count in a domain, and one that begins with `.` has
    /// the hosts below it too.
    pub fn make(alloc: Global, values: &Texts) -> Result<DomainSet, WantOfMemory>
        ensures { IfOk result
            (λ s. (host : List ℕ) → has_host s host ≡ in_some_domain values.now host) }
    {
        let names = names_of(alloc, values.as_slice())?;
        let names = apart(alloc, sorted(names, 0)?)?;
        let shift = (names.len() as u64).leading_zeros().min(63);
        let names = sorted(names, shift)?;
        let starts = starts_of(alloc, names.as_slice(), shift)?;
        Ok(DomainSet {
            names,
            starts,
            shift,
        })
    }

    /// Whether it has the host, which is in lower case as a request's host is. It takes no memory.
    pub fn has(&self, host: &Text) -> bool
        ensures { result ≡ has_host self.now host.now }
    {
        finds(
            self.names.as_slice(),
            self.shift,
            self.starts.as_slice(),
            host.as_bytes(),
        )
    }
}

// The name of each domain.
fn names_of(alloc: Global, domains: &[Text]) -> Result<Vec<Name>, WantOfMemory>
    ensures same { IfOk result
        (λ names. (host : List ℕ) → has_host names.items host ≡ in_some_domain domains.now host) }
    ensures hashed { IfOk result (λ names. AreHashed names.items) }
{
    let mut names = Vec::with_capacity(alloc, domains.len())?;
    for domain in domains {
        names.push(Name::of(alloc, domain.as_bytes())?)?;
    }
    Ok(names)
}

// The names without those that the one before covers, as one covers itself: a list that is merged of
// several has many names again and again, and all of one hash would be compared.
fn apart(alloc: Global, mut names: Vec<Name>) -> Result<Vec<Name>, WantOfMemory>
    requires hashed { AreHashed names.items }
    ensures same { IfOk result
        (λ n. (host : List ℕ) → has_host n.items host ≡ has_host names.items host) }
    ensures hashed { IfOk result (λ n. AreHashed n.items) }
{
    let mut kept = Vec::with_capacity(alloc, names.len())?;
    while let Some(name) = names.pop() {
        if !is_covered(kept.as_slice(), &name) {
            kept.push(name)?;
        }
    }
    Ok(kept)
}

// Whether the last of these names stands for all that this one stands for.
fn is_covered(kept: &[Name], name: &Name) -> bool
    ensures { result ≡ true → (host : List ℕ) → is_at name.now host ≡ true
        → has_host kept.now host ≡ true }
{
    let count = kept.len();
    count > 0 && kept[count - 1].covers(name)
}

// The names by their places.
fn sorted(mut names: Vec<Name>, shift: u32) -> Result<Vec<Name>, WantOfMemory>
    requires fits { shift < 64 }
    requires hashed { AreHashed names.items }
    ensures same { IfOk result
        (λ n. (host : List ℕ) → has_host n.items host ≡ has_host names.items host) }
    ensures hashed { IfOk result (λ n. AreHashed n.items) }
    ensures rising { IfOk result (λ n. IsNonDecreasingBy (λ x. place_of x.hash shift) n.items) }
{
    names.sort_by_key(|name| place_of(name.hash, shift))?;
    Ok(names)
}

// Where the names of each place begin, and an end.
fn starts_of(alloc: Global, names: &[Name], shift: u32) -> Result<Vec<usize>, WantOfMemory>
    requires fits { shift < 64 }
    requires rising { IsNonDecreasingBy (λ x. place_of x.hash shift) names.now }
    ensures { IfOk result (λ s. AreStarts names.now shift s.items) }
{
    let ends = place_of(u64::MAX, shift).saturating_add(2);
    let mut starts = Vec::with_capacity(alloc, ends)?;
    for place in 0..ends {
        starts.push(names.partition_point(|name| place_of(name.hash, shift) < place))?;
    }
    Ok(starts)
}

// Whether some name stands for the host: each name that may do so is asked for by its hash, from
// the shortest to the host itself.
fn finds(names: &[Name], shift: u32, starts: &[usize], host: &[u8]) -> bool
    requires { IsTable names.now shift starts.now }
    ensures { result ≡ has_host names.now host.now }
{
    let mut hash = 0;
    for k in 0..host.len() {
        let at = host.len() - 1 - k;
        let byte = host[at];
        if byte == b'.' && is_there(names, shift, starts, hash, &host[at + 1..], false) {
            return true;
        }
        hash = mixed(hash, byte);
    }
    is_there(names, shift, starts, hash, host, true)
}

// Whether some name is this one.
fn is_there(
    names: &[Name],
    shift: u32,
    starts: &[usize],
    hash: u64,
    bytes: &[u8],
    whole: bool,
) -> bool
    requires table { IsTable names.now shift starts.now }
    requires asked { hash ≡ hash_of bytes.now }
    ensures { result ≡ some_named names.now bytes.now whole }
{
    let place = place_of(hash, shift);
    if place < starts.len() && place + 1 < starts.len() {
        let first = starts[place];
        let past = starts[place + 1];
        if first <= past && past <= names.len() {
            return is_among(&names[first..past], hash, bytes, whole);
        }
    }
    is_among(names, hash, bytes, whole)
}

// Whether one of these names is this one.
fn is_among(names: &[Name], hash: u64, bytes: &[u8], whole: bool) -> bool
    requires hashed { AreHashed names.now }
    requires asked { hash ≡ hash_of bytes.now }
    ensures { result ≡ some_named names.now bytes.now whole }
{
    for name in names {
        if name.is(hash, bytes, whole) {
            return true;
        }
    }
    false
}
