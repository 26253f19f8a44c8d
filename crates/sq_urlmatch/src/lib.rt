//! What is made of a configuration once, and kept with it: the patterns of `url_regex` acls, compiled, and
//! the lists of addresses, sorted, and of domains, hashed; and the facts of a check, which are read over these.
//!
//! `Setup::make` takes a configuration and answers it with these, or names the first pattern that the
//! grammar does not read; `is_pattern` tests one. `Setup::is_match` and
//! `Patterns::is_match` say whether some pattern of an acl is found in a text. A pattern means what the
//! crate regex reads in it.
//!
//! Nothing is compiled again for a match. The patterns of an acl are one program, or one each where that
//! would be too large. A program keeps the rows of its DFA: a text takes memory for the rows that it is
//! the first to need, within a bound, and the next text finds them. Where rows don't pay, or have no
//! memory, a text is searched anew, which takes memory for a searcher.
//!
//! `read_facts` says of each leaf acl of a configuration whether it holds of what the check sees, once when the check
//! begins. The patterns of url_regex are looked for in the target as it was sent, percent-decoded once.
//!
//! Where the values of a type are few, as of maxconn, method, proto and time, one function says whether some value of the
//! list meets the type's rule, as the definition `holds` has it: it takes no memory, and reads each value once. Lists of
//! addresses, domains and ports are looked up in what a setup keeps sorted or hashed, and patterns in what it keeps
//! compiled.
//!
//! Of the lists, `AddrSet::make` takes ranges of addresses, `Spans::make` spans of numbers, and `DomainSet::make` domains;
//! `has` of each says whether some value of that list holds an address, a number or a host, as a walk over the list would.
//! `has` takes no memory. Addresses and numbers are sorted, and `has` is one binary search. Domains stand by the places of
//! their hashes, about as many places as domains: `has` goes over the host once and looks at one place for each of its
//! labels. The hash depends on the list's names alone, so no choice of hosts makes a look-up longer than the fullest
//! place; a list that was written to have all its names at one place is walked. How fast it is, no contract says.
#![tactic(auto)]

mod addresses;
mod clients;
mod compiled;
mod crossing;
mod domains;
mod leaves;
mod matcher;
mod names;
mod patterns;
mod programs;
mod reading;
mod requests;
mod sets;
mod setup;
mod spans;
mod subject;
mod trees;

pub use addresses::AddrSet;
pub use domains::DomainSet;
pub use patterns::Patterns;
pub use reading::read_facts;
pub use setup::{Setup, SetupFault};
pub use spans::{Span, Spans};
pub use trees::is_pattern;
