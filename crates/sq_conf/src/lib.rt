//! The reader of configurations: a text of squid.conf as a `Setup`, or its first fault.
//!
//! `read_config` takes the lines in their order, and in each its words from the left: each is tried
//! first for its form, and then for what it names. The patterns are
//! compiled at the end. It promises that the answer is exactly the one that the definition gives
//! (`conf_gives`, `conf_refuses` of `sq_rules`), unless memory runs out.
//!
//! What the lines state so far is kept by a `Builder`: classes, acls, rules, delay pools and the rest, with maps of names, so
//! that a line mostly costs about what it is long. A member by which its group comes to nest deeper, or to reach a helper,
//! costs a walk over acls and rules of pools besides: a text that does so at each of its lines takes quadratic time. Its
//! calls are the changes of a configuration's definition, and answer the tests that the definition makes.
//! `Builder::finish` gives the configuration, and refuses only a pool that lacks its class or its parameters.
//!
//! Below it are the lines of squid.conf and their words. `lex` gives the lines before the first faulty one, and its fault;
//! `words` gives all lines, or that fault as its error. A line has the number of its first part. Both take time and memory
//! in proportion to the text.
#![tactic(auto)]

mod acl_lines;
mod builder;
mod class_drafts;
mod class_lines;
mod class_options;
mod config_words;
mod cuts;
mod directives;
mod draft_faults;
mod faults;
mod finds;
mod groups;
mod header_lines;
mod joining;
mod leaf_values;
mod lex_faults;
mod lexing;
mod lookup_lines;
mod numbers;
mod pairs;
mod pool_lines;
mod pools;
mod port_lines;
mod reading;
mod rewrite_lines;
mod splitting;
mod terms;
mod times;
mod tokens;
mod wording;

pub use builder::Builder;
pub use draft_faults::FinishFault;
pub use faults::ConfFault;
pub use lex_faults::LexFault;
pub use lexing::{lex, words};
pub use reading::read_config;
