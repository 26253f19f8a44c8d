//! The configuration: classes of helpers, acls, rules and delay pools, with every named place there.
ghost use Rattle.std.specs.Prelude.{◌≡◌, ◌≢◌, ◌≤◌, length, Ok, Err, IfOk, IfErr};
ghost use Rattle.std.specs.Option.{option_map};
ghost use Rattle.sq_rules.specs.Building.{built, AreWithin};
ghost use Rattle.sq_rules.specs.Configurations.{IsConfiguration};
ghost use Rattle.sq_rules.specs.Limits.{header_limit, initial_limit, most_acls, most_classes, pool_limit, rule_limit, text_limit};

use crate::building::{rule_lists_of, tables_of};
use crate::classes::{Class, Classes};
use crate::headers::{HeaderRule, HeaderRules};
use crate::leaves::Leaf;
use crate::notices::{Notice, Notices};
use crate::parts::{BuildFault, Parts};
use crate::pools::{Pool, PoolList};
use sq_base::{Listed, Text, Texts};
use std::alloc::Global;
use std::marker::Model;

/// What an acl is.
pub enum Body {
    /// A list of values, which a request and its client meet or not.
    Leaf(Leaf),
    /// A question to a helper of this class, by its place from 0, with these arguments.
    External { class: u32, arguments: Texts },
    /// A group of which some member has to hold.
    AnyOf(Terms),
    /// A group of which all members of some line have to hold.
    AllOf(Lines),
}

impl Drop for Body {
    fn drop(self) {
        match self {
            Body::Leaf(_) => {}
            Body::External {
                class: _,
                arguments: _,
            } => {}
            Body::AnyOf(_) => {}
            Body::AllOf(_) => {}
        }
    }
}

/// An acl: a name, and what it holds of.
pub struct Acl {
    pub name: Text,
    pub body: Body,
}

impl Drop for Acl {
    fn drop(self) {
        let Acl { name: _, body: _ } = self;
    }
}

/// A list of acls.
pub type Acls = Listed<Acl>;

/// A term of a rule or a group: an acl by its place, from 0, and whether `!` stands before it.
#[derive(Clone, Copy, PartialEq, Eq)]
pub struct Term {
    pub acl: u32,
    pub negated: bool,
}

/// A list of terms.
pub type Terms = Listed<Term>;

/// The lines of `all-of`, each with its terms.
pub type Lines = Listed<Terms>;

/// A rule: its action, and the terms that all have to hold.
pub struct Rule {
    pub allow: bool,
    pub terms: Terms,
}

impl Drop for Rule {
    fn drop(self) {
        let Rule { allow: _, terms: _ } = self;
    }
}

/// A list of rules.
pub type Rules = Listed<Rule>;

/// A configuration. Names are unique, each named place is there and each member of a group stands
/// before it, groups nest 32 deep at the most, and rules of pools and for fields reach no external acl. Where names of
/// hosts are looked up, each acl of type `dst` stands with its look-up.
pub struct Config {
    source: Text,
    dst_lookup: bool,
    classes: Classes,
    acls: Acls,
    rules: Rules,
    pools: PoolList,
    initial: u8,
    port: u16,
    rewriter: Option<Class>,
    headers: HeaderRules,
    notices: Notices,
}

// Written out, so that the drops of its parts are proved here alone, and not in each crate that lets a configuration go.
impl Drop for Config {
    fn drop(self) {
        let Config {
            source: _,
            dst_lookup: _,
            classes: _,
            acls: _,
            rules: _,
            pools: _,
            initial: _,
            port: _,
            rewriter: _,
            headers: _,
            notices: _,
        } = self;
    }
}

impl Model for Config {
    ghost use Rattle.sq_rules.specs.Configurations.{Configuration, IsConfiguration};

    ghost Value = { Configuration };

    ghost view = { λ c. record {
      source = c.source;
      dst_lookup = c.dst_lookup;
      classes = c.classes;
      acls = c.acls;
      rules = c.rules;
      pools = c.pools;
      initial = c.initial;
      port = c.port;
      rewriter = c.rewriter;
      headers = c.headers;
      notices = c.notices;
    } };

    ghost invariant = { λ c. IsConfiguration
        (record {
          source = c.source;
          dst_lookup = c.dst_lookup;
          classes = c.classes;
          acls = c.acls;
          rules = c.rules;
          pools = c.pools;
          initial = c.initial;
          port = c.port;
          rewriter = c.rewriter;
          headers = c.headers;
          notices = c.notices;
        }) };
}

/// The fields of a configuration, before they are known to be one.
pub struct ConfigFields {
    pub source: Text,
    pub dst_lookup: bool,
    pub classes: Classes,
    pub acls: Acls,
    pub rules: Rules,
    pub pools: PoolList,
    pub initial: u8,
    pub port: u16,
    pub rewriter: Option<Class>,
    pub headers: HeaderRules,
    pub notices: Notices,
}

impl Model for ConfigFields {
    ghost use Rattle.sq_rules.specs.Configurations.{Configuration};

    ghost Value = { Configuration };

    ghost view = { λ c. record {
      source = c.source;
      dst_lookup = c.dst_lookup;
      classes = c.classes;
      acls = c.acls;
      rules = c.rules;
      pools = c.pools;
      initial = c.initial;
      port = c.port;
      rewriter = c.rewriter;
      headers = c.headers;
      notices = c.notices;
    } };
}

impl Config {
    /// The configuration of these fields, where they are one.
    pub fn of_fields(fields: ConfigFields) -> Config
        requires { IsConfiguration fields }
        ensures { result ≡ fields }
    {
        let ConfigFields {
            source,
            dst_lookup,
            classes,
            acls,
            rules,
            pools,
            initial,
            port,
            rewriter,
            headers,
            notices,
        } = fields;
        Config {
            source,
            dst_lookup,
            classes,
            acls,
            rules,
            pools,
            initial,
            port,
            rewriter,
            headers,
            notices,
        }
    }

    /// The configuration that the parts state, or their first fault in the order of the parts; last comes
    /// want of memory. It asks that the numbers and lengths of the parts are within their limits.
    #[tactic(auto, unfolding(crate::specs::Building::built))]
    pub fn build(alloc: Global, parts: Parts) -> Result<Config, BuildFault>
        requires { AreWithin parts }
        ensures ok { IfOk result (λ c. built parts ≡ Ok c) }
        ensures err { IfErr result (λ e. e ≢ BuildFault.WantOfMemory → built parts ≡ Err e) }
    {
        let tables = tables_of(alloc, parts.dst_lookup, parts.classes, parts.acls)?;
        let lists = rule_lists_of(alloc, &tables.acls, parts.rules, parts.pools, parts.headers)?;
        Ok(Config {
            source: parts.source,
            dst_lookup: parts.dst_lookup,
            classes: tables.classes.into_classes(),
            acls: tables.acls.into_acls(),
            rules: lists.rules,
            pools: lists.pools,
            initial: parts.initial,
            port: parts.port,
            rewriter: parts.rewriter,
            headers: lists.headers,
            notices: parts.notices,
        })
    }

    /// The bytes of the file that states it.
    pub fn source(&self) -> &Text
        ensures value { result.now ≡ self.now.source }
        ensures short { length result.now ≤ text_limit }
    {
        &self.source
    }

    /// Whether the names of hosts are looked up for acls of type `dst`.
    pub fn dst_lookup(&self) -> bool
        ensures { result ≡ self.now.dst_lookup }
    {
        self.dst_lookup
    }

    /// The classes of helpers, in the order of the file; where names are looked up, that of the look-ups is the first.
    pub fn classes(&self) -> &[Class]
        ensures classes { result.now ≡ self.now.classes }
        ensures few { length result.now ≤ most_classes }
    {
        self.classes.as_slice()
    }

    /// The acls, in the order of their first lines; those that are made for one stand before it.
    pub fn acls(&self) -> &[Acl]
        ensures acls { result.now ≡ self.now.acls }
        ensures few { length result.now ≤ most_acls }
    {
        self.acls.as_slice()
    }

    /// The rules, in the order of the file.
    pub fn rules(&self) -> &[Rule]
        ensures rules { result.now ≡ self.now.rules }
        ensures few { length result.now ≤ rule_limit }
    {
        self.rules.as_slice()
    }

    /// The delay pools, in the order of their numbers.
    pub fn pools(&self) -> &[Pool]
        ensures pools { result.now ≡ self.now.pools }
        ensures few { length result.now ≤ pool_limit }
    {
        self.pools.as_slice()
    }

    /// The percentage of its limit at which a bucket opens.
    pub fn initial(&self) -> u8
        ensures value { result ≡ self.now.initial }
        ensures bound { result ≤ initial_limit }
    {
        self.initial
    }

    /// The port at which the server listens.
    pub fn port(&self) -> u16
        ensures { result ≡ self.now.port }
    {
        self.port
    }

    /// The class of the program that rewrites targets, where there is one.
    pub fn rewriter(&self) -> Option<&Class>
        ensures { option_map (λ c. c.now) result ≡ self.now.rewriter }
    {
        self.rewriter.as_ref()
    }

    /// The rules that say which fields are passed on, in the order of the file.
    pub fn headers(&self) -> &[HeaderRule]
        ensures headers { result.now ≡ self.now.headers }
        ensures few { length result.now ≤ header_limit }
    {
        self.headers.as_slice()
    }

    /// The lines that were read without effect.
    pub fn notices(&self) -> &[Notice]
        ensures { result.now ≡ self.now.notices }
    {
        self.notices.as_slice()
    }

    /// What holds of it: it changes nothing, and its contract says it to a proof.
    pub fn facts(&self)
        ensures { IsConfiguration self.now }
    {
        let _initial = self.initial;
    }
}
