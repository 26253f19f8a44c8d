//! `Builder`: what the lines of a configuration so far state.
ghost use Rattle.std.specs.Prelude.{◌≡◌, ◌≤◌, ◌+◌, ◌++◌, ◌∷◌, [], true, false, is_some, length, nat_le, Some, None, IfOk, IfErr, OnOk, OnErr};
ghost use Rattle.std.specs.Option.{unwrap_or};
ghost use Rattle.sq_rules.specs.Building.{place_of};
ghost use Rattle.sq_rules.specs.Changes.{all_patterns};
ghost use Rattle.sq_rules.specs.Configurations.{nesting_of, nestings};
ghost use Rattle.sq_rules.specs.Drafts.{are_complete, begun, finished, first_acls, first_classes, leaf_of, predefined_ones, rewriter_class, rewriter_of, with_first, with_firsts};
ghost use Rattle.sq_rules.specs.Limits.{initial_limit, most_acls, nesting_limit, text_limit};
ghost use Rattle.sq_rules.specs.Lookups.{begins_literal, is_dst, literal_acl, literal_name, lookup_name, named_name};

use crate::draft_faults::FinishFault;
use crate::pools::{StatedPool, complete_pools};
use sq_base::{Listed, Text, Texts, WantOfMemory};
use sq_rules::{
    AclPart, AclTable, Body, BodyPart, Class, ClassTable, Config, ConfigFields, HeaderRules, Leaf,
    LookupSizes, Notice, Notices, Rules, literal_leaf, lookup_class, predefined_acls,
};
use std::alloc::Global;
use std::marker::Model;
use std::mem;

mod acls;
mod classes;
mod heading;
mod looking;
mod pooling;
mod rewriting;
mod rules;

/// What the lines so far state. A contract sees it as the definition of a configuration does.
#[derive(Drop)]
pub struct Builder {
    dst_lookup: bool,
    classes: ClassTable,
    acls: AclTable,
    rules: Rules,
    counted: bool,
    pools: Vec<StatedPool>,
    initial: u8,
    port: Option<u16>,
    program: Option<Texts>,
    children: Option<Class>,
    headers: HeaderRules,
    notices: Notices,
}

impl Model for Builder {
    ghost use Rattle.sq_conf.specs.Sound.{IsSound};
    ghost use Rattle.sq_rules.specs.Drafts.{Drafts};

    ghost Value = { Drafts };

    ghost view = { λ b. record {
      dst_lookup = b.dst_lookup;
      classes = b.classes;
      acls = b.acls;
      rules = b.rules;
      counted = b.counted;
      pools = b.pools.items;
      initial = b.initial;
      port = b.port;
      program = b.program;
      children = b.children;
      headers = b.headers;
      notices = b.notices;
    } };

    ghost invariant = { λ b. IsSound
        (record {
          dst_lookup = b.dst_lookup;
          classes = b.classes;
          acls = b.acls;
          rules = b.rules;
          counted = b.counted;
          pools = b.pools.items;
          initial = b.initial;
          port = b.port;
          program = b.program;
          children = b.children;
          headers = b.headers;
          notices = b.notices;
        }) };
}

// The body of a predefined acl, which is a leaf.
fn leaf_body(alloc: Global, part: BodyPart) -> Body
    ensures { result ≡ leaf_of part }
{
    match part {
        BodyPart::Leaf(leaf) => Body::Leaf(leaf),
        _ => Body::AnyOf(Listed::new(alloc)),
    }
}

// The acls that stand before the first line, where no names are looked up.
fn plain_acls(alloc: Global) -> Result<AclTable, WantOfMemory>
    ensures { IfOk result (λ acls. acls ≡ predefined_ones) }
{
    let mut acls = AclTable::new(alloc);
    for part in predefined_acls(alloc)?.into_vec() {
        let AclPart { name, body } = part;
        acls.push(alloc, name, leaf_body(alloc, body))?;
    }
    Ok(acls)
}

// An acl behind others; of type dst it is four.
fn with_first(
    alloc: Global,
    acls: AclTable,
    name: Text,
    body: Body,
) -> Result<AclTable, WantOfMemory>
    requires few { length acls + 4 ≤ most_acls }
    requires first { begins_literal acls ≡ true }
    requires shallow { nat_le (nesting_of (nestings acls) body) nesting_limit ≡ true }
    requires free { place_of acls name ≡ None }
    requires literal { is_dst body ≡ true → place_of acls (literal_name name) ≡ None }
    requires lookup { is_dst body ≡ true → place_of acls (lookup_name name) ≡ None }
    requires named { is_dst body ≡ true → place_of acls (named_name name) ≡ None }
    ensures { IfOk result (λ t. t ≡ with_first body name acls) }
{
    let mut acls = acls;
    let mut body = body;
    if let Body::Leaf(Leaf::Dst(values)) = &mut body {
        let values = mem::replace(values, Listed::new(alloc));
        acls.push_lookup(alloc, name, values)?;
        return Ok(acls);
    }
    acls.push(alloc, name, body)?;
    Ok(acls)
}

// `dst literal` alone.
fn literal_first(alloc: Global) -> Result<AclTable, WantOfMemory>
    ensures { IfOk result (λ acls. acls ≡ literal_acl ∷ []) }
{
    let mut acls = AclTable::new(alloc);
    let name = Text::from_slice(alloc, b"dst literal")?;
    acls.push(alloc, name, literal_leaf(alloc)?)?;
    Ok(acls)
}

// The acls that stand before the lines, where names are looked up.
fn looked_up_acls(alloc: Global) -> Result<AclTable, WantOfMemory>
    ensures { IfOk result (λ acls. acls ≡ with_firsts (literal_acl ∷ []) predefined_ones) }
{
    let mut acls = literal_first(alloc)?;
    for part in predefined_acls(alloc)?.into_vec() {
        let AclPart { name, body } = part;
        acls = with_first(alloc, acls, name, leaf_body(alloc, body))?;
    }
    Ok(acls)
}

fn first_acls(alloc: Global, lookup: bool) -> Result<AclTable, WantOfMemory>
    ensures { IfOk result (λ acls. acls ≡ first_acls lookup) }
{
    if lookup {
        looked_up_acls(alloc)
    } else {
        plain_acls(alloc)
    }
}

// The class that stands before the lines, where names are looked up.
fn first_classes(alloc: Global, sizes: Option<LookupSizes>) -> Result<ClassTable, WantOfMemory>
    ensures { IfOk result (λ classes. classes ≡ first_classes sizes) }
{
    let mut classes = ClassTable::new(alloc);
    if let Some(sizes) = sizes {
        classes.push(alloc, lookup_class(alloc, sizes)?)?;
    }
    Ok(classes)
}

// The class of the program that rewrites, where nothing is stated of it.
fn rewriter_class(alloc: Global) -> Result<Class, WantOfMemory>
    ensures { IfOk result (λ c. c ≡ rewriter_class) }
{
    Ok(Class {
        name: Text::from_slice(alloc, b"url rewrite")?,
        ttl: 3600,
        negative_ttl: 3600,
        grace: 0,
        cache: 262_144,
        children_max: 20,
        startup: 0,
        concurrency: 0,
        queue_size: 40,
        format: Listed::new(alloc),
        words: Listed::new(alloc),
    })
}

fn class_or_default(alloc: Global, children: Option<Class>) -> Result<Class, WantOfMemory>
    ensures { IfOk result (λ c. c ≡ unwrap_or children rewriter_class) }
{
    match children {
        Some(class) => Ok(class),
        None => rewriter_class(alloc),
    }
}

// The class of the program that rewrites, where there is a program.
fn rewriter_of(
    alloc: Global,
    program: Option<Texts>,
    children: Option<Class>,
) -> Result<Option<Class>, WantOfMemory>
    ensures { IfOk result (λ c. c ≡ rewriter_of program children) }
{
    match program {
        None => Ok(None),
        Some(words) => {
            let class = class_or_default(alloc, children)?;
            Ok(Some(Class { words, ..class }))
        }
    }
}

impl Builder {
    /// What stands before the lines, where the names of hosts are looked up or not.
    #[tactic(auto, unfolding(sq_rules::specs::Drafts::begun))]
    pub fn new(alloc: Global, sizes: Option<LookupSizes>) -> Result<Builder, WantOfMemory>
        ensures { IfOk result (λ b. b ≡ begun sizes) }
    {
        let lookup = sizes.is_some();
        let acls = first_acls(alloc, lookup)?;
        let classes = first_classes(alloc, sizes)?;
        Ok(Builder {
            dst_lookup: lookup,
            classes,
            acls,
            rules: Listed::new(alloc),
            counted: false,
            pools: Vec::new(alloc),
            initial: 50,
            port: None,
            program: None,
            children: None,
            headers: Listed::new(alloc),
            notices: Listed::new(alloc),
        })
    }

    /// Sets the percentage of its limit at which a bucket opens.
    pub fn set_initial(&mut self, level: u8)
        requires { level ≤ initial_limit }
        ensures { self.new ≡ record self.old { initial = level } }
    {
        self.initial = level;
    }

    /// Whether a port is stated.
    pub fn has_port(&self) -> bool
        ensures { result ≡ is_some self.now.port }
    {
        self.port.is_some()
    }

    /// Sets the port; only the first counts.
    pub fn set_port(&mut self, port: u16)
        requires first { self.old.port ≡ None }
        ensures { self.new ≡ record self.old { port = Some port } }
    {
        self.port = Some(port);
    }

    /// Notes a line that has no effect.
    pub fn push_notice(&mut self, notice: Notice) -> Result<(), WantOfMemory>
        ensures ok { OnOk result
            (self.new ≡ record self.old { notices = self.old.notices ++ notice ∷ [] }) }
        ensures err { OnErr result (self.new ≡ self.old) }
    {
        self.notices.push(notice)
    }

    /// The configuration that a file with these bytes states.
    #[tactic(auto, unfolding(sq_rules::specs::Drafts::finished))]
    pub fn finish(self, alloc: Global, source: Text) -> Result<Config, FinishFault>
        requires { length source ≤ text_limit }
        ensures ok { IfOk result (λ c. c ≡ finished source self) }
        ensures complete { IfOk result (λ _. are_complete self.pools ≡ true) }
        ensures patterns { IfOk result (λ c. all_patterns c.acls ≡ true) }
        ensures incomplete { IfErr result
            (λ e. e ≡ FinishFault.Incomplete → are_complete self.pools ≡ false) }
    {
        let pools = complete_pools(alloc, self.pools)?;
        let rewriter = rewriter_of(alloc, self.program, self.children)?;
        let port = self.port.unwrap_or(3128);
        Ok(Config::of_fields(ConfigFields {
            source,
            dst_lookup: self.dst_lookup,
            classes: self.classes.into_classes(),
            acls: self.acls.into_acls(),
            rules: self.rules,
            pools,
            initial: self.initial,
            port,
            rewriter,
            headers: self.headers,
            notices: self.notices,
        }))
    }
}
