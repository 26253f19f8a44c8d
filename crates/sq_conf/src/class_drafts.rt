//! `ClassDraft`: a class of helpers as far as its line states it.
ghost use Rattle.std.specs.Prelude.{◌≡◌, ◌≤◌, true, not, length, IfOk};
ghost use Rattle.sq_conf.specs.ClassDrafts.{children_of};
ghost use Rattle.sq_conf.specs.Forms.{Gives, Makes};
ghost use Rattle.sq_rules.specs.ClassLines.{class_of, class_step, default_class, option_step, token_step, up_to, with_option};
ghost use Rattle.sq_rules.specs.Limits.{children_limit, name_limit};
ghost use Rattle.sq_rules.specs.RewriteLines.{children_step, most_children};
ghost use Rattle.sq_rules.specs.Steps.{is_empty, over};

use crate::class_options::{children_option, is_option, option_of};
use crate::config_words::begins;
use crate::cuts::behind;
use crate::faults::ReadFault;
use crate::numbers::number_in;
use crate::tokens::token_of;
use sq_base::{Copying, Listed, Text, Texts, WantOfMemory};
use sq_rules::{
    CACHE_LIMIT, CHILDREN_LIMIT, Class, ClassOption, GRACE_LIMIT, Kind, QUEUE_LIMIT, SECONDS_LIMIT,
    TOKEN_LIMIT, Token, Tokens, with_arguments,
};
use std::alloc::Global;
use std::marker::Model;

/// What the words of a line so far state; `noted` is true where an option has no effect.
#[derive(Drop)]
pub struct ClassDraft {
    ttl: u32,
    negative_ttl: Option<u32>,
    grace: u32,
    cache: u32,
    children_max: u32,
    startup: u32,
    concurrency: u32,
    queue_size: Option<u32>,
    noted: bool,
    format: Tokens,
    words: Texts,
}

impl Model for ClassDraft {
    ghost use Rattle.sq_conf.specs.ClassDrafts.{IsClassDraft};
    ghost use Rattle.sq_rules.specs.ClassLines.{ClassDraft};

    ghost Value = { ClassDraft };

    ghost view = { λ c. record {
      ttl = c.ttl;
      negative_ttl = c.negative_ttl;
      grace = c.grace;
      cache = c.cache;
      children_max = c.children_max;
      startup = c.startup;
      concurrency = c.concurrency;
      queue_size = c.queue_size;
      noted = c.noted;
      format = c.format;
      words = c.words;
    } };

    ghost invariant = { λ c. IsClassDraft
        (record {
          ttl = c.ttl;
          negative_ttl = c.negative_ttl;
          grace = c.grace;
          cache = c.cache;
          children_max = c.children_max;
          startup = c.startup;
          concurrency = c.concurrency;
          queue_size = c.queue_size;
          noted = c.noted;
          format = c.format;
          words = c.words;
        }) };
}

// A number up to the most.
fn up_to(word: &[u8], most: u32) -> Result<u32, ReadFault>
    ensures read { Gives (λ n. n) result (up_to most word.now) }
    ensures bound { IfOk result (λ n. n ≤ most) }
{
    let number = number_in(word, 0, most as u64)?;
    Ok(number as u32)
}

impl ClassDraft {
    /// The defaults.
    #[tactic(auto, unfolding(sq_rules::specs::ClassLines::default_class))]
    pub fn new(alloc: Global) -> ClassDraft
        ensures { result ≡ default_class }
    {
        ClassDraft {
            ttl: 3600,
            negative_ttl: None,
            grace: 0,
            cache: 262_144,
            children_max: 5,
            startup: 0,
            concurrency: 0,
            queue_size: None,
            noted: false,
            format: Listed::new(alloc),
            words: Listed::new(alloc),
        }
    }

    // The option with its value.
    #[tactic(auto, unfolding(sq_rules::specs::ClassLines::with_option))]
    fn set_option(&mut self, option: ClassOption, value: &[u8]) -> Result<(), ReadFault>
        ensures { Makes result self.new (with_option option value.now self.old) }
    {
        match option {
            ClassOption::Ttl => self.ttl = up_to(value, SECONDS_LIMIT)?,
            ClassOption::NegativeTtl => self.negative_ttl = Some(up_to(value, SECONDS_LIMIT)?),
            ClassOption::Grace => self.grace = up_to(value, GRACE_LIMIT)?,
            ClassOption::Cache => self.cache = up_to(value, CACHE_LIMIT)?,
            ClassOption::ChildrenMax => self.children_max = number_in(
                value,
                1,
                CHILDREN_LIMIT as u64,
            )? as u32,
            ClassOption::ChildrenStartup => self.startup = up_to(value, CHILDREN_LIMIT)?,
            ClassOption::ChildrenIdle => {
                up_to(value, CHILDREN_LIMIT)?;
                self.noted = true;
            }
            ClassOption::Concurrency => self.concurrency = up_to(value, CHILDREN_LIMIT)?,
            ClassOption::QueueSize => self.queue_size = Some(up_to(value, QUEUE_LIMIT)?),
            ClassOption::NoEffect => self.noted = true,
        }
        Ok(())
    }

    // An option and its value.
    #[tactic(auto, unfolding(sq_rules::specs::ClassLines::option_step))]
    fn take_option(&mut self, word: &[u8]) -> Result<(), ReadFault>
        ensures { Makes result self.new (option_step self.old word.now) }
    {
        let option = option_of(word)?;
        self.set_option(option, behind(word, b'='))
    }

    // A token.
    #[tactic(auto, unfolding(sq_rules::specs::ClassLines::token_step))]
    fn take_token(&mut self, alloc: Global, word: &[u8]) -> Result<(), ReadFault>
        ensures { Makes result self.new (token_step self.old word.now) }
    {
        let token = token_of(alloc, word)?;
        if self.format.len() >= TOKEN_LIMIT {
            return Err(ReadFault::Fault(Kind::TooMany));
        }
        self.format.push(token)?;
        Ok(())
    }

    // The next word.
    #[tactic(auto, unfolding(sq_rules::specs::ClassLines::class_step))]
    fn take(&mut self, alloc: Global, word: &Text) -> Result<(), ReadFault>
        ensures { Makes result self.new (class_step self.old word.now) }
    {
        if self.has_helper() {
            self.words.push(word.copy(alloc)?)?;
            return Ok(());
        }
        if begins(word.as_bytes(), b'%') {
            return self.take_token(alloc, word.as_bytes());
        }
        if has_no_token(self.format.as_slice()) && is_option(word.as_bytes()) {
            return self.take_option(word.as_bytes());
        }
        self.words.push(word.copy(alloc)?)?;
        Ok(())
    }

    /// What the words behind the name state.
    pub fn read(alloc: Global, words: &[Text]) -> Result<ClassDraft, ReadFault>
        ensures { Gives (λ c. c) result (over class_step default_class words.now) }
    {
        let mut draft = ClassDraft::new(alloc);
        for word in words {
            draft.take(alloc, word)?;
        }
        Ok(draft)
    }

    // The defaults, with so many processes.
    fn with_most(alloc: Global, max: u32) -> ClassDraft
        requires some { 1 ≤ max }
        requires few { max ≤ children_limit }
        ensures { result ≡ most_children max }
    {
        let mut draft = ClassDraft::new(alloc);
        draft.children_max = max;
        draft
    }

    // An option of `url_rewrite_children` and its value.
    #[tactic(auto, unfolding(sq_rules::specs::RewriteLines::children_step))]
    fn take_children(&mut self, word: &[u8]) -> Result<(), ReadFault>
        ensures { Makes result self.new (children_step self.old word.now) }
    {
        let option = children_option(word)?;
        self.set_option(option, behind(word, b'='))
    }

    /// What the number of processes and the options of `url_rewrite_children` state.
    pub fn read_children(alloc: Global, max: &[u8], words: &[Text]) -> Result<ClassDraft, ReadFault>
        ensures { Gives (λ c. c) result (children_of max.now words.now) }
    {
        let max = number_in(max, 1, CHILDREN_LIMIT as u64)?;
        let mut draft = ClassDraft::with_most(alloc, max as u32);
        for word in words {
            draft.take_children(word.as_bytes())?;
        }
        Ok(draft)
    }

    /// Whether the helper stands.
    pub fn has_helper(&self) -> bool
        ensures { result ≡ not (is_empty self.now.words) }
    {
        has_words(self.words.as_slice())
    }

    /// Whether an option has no effect.
    pub fn is_noted(&self) -> bool
        ensures { result ≡ self.now.noted }
    {
        self.noted
    }

    /// The class of this name.
    #[tactic(auto, unfolding(sq_rules::specs::ClassLines::class_of))]
    pub fn finish(self, name: Text) -> Result<Class, WantOfMemory>
        requires { length name ≤ name_limit }
        ensures value { IfOk result (λ c. c ≡ class_of name self) }
        ensures named { IfOk result (λ c. c.name ≡ name) }
    {
        let format = with_arguments(self.format)?;
        Ok(Class {
            name,
            ttl: self.ttl,
            negative_ttl: self.negative_ttl.unwrap_or(self.ttl),
            grace: self.grace,
            cache: self.cache,
            children_max: self.children_max,
            startup: self.startup,
            concurrency: self.concurrency,
            queue_size: self.queue_size.unwrap_or(2 * self.children_max),
            format,
            words: self.words,
        })
    }
}

fn has_no_token(format: &[Token]) -> bool
    ensures { result ≡ is_empty format.now }
{
    match format {
        [] => true,
        [_, ..] => false,
    }
}

fn has_words(words: &[Text]) -> bool
    ensures { result ≡ not (is_empty words.now) }
{
    match words {
        [] => false,
        [_, ..] => true,
    }
}
