//! Lines `url_rewrite_program` and `url_rewrite_children`.
ghost use Rattle.std.specs.Prelude.{◌≡◌, true, length, nat_lt, IfOk, OnOk};
ghost use Rattle.sq_conf.specs.Forms.{Gives, Makes};
ghost use Rattle.sq_rules.specs.RewriteLines.{children_line, children_words, program_line, program_words, with_children};

use crate::builder::Builder;
use crate::class_drafts::ClassDraft;
use crate::config_words::ConfigWords;
use crate::faults::ReadFault;
use sq_base::{Copying, Listed, Text, Texts, WantOfMemory};
use sq_rules::{Class, Kind};
use std::alloc::Global;

// The words, copied.
fn copied(alloc: Global, words: &[Text]) -> Result<Texts, WantOfMemory>
    ensures { IfOk result (λ t. t ≡ words.now) }
{
    let mut texts = Listed::new(alloc);
    for word in words {
        texts.push(word.copy(alloc)?)?;
    }
    Ok(texts)
}

// The helper and its arguments.
fn program_words(alloc: Global, words: &[Text]) -> Result<Texts, ReadFault>
    ensures read { Gives (λ t. t) result (program_words words.now) }
    ensures some { IfOk result (λ t. nat_lt 0 (length t) ≡ true) }
{
    if words.is_empty() {
        return Err(ReadFault::Fault(Kind::MissingWord));
    }
    Ok(copied(alloc, words)?)
}

/// `url_rewrite_program HELPER ARGUMENT ...`
#[tactic(auto, unfolding(sq_rules::specs::RewriteLines::program_line))]
pub fn program_line(alloc: Global, builder: &mut Builder, words: &[Text]) -> Result<(), ReadFault>
    ensures { Makes result builder.new (program_line builder.old words.now) }
{
    if builder.has_program() {
        return Err(ReadFault::Fault(Kind::BadValue));
    }
    let words = program_words(alloc, words)?;
    builder.set_program(words);
    Ok(())
}

// MAX and options.
#[tactic(auto, unfolding(sq_rules::specs::RewriteLines::children_words))]
fn children_words(alloc: Global, words: &[Text]) -> Result<ClassDraft, ReadFault>
    ensures { Gives (λ c. c) result (children_words words.now) }
{
    let mut words = ConfigWords::new(words);
    let first = words.next()?;
    ClassDraft::read_children(alloc, first.as_bytes(), words.rest())
}

// Sets the class of the program that rewrites, whose format is empty.
fn set_children(alloc: Global, builder: &mut Builder, draft: ClassDraft) -> Result<(), WantOfMemory>
    ensures { OnOk result (builder.new ≡ with_children draft builder.old) }
{
    let name = Text::from_slice(alloc, b"url rewrite")?;
    let class = draft.finish(name)?;
    builder.set_children(Class {
        format: Listed::new(alloc),
        ..class
    });
    Ok(())
}

/// `url_rewrite_children MAX [option ...]`
#[tactic(auto, unfolding(sq_rules::specs::RewriteLines::children_line))]
pub fn children_line(alloc: Global, builder: &mut Builder, words: &[Text]) -> Result<(), ReadFault>
    ensures { Makes result builder.new (children_line builder.old words.now) }
{
    if builder.has_children() {
        return Err(ReadFault::Fault(Kind::BadValue));
    }
    let draft = children_words(alloc, words)?;
    set_children(alloc, builder, draft)?;
    Ok(())
}
