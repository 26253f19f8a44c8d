//! Lines `external_acl_type`.
ghost use Rattle.std.specs.Prelude.{◌≡◌, ◌≤◌, true, length, nat_lt, codes, None, IfOk, OnOk};
ghost use Rattle.sq_conf.specs.Forms.{Gives, Makes};
ghost use Rattle.sq_rules.specs.Building.{class_place};
ghost use Rattle.sq_rules.specs.ClassLines.{class_line, class_name, class_of, with_class, with_notice_if};
ghost use Rattle.sq_rules.specs.Limits.{name_limit};
ghost use Rattle.sq_rules.specs.Lookups.{classes_within};

use crate::builder::Builder;
use crate::class_drafts::ClassDraft;
use crate::config_words::ConfigWords;
use crate::faults::ReadFault;
use crate::port_lines::note_if;
use sq_base::{Copying, Text, WantOfMemory};
use sq_rules::{Kind, NAME_LIMIT};
use std::alloc::Global;

// A name that no class has, and room for one more.
fn class_name(builder: &Builder, word: &Text) -> Result<(), ReadFault>
    ensures read { Gives (λ _. word.now) result (class_name builder.now word.now) }
    ensures short { IfOk result (λ _. length word.now ≤ name_limit) }
    ensures free { IfOk result (λ _. class_place builder.now.classes word.now ≡ None) }
    ensures room { IfOk result
        (λ _. nat_lt (length builder.now.classes) (classes_within builder.now.dst_lookup) ≡ true) }
{
    if word.len() > NAME_LIMIT {
        return Err(ReadFault::Fault(Kind::BadValue));
    }
    if builder.class_place(word).is_some() {
        return Err(ReadFault::Fault(Kind::DuplicateClass));
    }
    if !builder.has_room_for_class() {
        return Err(ReadFault::Fault(Kind::TooMany));
    }
    Ok(())
}

// One class more, with a notice where an option has no effect.
fn add_class(
    alloc: Global,
    builder: &mut Builder,
    line: u32,
    name: &Text,
    draft: ClassDraft,
) -> Result<(), WantOfMemory>
    requires short { length name.now ≤ name_limit }
    requires free { class_place builder.old.classes name.now ≡ None }
    requires room { nat_lt (length builder.old.classes) (classes_within builder.old.dst_lookup)
        ≡ true }
    ensures { OnOk result
        (builder.new ≡ with_notice_if draft.noted line (codes "external_acl_type")
        (with_class (class_of name.now draft) builder.old)) }
{
    let noted = draft.is_noted();
    let name = name.copy(alloc)?;
    let class = draft.finish(name)?;
    builder.push_class(alloc, class)?;
    note_if(alloc, builder, noted, line, b"external_acl_type")
}

/// `external_acl_type NAME [option ...] [%token ...] helper [argument ...]`
#[tactic(auto, unfolding(sq_rules::specs::ClassLines::class_line))]
pub fn class_line(
    alloc: Global,
    builder: &mut Builder,
    line: u32,
    words: &[Text],
) -> Result<(), ReadFault>
    ensures { Makes result builder.new (class_line line builder.old words.now) }
{
    let mut words = ConfigWords::new(words);
    let name = words.next()?;
    class_name(builder, name)?;
    let draft = ClassDraft::read(alloc, words.rest())?;
    if !draft.has_helper() {
        return Err(ReadFault::Fault(Kind::MissingWord));
    }
    add_class(alloc, builder, line, name, draft)?;
    Ok(())
}
