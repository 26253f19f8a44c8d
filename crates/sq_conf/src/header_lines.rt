//! Lines `request_header_access` and `reply_header_access`.
ghost use Rattle.std.specs.Prelude.{◌≡◌, bytes_eq, true, IfOk};
ghost use Rattle.std.specs.Str.{str_to_ascii_lowercase};
ghost use Rattle.sq_conf.specs.Forms.{Gives, Makes};
ghost use Rattle.sq_rules.specs.HeaderLines.{header_line, header_name, is_field_name};

use crate::builder::Builder;
use crate::config_words::ConfigWords;
use crate::faults::ReadFault;
use crate::pool_lines::fast_terms;
use crate::terms::action;
use httparse::is_token;
use sq_base::Text;
use sq_rules::{HeaderRule, Kind, Rule, lowered};
use std::alloc::Global;

// A token that is not `Other`.
fn is_field_name(word: &[u8]) -> bool
    ensures { result ≡ is_field_name word.now }
{
    is_token(word) && !word.eq_ignore_ascii_case(b"other")
}

// The name of a field, in lower case.
#[tactic(auto, unfolding(sq_rules::specs::HeaderLines::header_name))]
fn header_name(alloc: Global, word: &[u8]) -> Result<Text, ReadFault>
    ensures read { Gives (λ t. t) result (header_name word.now) }
    ensures lower { IfOk result (λ t. bytes_eq t (str_to_ascii_lowercase t) ≡ true) }
{
    if !is_field_name(word) {
        return Err(ReadFault::Fault(Kind::BadValue));
    }
    Ok(lowered(alloc, word)?)
}

/// `request_header_access NAME allow|deny TERM ...`, and the same for replies.
#[tactic(auto, unfolding(sq_rules::specs::HeaderLines::header_line))]
pub fn header_line(
    alloc: Global,
    builder: &mut Builder,
    reply: bool,
    words: &[Text],
) -> Result<(), ReadFault>
    ensures { Makes result builder.new (header_line reply builder.old words.now) }
{
    let mut words = ConfigWords::new(words);
    let name = header_name(alloc, words.next()?.as_bytes())?;
    let allow = action(words.next()?.as_bytes())?;
    if !builder.has_room_for_header() {
        return Err(ReadFault::Fault(Kind::TooMany));
    }
    let terms = fast_terms(alloc, builder, words.rest())?;
    let rule = Rule { allow, terms };
    builder.push_header(HeaderRule { reply, name, rule })?;
    Ok(())
}
