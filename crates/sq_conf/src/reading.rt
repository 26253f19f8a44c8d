//! A whole text.
ghost use Rattle.std.specs.Prelude.{◌≡◌, ◌≤◌, ℕ, length, true, Ok, IfOk, IfErr};
ghost use Rattle.sq_conf.specs.Forms.{Makes};
ghost use Rattle.sq_conf.specs.Texts.{FailsAt, Leaves, Tells};
ghost use Rattle.sq_rules.specs.Changes.{all_patterns};
ghost use Rattle.sq_rules.specs.ConfText.{all_read, and_then, by_directive, conf_gives, conf_refuses, end_read, line_read, lines_left, lines_read, lookup_read, text_read, then_read};
ghost use Rattle.sq_rules.specs.Limits.{text_limit};
ghost use Rattle.sq_rules.specs.LookupLines.{behind_first, lookup_line};
ghost use Rattle.sq_rules.specs.declared.kinds.Kind.{Kind};

use crate::acl_lines::{acl_line, rule_line};
use crate::builder::Builder;
use crate::class_lines::class_line;
use crate::config_words::ConfigWords;
use crate::directives::directive_of;
use crate::draft_faults::FinishFault;
use crate::faults::{ConfFault, ReadFault};
use crate::header_lines::header_line;
use crate::lexing::lex;
use crate::lookup_lines::{behind_first, lookup_line, states_lookup};
use crate::pool_lines::{
    initial_line, pool_access_line, pool_class_line, pool_pairs_line, pools_line,
};
use crate::port_lines::{note, port_line};
use crate::rewrite_lines::{children_line, program_line};
use sq_base::{Line, LineFault, Text};
use sq_rules::{ConfError, Config, Directive, Kind, LookupSizes, TEXT_LIMIT};
use sq_urlmatch::{Setup, SetupFault};
use std::alloc::Global;

// What the words behind a directive change.
#[tactic(auto, unfolding(sq_rules::specs::ConfText::by_directive))]
fn by_directive(
    alloc: Global,
    builder: &mut Builder,
    directive: Directive,
    line: u32,
    name: &Text,
    words: &[Text],
) -> Result<(), ReadFault>
    ensures { Makes result builder.new
        (by_directive directive line name.now builder.old words.now) }
{
    match directive {
        Directive::Acl => acl_line(alloc, builder, words),
        Directive::HttpAccess => rule_line(alloc, builder, words),
        Directive::ExternalAclType => class_line(alloc, builder, line, words),
        Directive::DelayPools => pools_line(alloc, builder, words),
        Directive::DelayClass => pool_class_line(builder, words),
        Directive::DelayAccess => pool_access_line(alloc, builder, words),
        Directive::DelayParameters => pool_pairs_line(alloc, builder, words),
        Directive::InitialLevel => initial_line(builder, words),
        Directive::HttpPort => port_line(alloc, builder, line, words),
        Directive::RequestHeaderAccess => header_line(alloc, builder, false, words),
        Directive::ReplyHeaderAccess => header_line(alloc, builder, true, words),
        Directive::RewriteProgram => program_line(alloc, builder, words),
        Directive::RewriteChildren => children_line(alloc, builder, words),
        Directive::DstLookup => Err(ReadFault::Fault(Kind::BadValue)),
        Directive::NoEffect => Ok(note(alloc, builder, line, name.as_bytes())?),
    }
}

// A line.
#[tactic(auto, unfolding(sq_rules::specs::ConfText::line_read))]
fn read_line(
    alloc: Global,
    builder: &mut Builder,
    line: u32,
    words: &[Text],
) -> Result<(), ReadFault>
    ensures { Makes result builder.new (line_read line builder.old words.now) }
{
    let mut words = ConfigWords::new(words);
    let name = words.next()?;
    let directive = directive_of(name.as_bytes())?;
    by_directive(alloc, builder, directive, line, name, words.rest())
}

// The lines in their order, up to the first fault.
fn read_lines(alloc: Global, builder: &mut Builder, lines: &[Line]) -> Result<(), ConfFault>
    ensures { Leaves result builder.new (lines_read builder.old lines.now) }
{
    for line in lines {
        match read_line(alloc, builder, line.number, line.words.as_slice()) {
            Ok(()) => {}
            Err(ReadFault::Memory) => return Err(ConfFault::WantOfMemory),
            Err(ReadFault::Fault(kind)) => {
                return Err(ConfFault::At(ConfError {
                    line: line.number,
                    kind,
                }));
            }
        }
    }
    Ok(())
}

// What a first line `dst_lookup` says.
fn sizes_in(line: &Line) -> Result<Option<LookupSizes>, ConfFault>
    ensures { Tells (λ s. s) result
        (then_read line.now.number (lookup_line (behind_first line.now.words))
        (λ sizes. Ok sizes)) }
{
    match lookup_line(behind_first(line.words.as_slice())) {
        Ok(sizes) => Ok(sizes),
        Err(ReadFault::Memory) => Err(ConfFault::WantOfMemory),
        Err(ReadFault::Fault(kind)) => Err(ConfFault::At(ConfError {
            line: line.number,
            kind,
        })),
    }
}

// Whether names are looked up, and how many, which the first line may say.
fn read_lookup(lines: &[Line]) -> Result<Option<LookupSizes>, ConfFault>
    ensures { Tells (λ s. s) result (lookup_read lines.now) }
{
    match lines {
        [] => Ok(None),
        [line, ..] => {
            if states_lookup(line.words.as_slice()) {
                sizes_in(line)
            } else {
                Ok(None)
            }
        }
    }
}

// The lines that are left then.
fn lines_left(lines: &[Line]) -> &[Line]
    ensures { result.now ≡ lines_left lines.now }
{
    match lines {
        [] => lines,
        [line, rest @ ..] => {
            if states_lookup(line.words.as_slice()) {
                rest
            } else {
                lines
            }
        }
    }
}

// All lines.
#[tactic(auto, unfolding(sq_rules::specs::ConfText::all_read))]
fn read_all(alloc: Global, lines: &[Line]) -> Result<Builder, ConfFault>
    ensures { Tells (λ b. b) result (all_read lines.now) }
{
    let sizes = read_lookup(lines)?;
    let mut builder = Builder::new(alloc, sizes)?;
    read_lines(alloc, &mut builder, lines_left(lines))?;
    Ok(builder)
}

// The fault of a line as a whole, which comes after those of the lines before it.
fn end_of_lines(builder: &Builder, fault: Option<LineFault>) -> Result<(), ConfFault>
    ensures { Leaves result builder.now (text_read builder.now fault) }
{
    match fault {
        None => Ok(()),
        Some(LineFault::LineTooLong(line)) => Err(ConfFault::At(ConfError {
            line,
            kind: Kind::LineTooLong,
        })),
        Some(LineFault::NotUtf8(line)) => Err(ConfFault::At(ConfError {
            line,
            kind: Kind::NotUtf8,
        })),
    }
}

// The configuration, where each pool has its class and its limits.
fn finish(alloc: Global, builder: Builder, bytes: &[u8]) -> Result<Setup, ConfFault>
    requires { length bytes.now ≤ text_limit }
    ensures ok { IfOk result (λ c. end_read bytes.now builder ≡ Ok c) }
    ensures err { IfErr result (λ e. FailsAt e (end_read bytes.now builder)) }
{
    let source = Text::from_slice(alloc, bytes)?;
    match builder.finish(alloc, source) {
        Ok(config) => set_up(alloc, config),
        Err(FinishFault::Incomplete) => Err(ConfFault::At(ConfError {
            line: 0,
            kind: Kind::PoolIncomplete,
        })),
        Err(FinishFault::WantOfMemory) => Err(ConfFault::WantOfMemory),
    }
}

// The configuration with its patterns compiled; all of them are patterns.
#[tactic(auto, using(sq_urlmatch::proofs::PatternLaws::no_fault))]
fn set_up(alloc: Global, config: Config) -> Result<Setup, ConfFault>
    requires { all_patterns config.acls ≡ true }
    ensures ok { IfOk result (λ s. s ≡ config) }
    ensures err { IfErr result (λ e. e ≡ ConfFault.WantOfMemory) }
{
    match Setup::make(alloc, config) {
        Ok(setup) => Ok(setup),
        Err(SetupFault::BadPattern(_, _)) => unreachable!(),
        Err(SetupFault::WantOfMemory) => Err(ConfFault::WantOfMemory),
    }
}

// What follows the lines: the fault of a line as a whole, and then the configuration.
fn finish_lines(
    alloc: Global,
    builder: Builder,
    fault: Option<LineFault>,
    bytes: &[u8],
) -> Result<Setup, ConfFault>
    requires { length bytes.now ≤ text_limit }
    ensures ok { IfOk result (λ c. and_then (text_read builder fault) (end_read bytes.now) ≡ Ok c) }
    ensures err { IfErr result
        (λ e. FailsAt e (and_then (text_read builder fault) (end_read bytes.now))) }
{
    end_of_lines(&builder, fault)?;
    finish(alloc, builder, bytes)
}

/// The configuration that a text states, with its patterns compiled, or the text's first fault.
#[tactic(auto, unfolding(sq_rules::specs::ConfText::conf_result))]
pub fn read_config(alloc: Global, bytes: &[u8]) -> Result<Setup, ConfFault>
    ensures ok { IfOk result (λ c. conf_gives bytes.now c) }
    ensures err { IfErr result
        (λ e. (line : ℕ) (kind : Kind) → e ≡ ConfFault.At (record { line = line; kind = kind })
        → conf_refuses bytes.now line kind) }
{
    if bytes.len() > TEXT_LIMIT {
        return Err(ConfFault::At(ConfError {
            line: 0,
            kind: Kind::TooMany,
        }));
    }
    let lexed = lex(alloc, bytes)?;
    let builder = read_all(alloc, lexed.lines.as_slice())?;
    finish_lines(alloc, builder, lexed.fault, bytes)
}
