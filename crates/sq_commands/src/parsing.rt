//! What `parse` writes of a configuration.
ghost use Rattle.std.specs.Prelude.{◌≡◌, ◌++◌, decimal, IfOk, OnOk};
ghost use Rattle.sq_rules.specs.Lookups.{stated_acls, stated_classes, unmade_acls};
ghost use Rattle.sq_commands.specs.ParseText.{counts_line, notice_line, parse_text};

use itoa::Buffer;
use sq_base::{Text, WantOfMemory};
use sq_rules::{Acl, Config, Notice, has_blank};
use std::alloc::Global;

// Puts a word and a number.
fn put_count(to: &mut Text, word: &[u8], number: u64) -> Result<(), WantOfMemory>
    ensures { OnOk result (to.new ≡ to.old ++ (word.now ++ decimal number)) }
{
    let mut buffer = Buffer::new();
    to.append(word)?;
    to.append(buffer.format(number).as_bytes())
}

// Puts the line of a notice.
fn put_notice(to: &mut Text, notice: &Notice) -> Result<(), WantOfMemory>
    ensures { OnOk result (to.new ≡ to.old ++ notice_line notice.now) }
{
    put_count(to, b"notice ", notice.line as u64)?;
    to.push(b' ')?;
    to.append(notice.directive.as_bytes())?;
    to.push(b'\n')
}

// How many of some acls have a name without a blank.
fn unmade_acls(acls: &[Acl]) -> usize
    ensures { result ≡ unmade_acls acls.now }
{
    let mut count = 0;
    for acl in acls {
        if !has_blank(acl.name.as_bytes()) {
            count += 1;
        }
    }
    count
}

// How many acls a file states: where names are looked up, those that are made have a blank in their names.
fn stated_acls(config: &Config) -> usize
    ensures { result ≡ stated_acls config.now.dst_lookup config.now.acls }
{
    if config.dst_lookup() {
        unmade_acls(config.acls())
    } else {
        config.acls().len()
    }
}

// How many classes a file states: all but the one that is made for look-ups.
fn stated_classes(config: &Config) -> usize
    ensures { result ≡ stated_classes config.now.dst_lookup config.now.classes }
{
    let count = config.classes().len();
    if config.dst_lookup() {
        count.saturating_sub(1)
    } else {
        count
    }
}

// Puts the line of counts.
fn put_counts(to: &mut Text, config: &Config) -> Result<(), WantOfMemory>
    ensures { OnOk result (to.new ≡ to.old ++ counts_line config.now) }
{
    put_count(to, b"ok acls ", stated_acls(config) as u64)?;
    put_count(to, b" rules ", config.rules().len() as u64)?;
    put_count(to, b" classes ", stated_classes(config) as u64)?;
    put_count(to, b" pools ", config.pools().len() as u64)?;
    to.push(b'\n')
}

/// The text that `parse` writes: a line for each notice, and the line of counts.
pub fn parse_text(alloc: Global, config: &Config) -> Result<Text, WantOfMemory>
    ensures { IfOk result (λ text. text ≡ parse_text config.now) }
{
    let mut text = Text::new(alloc);
    let notices = config.notices();
    for notice in notices {
        put_notice(&mut text, notice)?;
    }
    put_counts(&mut text, config)?;
    Ok(text)
}
