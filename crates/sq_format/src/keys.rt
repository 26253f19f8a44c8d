//! The key of an external acl.
ghost use Rattle.std.specs.Prelude.{◌≡◌, IfOk};
ghost use Rattle.sq_rules.specs.Keys.{body_key, key_text};

use crate::tokens::put_format;
use sq_base::{Text, WantOfMemory};
use sq_rules::{Acl, Body, Config, Sight};
use std::alloc::Global;

// The key of an acl.
fn acl_key(alloc: Global, config: &Config, acl: &Acl, sight: &Sight) -> Result<Text, WantOfMemory>
    ensures { IfOk result (λ k. k ≡ body_key config.now sight.now acl.now.name acl.now.body) }
{
    let mut key = Text::new(alloc);
    if let Body::External { class, arguments } = &acl.body {
        if let Some(class) = config.classes().get(*class as usize) {
            let format = class.format.as_slice();
            put_format(
                alloc,
                &mut key,
                &acl.name,
                arguments.as_slice(),
                sight,
                format,
            )?;
        }
    }
    Ok(key)
}

/// The key that the helper of the external acl at a place, from 0, is asked for this request and client;
/// of any other acl the empty text. It may have any length: one over 8,192 bytes is not asked.
#[tactic(auto, unfolding(sq_rules::specs::Keys::key_text))]
pub fn key(alloc: Global, config: &Config, acl: u32, sight: &Sight) -> Result<Text, WantOfMemory>
    ensures { IfOk result (λ k. k ≡ key_text config.now acl sight.now) }
{
    match config.acls().get(acl as usize) {
        Some(acl) => acl_key(alloc, config, acl, sight),
        None => Ok(Text::new(alloc)),
    }
}
