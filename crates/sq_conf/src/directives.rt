//! Directives by their names.
ghost use Rattle.std.specs.Prelude.{◌≡◌};
ghost use Rattle.sq_base.specs.NameTables.{beside, is_among};
ghost use Rattle.sq_conf.specs.Forms.{Gives};
ghost use Rattle.sq_rules.specs.ConfText.{directive_of, directives, without_effect};

use crate::faults::ReadFault;
use sq_base::{is_among, named};
use sq_rules::{Directive, Kind};

const DIRECTIVES: [(&[u8], Directive); 14] = [
    (b"acl", Directive::Acl),
    (b"http_access", Directive::HttpAccess),
    (b"external_acl_type", Directive::ExternalAclType),
    (b"delay_pools", Directive::DelayPools),
    (b"delay_class", Directive::DelayClass),
    (b"delay_access", Directive::DelayAccess),
    (b"delay_parameters", Directive::DelayParameters),
    (b"delay_initial_bucket_level", Directive::InitialLevel),
    (b"http_port", Directive::HttpPort),
    (b"request_header_access", Directive::RequestHeaderAccess),
    (b"reply_header_access", Directive::ReplyHeaderAccess),
    (b"url_rewrite_program", Directive::RewriteProgram),
    (b"url_rewrite_children", Directive::RewriteChildren),
    (b"dst_lookup", Directive::DstLookup),
];

const WITHOUT_EFFECT: [&[u8]; 24] = [
    b"cache",
    b"cache_dir",
    b"cache_effective_group",
    b"cache_effective_user",
    b"cache_log",
    b"cache_mem",
    b"cache_mgr",
    b"cache_replacement_policy",
    b"cache_store_log",
    b"maximum_object_size",
    b"maximum_object_size_in_memory",
    b"memory_replacement_policy",
    b"minimum_object_size",
    b"refresh_pattern",
    b"strip_query_terms",
    b"access_log",
    b"coredump_dir",
    b"dns_nameservers",
    b"error_directory",
    b"hosts_file",
    b"logfile_rotate",
    b"pid_filename",
    b"shutdown_lifetime",
    b"visible_hostname",
];

// A directive with an effect.
fn with_effect(word: &[u8]) -> Option<Directive>
    ensures { result ≡ beside directives word.now }
{
    named(&DIRECTIVES, word)
}

// A directive of the cache or of the program, which is read without effect.
fn is_without_effect(word: &[u8]) -> bool
    ensures { result ≡ is_among without_effect word.now }
{
    is_among(&WITHOUT_EFFECT, word)
}

/// The directive of this name.
#[tactic(auto, unfolding(sq_rules::specs::ConfText::directive_of))]
pub fn directive_of(word: &[u8]) -> Result<Directive, ReadFault>
    ensures { Gives (λ d. d) result (directive_of word.now) }
{
    if let Some(directive) = with_effect(word) {
        return Ok(directive);
    }
    if is_without_effect(word) {
        Ok(Directive::NoEffect)
    } else {
        Err(ReadFault::Fault(Kind::UnknownDirective))
    }
}
