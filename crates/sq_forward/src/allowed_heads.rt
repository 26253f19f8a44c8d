//! Heads as they are passed on by the rules of a configuration.
ghost use Rattle.std.specs.Prelude.{◌≡◌, length, IfOk};
ghost use Rattle.sq_message.specs.ReplyHeads.{reply_head_out_where};
ghost use Rattle.sq_message.specs.RequestHeads.{head_out_where};
ghost use Rattle.sq_forward.specs.Access.{access_by, reply_text, request_text};
ghost use Rattle.sq_rules.specs.Facts.{facts_of};
ghost use Rattle.sq_rules.specs.declared.sights.Sight.{Sight};

use crate::deciding::{AccessTest, decided_names};
use sq_base::{Addr, BodyPlan, Request, Text, WantOfMemory};
use sq_message::{ReplyHead, Shape, head_out_where, reply_head_out_where};
use sq_rules::{Config, Facts};
use std::alloc::Global;

/// The head of a request as the origin gets it, from the client of this address, where its body goes out by
/// this plan, without the lines of fields that are not allowed. The facts are those of the request's check.
pub fn request_head(
    alloc: Global,
    config: &Config,
    facts: &Facts,
    request: &Request,
    addr: Addr,
    plan: BodyPlan,
) -> Result<Text, WantOfMemory>
    requires { length facts.now ≡ length config.now.acls }
    ensures text { (s : Sight) → facts.now ≡ facts_of config.now.acls s
        → IfOk result (λ t. t ≡ request_text config.now s request.now addr plan) }
    ensures by_facts { IfOk result (λ t. t ≡ head_out_where (access_by config.now facts.now).request
        request.now addr plan) }
{
    config.facts();
    let names = decided_names(alloc, config, facts, false, request.fields.as_slice())?;
    let test = AccessTest {
        config,
        facts,
        reply: false,
        names: names.as_slice(),
    };
    head_out_where(alloc, request, addr, plan, &test)
}

/// The head of a reply as the client gets it, without the lines of fields that are not allowed. The facts
/// are those of the request's check.
pub fn reply_head(
    alloc: Global,
    config: &Config,
    facts: &Facts,
    head: &ReplyHead,
    shape: Shape,
) -> Result<Text, WantOfMemory>
    requires { length facts.now ≡ length config.now.acls }
    ensures text { (s : Sight) → facts.now ≡ facts_of config.now.acls s
        → IfOk result (λ t. t ≡ reply_text config.now s head.now shape) }
    ensures by_facts { IfOk result
        (λ t. t ≡ reply_head_out_where (access_by config.now facts.now).reply head.now shape) }
{
    config.facts();
    let names = decided_names(alloc, config, facts, true, head.fields.as_slice())?;
    let test = AccessTest {
        config,
        facts,
        reply: true,
        names: names.as_slice(),
    };
    reply_head_out_where(alloc, head, shape, &test)
}
