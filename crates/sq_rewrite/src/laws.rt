//! What every list of calls of a rewriter keeps.
ghost use Rattle.std.specs.Prelude.{◌≡◌, ◌≤◌, ◌∷◌, ℕ, List, Some, None, if◌then◌else◌};
ghost use Rattle.std.specs.declared.option.Option.{Option};
ghost use Rattle.sq_base.specs.declared.helpers.Reply.{Reply};
ghost use Rattle.sq_channel.specs.declared.replies.Got.{Got};
ghost use Rattle.sq_channel.specs.declared.replies.Got.TheVariants as got;
ghost use Rattle.sq_rules.specs.Classes.{Class};
ghost use Rattle.sq_rewrite.specs.Calls.{Calls, Acted, Wrote, Took};
ghost use Rattle.sq_rewrite.specs.States.{IsRun, state_of, take_refusal};
ghost use Rattle.sq_rewrite.specs.Statuses.{HasEnded, IsAtProcess, WaitsWith, is_known, status, times_sent, times_taken};
ghost use Rattle.sq_rewrite.specs.Transcripts.{line_answers};
ghost use Rattle.sq_rewrite.specs.declared.acts.RewriteAct.TheVariants as act;
ghost use Rattle.sq_rewrite.specs.declared.faults.RewriteFault.TheVariants as fault;
ghost use Rattle.sq_rewrite.specs.declared.rewritings.Rewriting.{Rewriting};

/// What every list of calls keeps. The function does nothing; its clauses are laws of the definitions.
pub fn rewriting_laws()
    // What is taken of a question is what it came to: what the reply of its process makes of its request, or nothing, by the cause that ended it.
    ensures taken { (c : Class) (h : Calls) (q : ℕ) (w : Rewriting) → IsRun c (Took q w ∷ h)
        → status h q ≡ HasEnded w }
    // A question is unknown exactly where it was not asked or was taken.
    ensures known { (c : Class) (h : Calls) → IsRun c h → (q : ℕ) → take_refusal q (state_of c h)
        ≡ (if is_known (status h q) then None else Some (fault.UnknownQuestion q)) }
    // A line answers the question that was sent last on its channel and has no reply.
    ensures heard { (c : Class) (h : Calls) (k : ℕ) (line : List ℕ) (g : Got)
        → IsRun c (Wrote k line g ∷ h) → g ≡ line_answers c h k line }
    // A reply is to a question that was sent to this process and has not ended.
    ensures replied { (c : Class) (h : Calls) (k q : ℕ) (line : List ℕ) (reply : Reply)
        → IsRun c (Wrote k line (got.Reply q reply) ∷ h) → IsAtProcess k (status h q) }
    // What is sent is the text of a question that waits.
    ensures sent { (c : Class) (h : Calls) (k q : ℕ) (channel : Option ℕ) (text : List ℕ)
        → IsRun c (Acted (act.Send k q channel text) ∷ h) → WaitsWith text (status h q) }
    ensures sent_once { (c : Class) (h : Calls) → IsRun c h → (q : ℕ) → times_sent q h ≤ 1 }
    ensures taken_once { (c : Class) (h : Calls) → IsRun c h → (q : ℕ) → times_taken q h ≤ 1 }
{}
