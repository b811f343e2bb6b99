ghost use Rattle.std.specs.Prelude.{ℕ, List, Option};
ghost use Rattle.fwd_outside.specs.Program.{Return, Execution};
ghost use Rattle.fwd_outside.specs.declared.ends.Ends.{Ends};
ghost use Rattle.fwd_outside.specs.NewLinks.{AreNewLinks};
ghost use Rattle.fwd_settings.specs.declared.settings_types.AllSettings.{AllSettings};
ghost use Rattle.fwd_model.specs.Trace.{TraceEntry, loop_part};
ghost use Rattle.fwd_model.specs.Run.{RunResult, life};
ghost use Rattle.fwd_theorem_delivery.specs.Guarantee.{KeepsGuarantee};

use crate::{
    batches_are_decided_once, delivered_routes_sent_all, failures_have_causes, links_send_prefixes,
    outcomes_have_causes, replies_are_due,
};
use fwd_theorem_trace::{histories_are_logged, pending_iff_unresolved};

/// Every run keeps the delivery guarantee, up to each of its turns, if the links that dials returned have
/// rising numbers. Complete input is accepted, or refused and counted, or followed the drop of its
/// connection. Each chunk is, for each output that it matches, delivered in full, failed, out of retries,
/// evicted by a limit, marked done before, or still pending and in the report. The bytes sent over each
/// link are a prefix of the payload of a flush of its output. Each batch is decided once, each reply is due,
/// and a refusal, the end of retries and an eviction have their causes.
pub fn runs_keep_the_guarantee()
    ensures { (s : AllSettings) (ends : Ends) (ticks : Option ℕ) (turns : ℕ) (trace : List TraceEntry) (lived : RunResult)
        → Execution (life s ends ticks turns) trace (Return lived) → AreNewLinks 0 (loop_part trace) → KeepsGuarantee s trace }
{
    histories_are_logged();
    pending_iff_unresolved();
    batches_are_decided_once();
    outcomes_have_causes();
    replies_are_due();
    links_send_prefixes();
    delivered_routes_sent_all();
    failures_have_causes();
}
