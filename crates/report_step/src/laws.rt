ghost use Rattle.std.specs.Prelude.{◌≡◌, [], List, ℕ, length};
ghost use Rattle.pam_base.specs.declared.call.Step.{Step};
ghost use Rattle.pam_library.specs.data_cleanup.specs.Ledger.{PlainLedger};
ghost use Rattle.pam_library.specs.declared.outcome.Answer.TheVariants as answers;
ghost use Rattle.pam_library.specs.Outcome.{answers_only};
ghost use Rattle.report_step.specs.Step.{step_text};

/// A reply that was queued has no line.
pub fn offered_reply_is_silent()
    ensures { (names : List (List ℕ)) (step : Step) (ledger : PlainLedger) →
        step_text names step (answers_only (length ledger.filed) answers.Nothing) ledger ≡ [] }
{}
