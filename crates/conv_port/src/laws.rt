ghost use Rattle.std.specs.Prelude.{◌≡◌, ◌≢◌, ◌<◌, ◌↔◌, true, false, length, List, Err};
ghost use Rattle.conv_port.specs.Message.{HasPrompt, prompt_count};
ghost use Rattle.conv_port.specs.Conv.{ConvState, answer_to, ready_replies, starts_with_mark};
ghost use Rattle.conv_port.specs.declared.conv.ConvFault.TheVariants.{Again, Gone};
ghost use Rattle.conv_port.specs.declared.message.Message.{Message};

/// A law: when an exchange gets no replies, in terms that the definition doesn't use. A conversation that doesn't wait
/// returns Again for an exchange with a prompt if a mark is first, and is gone if none is first and there are fewer
/// replies than prompts before the next one; one that waits returns Again if there are too few replies, and is never
/// gone.
pub fn exchange_without_replies()
    ensures again { (s : ConvState) (messages : List Message) → s.waits ≡ false →
        (answer_to s messages ≡ Err Again) ↔ (HasPrompt messages × (starts_with_mark s.offers
        ≡ true)) }
    ensures gone { (s : ConvState) (messages : List Message) → s.waits ≡ false →
        (answer_to s messages ≡ Err Gone)
        ↔ ((length (ready_replies s.offers) < prompt_count messages) × (starts_with_mark s.offers
        ≡ false)) }
    ensures waiting { (s : ConvState) (messages : List Message) → s.waits ≡ true →
        (answer_to s messages ≡ Err Again) ↔ (length (ready_replies s.offers)
        < prompt_count messages) }
    ensures never_gone { (s : ConvState) (messages : List Message) → s.waits ≡ true →
        answer_to s messages ≢ Err Gone }
{}
