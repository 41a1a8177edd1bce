//! A law of numbers (protocol.txt, "Increment/Decrement").
ghost use Rattle.std.specs.Prelude.{◌≡◌, ◌<◌, ◌+◌, ◌^◌, ◌++◌, ◌∷◌, [], List, ℕ, Some, IsSomeAnd};
ghost use Rattle.mc_item.specs.{Measure.numeral_of, Stripe.IsLegal, Stripe.cache_of};
ghost use Rattle.mc_item.specs.declared.{answer.Site.Site, stripe_event.Did.Did, stripe_event.StripeEvent.StripeEvent};
ghost use Rattle.mc_item.specs.declared.command.Command.TheVariants as commands;
ghost use Rattle.mc_item.specs.declared.reply.Reply.TheVariants as replies;
ghost use Rattle.mc_item.specs.declared.stripe_event.StripeEvent.TheVariants as events;
ghost use Rattle.mc_laws.specs.Events.{AreOfOtherKeys};

/// If an incr of a number returns a number, and the sum is below 2^64, it returns the sum. If only events of other keys follow, a
/// decr by the same delta returns the number that was there before the incr.
pub fn incr_then_decr_gives_the_number_back()
    ensures { (site : Site) (before between : List StripeEvent) (up down : Did) (key : List ℕ) (number delta told : ℕ)
        → IsSomeAnd ((cache_of site before).items key) (λ item. numeral_of item.value ≡ Some number)
        → number + delta < 2 ^ 64
        → up.command ≡ commands.Incr key delta → up.reply ≡ replies.Number told
        → AreOfOtherKeys key between → down.command ≡ commands.Decr key delta
        → IsLegal site (before ++ events.Did up ∷ (between ++ events.Did down ∷ []))
        → (told ≡ number + delta) × (down.reply ≡ replies.Number number) }
{}
