//! Laws of cas numbers (protocol.txt, "Storage commands" and "Retrieval command", on the cas unique).
ghost use Rattle.std.specs.Prelude.{◌≡◌, ◌<◌, ◌++◌, ◌∷◌, [], List, ℕ, ℤ, Some};
ghost use Rattle.mc_item.specs.Stripe.{IsLegal, cache_of};
ghost use Rattle.mc_item.specs.declared.{answer.Site.Site, stripe_event.Did.Did, stripe_event.StripeEvent.StripeEvent};
ghost use Rattle.mc_item.specs.declared.command.Command.TheVariants as commands;
ghost use Rattle.mc_item.specs.declared.command.Verb.TheVariants as verbs;
ghost use Rattle.mc_item.specs.declared.reply.Reply.TheVariants as replies;
ghost use Rattle.mc_item.specs.declared.stripe_event.StripeEvent.TheVariants as events;
ghost use Rattle.mc_laws.specs.Versions.{HoldsThroughout, number_made};

/// Of two new versions of a stripe the later one has the larger cas number, so none is given twice.
pub fn cas_numbers_rise()
    ensures { (site : Site) (before between : List StripeEvent) (first second : StripeEvent) (low high : ℕ)
        → 0 < site.stripes
        → number_made site (cache_of site before) first ≡ Some low
        → number_made site (cache_of site (before ++ first ∷ between)) second ≡ Some high
        → low < high }
{}

/// Two gets on a stripe that return the same cas number return the same version: key, flags and value are the same. The key held
/// that version all the time in between.
pub fn equal_cas_numbers_are_one_version()
    ensures { (site : Site) (before between : List StripeEvent) (first second : Did) (key other value other_value : List ℕ) (flags other_flags cas : ℕ)
        → 0 < site.stripes
        → first.command ≡ commands.Get key → first.reply ≡ replies.Value flags value cas
        → second.command ≡ commands.Get other → second.reply ≡ replies.Value other_flags other_value cas
        → IsLegal site (before ++ events.Did first ∷ (between ++ events.Did second ∷ []))
        → (other ≡ key) × (other_flags ≡ flags) × (other_value ≡ value)
        × HoldsThroughout site (cache_of site (before ++ events.Did first ∷ [])) between key flags value cas }
{}

/// A cas that stores with the number that a get of its key returned replaces what was read: the key held that version ever since.
pub fn cas_stores_over_what_was_read()
    ensures { (site : Site) (before between : List StripeEvent) (read swap : Did) (key value new_value : List ℕ) (flags new_flags cas : ℕ) (exptime : ℤ)
        → 0 < site.stripes
        → read.command ≡ commands.Get key → read.reply ≡ replies.Value flags value cas
        → swap.command ≡ commands.Store (verbs.Cas cas) key new_flags exptime new_value → swap.reply ≡ replies.Stored
        → IsLegal site (before ++ events.Did read ∷ (between ++ events.Did swap ∷ []))
        → HoldsThroughout site (cache_of site (before ++ events.Did read ∷ [])) between key flags value cas }
{}
