//! The law of legal histories: each is a chain of steps of the sequential cache.
ghost use Rattle.std.specs.Prelude.{◌≡◌, ◌++◌, ◌∷◌, [], List};
ghost use Rattle.mc_item.specs.{Cache.empty_cache, Stripe.IsLegal, Stripe.Steps, Stripe.cache_of};
ghost use Rattle.mc_item.specs.declared.{answer.Site.Site, stripe_event.StripeEvent.StripeEvent};

/// The history without events is legal and leaves the empty cache. A longer one is legal exactly if it is legal without its last
/// event, and that event is a step. The step is from the cache that the shorter history leaves to the one that the longer leaves.
pub fn a_legal_history_is_a_chain_of_steps()
    ensures begins { (site : Site) → IsLegal site [] × (cache_of site [] ≡ empty_cache) }
    ensures stepped { (site : Site) (history : List StripeEvent) (event : StripeEvent) → IsLegal site (history ++ event ∷ [])
        → IsLegal site history × Steps site history (cache_of site history) event (cache_of site (history ++ event ∷ [])) }
    ensures legal { (site : Site) (history : List StripeEvent) (event : StripeEvent) → IsLegal site history
        → Steps site history (cache_of site history) event (cache_of site (history ++ event ∷ []))
        → IsLegal site (history ++ event ∷ []) }
{}
