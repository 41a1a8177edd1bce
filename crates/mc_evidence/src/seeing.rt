//! Evidence that one history has found in another stays as more of the other is seen.
ghost use Rattle.std.specs.Prelude.{List, map, ℕ, ◌++◌, ◌≡◌};
ghost use mathlib.Core.List.{IsPrefix};
ghost use Rattle.mc_item.specs.declared.{answer.Site.Site, class_event.ClassEvent.ClassEvent, event.Event.Event, event.Event.TheVariants.Class};
ghost use Rattle.mc_item.specs.declared.{event.Event.TheVariants.Stripe, item.ClassNo.ClassNo, stripe_event.Did.Did, stripe_event.StripeEvent.StripeEvent};
ghost use Rattle.mc_rule.specs.{Cited.IsSuited, Evidence.IsBacked, Evidence.HasTrace, Places.Each, Segment.Rule};
ghost use Rattle.mc_evidence.specs.{Locks.SeesMore, Locks.StripeKeeps, Refusals.WasTried, Setting.IsClass, Setting.Setting, Setting.site_in};
ghost use Rattle.mc_evidence.specs.Seen.{class_events, classes_seen, stripe_events, stripes_seen};

/// What events have found in the seen part of another history, they still find when more of it is seen. These are partners, the
/// items that a class's events cite, and that a refusal wasn't made at once.
pub fn evidence_stays_as_more_is_seen()
    ensures told { (site : Site) (rule : Rule) (class : ClassNo) (seen more : List ClassEvent) (own : List StripeEvent)
        → Each (HasTrace site rule class seen) own → Each (HasTrace site rule class (seen ++ more)) own }
    ensures backed { (site : Site) (rule : Rule) (class : ClassNo) (seen more : List StripeEvent) (own : List ClassEvent)
        → Each (IsBacked site rule class seen) own → Each (IsBacked site rule class (seen ++ more)) own }
    ensures suited { (site : Site) (class : ClassNo) (seen more : List StripeEvent) (own : List ClassEvent)
        → Each (IsSuited site class seen) own → Each (IsSuited site class (seen ++ more)) own }
    ensures tried { (site : Site) (class : ClassNo) (seen more : List ClassEvent) (did : Did)
        → WasTried site class seen did → WasTried site class (seen ++ more) did }
{}

/// If a pass has seen at least as much of the classes as a stripe's lock, it has seen the partners of the stripe's events.
pub fn a_pass_that_saw_it_has_the_partners()
    ensures { (setting : Setting) (s : ℕ) (own : List StripeEvent) (seen pass : ClassNo → List ClassEvent) → StripeKeeps setting s own seen → SeesMore seen pass
        → (class : ClassNo) → IsClass setting class → Each (HasTrace (site_in setting s) setting.rule class (pass class)) own }
{}

/// If each list that a token has seen is a beginning of another token's, so are the histories of stripes and classes in them.
/// The events of a history, as the board lists them, give the history back.
pub fn seen_lists_show_histories()
    ensures classes { (stripes : ℕ) (a b : ℕ → List Event) → ((lock : ℕ) → IsPrefix (a lock) (b lock))
        → SeesMore (classes_seen stripes a) (classes_seen stripes b) }
    ensures stripes { (a b : ℕ → List Event) → ((lock : ℕ) → IsPrefix (a lock) (b lock)) → SeesMore (stripes_seen a) (stripes_seen b) }
    ensures own_class { (es : List ClassEvent) → class_events (map Class es) ≡ es }
    ensures own_stripe { (es : List StripeEvent) → stripe_events (map Stripe es) ≡ es }
{}
