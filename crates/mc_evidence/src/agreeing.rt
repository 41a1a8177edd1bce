//! Each outcome of a judgement and each command keeps a stripe's and a class's whole histories in agreement. That means: they are
//! evidence of each other, have the items that the class's events cite, and clear no mark twice.
ghost use Rattle.std.specs.Prelude.{IsSomeAnd, List, [], length, ℕ, ◌++◌, ◌∷◌, ◌≡◌};
ghost use Rattle.mc_item.specs.{Command.key_of, Stripe.IsDead};
ghost use Rattle.mc_item.specs.declared.{answer.Site.Site, class_event.ClassEvent.ClassEvent, class_event.Limited.Limited, class_event.Linked.Linked};
ghost use Rattle.mc_item.specs.declared.{class_event.Refused.Refused, class_event.Shifted.Shifted, class_event.Surveyed.Surveyed};
ghost use Rattle.mc_item.specs.declared.{class_event.Unlinked.Unlinked, item.ClassNo.ClassNo, item.Who.Who, stripe_event.Did.Did};
ghost use Rattle.mc_item.specs.declared.{stripe_event.StripeEvent.StripeEvent};
ghost use Rattle.mc_item.specs.declared.class_event.ClassEvent.TheVariants as entries;
ghost use Rattle.mc_item.specs.declared.stripe_event.StripeEvent.TheVariants as items;
ghost use Rattle.mc_rule.specs.{Agreement.Agree, Belonging.Belong, Belonging.IsEntryOf, Lawful.IsLawfulHistoryByLists, Lawful.SuitsMove, Lists.moved};
ghost use Rattle.mc_rule.specs.{Pairs.ClearsMark, Pairs.IsKeyOf, Pairs.IsLinking, Pairs.IsUnlinking, Pairs.item_after, Segment.Rule};
ghost use Rattle.mc_evidence.specs.Made.{IsGivenNone, IsRefusedThere, LetsNoneGo, cooled_as, evicted_as, lost_at, lost_to, reclaimed_as};

/// Each outcome of a judgement keeps agreement: an eviction or a reclaiming with its loss, and a move, with its cooling if it
/// clears a mark.
pub fn a_judgement_keeps_agreement()
    ensures evicted { (site : Site) (rule : Rule) (class : ClassNo) (stripe : List StripeEvent) (history : List ClassEvent)
        → Agree site rule class stripe history
        → (who : Who) (key passed : List ℕ) (number : ℕ) → Belong site class stripe history key number
        → Agree site rule class (stripe ++ lost_to class who key (length history) ∷ []) (history ++ evicted_as who number passed (length stripe) ∷ []) }
    ensures reclaimed { (site : Site) (rule : Rule) (class : ClassNo) (stripe : List StripeEvent) (history : List ClassEvent)
        → Agree site rule class stripe history
        → (who : Who) (key : List ℕ) (number moment : ℕ) → Belong site class stripe history key number → IsDead (item_after site stripe key) moment
        → Agree site rule class (stripe ++ lost_at who key moment ∷ []) (history ++ reclaimed_as who number moment (length stripe) ∷ []) }
    ensures cooled { (site : Site) (rule : Rule) (class : ClassNo) (stripe : List StripeEvent) (history : List ClassEvent)
        → Agree site rule class stripe history
        → (chunks : ℕ) → IsLawfulHistoryByLists chunks rule history
        → (key : List ℕ) (e : Shifted) → ClearsMark e.why → e.at ≡ length stripe → Belong site class stripe history key e.number
        → IsSomeAnd (item_after site stripe key) (SuitsMove e.why e.moment) → IsKeyOf site key
        → Agree site rule class (stripe ++ cooled_as e.who key ∷ []) (history ++ entries.Shifted e ∷ []) }
    ensures moved { (site : Site) (rule : Rule) (class : ClassNo) (stripe : List StripeEvent) (history : List ClassEvent) → Agree site rule class stripe history
        → (key : List ℕ) (e : Shifted) → (ClearsMark e.why → ⊥) → e.at ≡ length stripe → Belong site class stripe history key e.number
        → IsSomeAnd (item_after site stripe key) (SuitsMove e.why e.moment)
        → Agree site rule class stripe (history ++ entries.Shifted e ∷ []) }
{}

/// A command keeps its stripe and a class in agreement, whether it adds an entry there, removes one, does both, or neither.
pub fn a_command_keeps_agreement()
    ensures links { (site : Site) (rule : Rule) (class : ClassNo) (stripe : List StripeEvent) (history : List ClassEvent) → Agree site rule class stripe history
        → (did : Did) (e : Linked) → IsLinking site rule class stripe did e → LetsNoneGo site class stripe did
        → Agree site rule class (stripe ++ items.Did did ∷ []) (history ++ entries.Linked e ∷ []) }
    ensures unlinks { (site : Site) (rule : Rule) (class : ClassNo) (stripe : List StripeEvent) (history : List ClassEvent)
        → Agree site rule class stripe history
        → (did : Did) (x : Unlinked) → IsUnlinking site class stripe did x → IsEntryOf history x.number (key_of did.command)
        → IsGivenNone class did → IsRefusedThere class did history
        → Agree site rule class (stripe ++ items.Did did ∷ []) (history ++ entries.Unlinked x ∷ []) }
    ensures replaces { (site : Site) (rule : Rule) (class : ClassNo) (stripe : List StripeEvent) (history : List ClassEvent)
        → Agree site rule class stripe history
        → (did : Did) (e : Linked) (x : Unlinked) → IsLinking site rule class stripe did e → IsUnlinking site class stripe did x
        → IsEntryOf (history ++ entries.Linked e ∷ []) x.number (key_of did.command)
        → Agree site rule class (stripe ++ items.Did did ∷ []) ((history ++ entries.Linked e ∷ []) ++ entries.Unlinked x ∷ []) }
    ensures neither { (site : Site) (rule : Rule) (class : ClassNo) (stripe : List StripeEvent) (history : List ClassEvent)
        → Agree site rule class stripe history
        → (did : Did) → IsGivenNone class did → LetsNoneGo site class stripe did → IsRefusedThere class did history
        → Agree site rule class (stripe ++ items.Did did ∷ []) history }
{}

/// Empty histories agree, and each survey, each refusal and each new limit of the class keeps agreement.
pub fn agreement_begins_and_outlasts_surveys()
    ensures begins { (site : Site) (rule : Rule) (class : ClassNo) → Agree site rule class [] [] }
    ensures surveyed { (site : Site) (rule : Rule) (class : ClassNo) (stripe : List StripeEvent) (history : List ClassEvent)
        → Agree site rule class stripe history
        → (e : Surveyed) → Agree site rule class stripe (history ++ entries.Surveyed e ∷ []) }
    ensures refused { (site : Site) (rule : Rule) (class : ClassNo) (stripe : List StripeEvent) (history : List ClassEvent)
        → Agree site rule class stripe history
        → (e : Refused) → Agree site rule class stripe (history ++ entries.Refused e ∷ []) }
    ensures limit { (site : Site) (rule : Rule) (class : ClassNo) (stripe : List StripeEvent) (history : List ClassEvent)
        → Agree site rule class stripe history
        → (e : Limited) → Agree site rule class stripe (history ++ entries.Limited e ∷ []) }
{}
