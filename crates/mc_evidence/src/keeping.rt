//! Each pair of events that one call makes keeps two whole histories evidence of each other.
ghost use Rattle.std.specs.Prelude.{List, [], length, ℕ, ◌++◌, ◌∷◌, ◌≡◌};
ghost use Rattle.mc_item.specs.Command.{key_of};
ghost use Rattle.mc_item.specs.declared.{answer.Site.Site, class_event.ClassEvent.ClassEvent, class_event.Linked.Linked, class_event.Shifted.Shifted};
ghost use Rattle.mc_item.specs.declared.{class_event.Unlinked.Unlinked, item.ClassNo.ClassNo, item.Who.Who, stripe_event.Did.Did};
ghost use Rattle.mc_item.specs.declared.{stripe_event.StripeEvent.StripeEvent};
ghost use Rattle.mc_item.specs.declared.class_event.ClassEvent.TheVariants as entries;
ghost use Rattle.mc_item.specs.declared.stripe_event.StripeEvent.TheVariants as items;
ghost use Rattle.mc_rule.specs.{Belonging.Belong, Belonging.IsEntryOf, Evidence.AreEvidence, Evidence.HasTrace, Segment.Rule};
ghost use Rattle.mc_rule.specs.Pairs.{ClearsMark, IsLinking, IsUnlinking};
ghost use Rattle.mc_evidence.specs.Made.{IsAlone, IsGivenNone, IsRefusedThere, LetsNoneGo, cooled_as, evicted_as, lost_at, lost_to, reclaimed_as};

/// An eviction or a reclaiming, with its loss, keeps evidence.
pub fn a_loss_keeps_evidence()
    ensures evicted { (site : Site) (rule : Rule) (class : ClassNo) (stripe : List StripeEvent) (history : List ClassEvent)
        → AreEvidence site rule class stripe history
        → (who : Who) (key passed : List ℕ) (number : ℕ) → Belong site class stripe history key number
        → AreEvidence site rule class (stripe ++ lost_to class who key (length history) ∷ []) (history ++ evicted_as who number passed (length stripe) ∷ []) }
    ensures reclaimed { (site : Site) (rule : Rule) (class : ClassNo) (stripe : List StripeEvent) (history : List ClassEvent)
        → AreEvidence site rule class stripe history
        → (who : Who) (key : List ℕ) (number moment : ℕ) → Belong site class stripe history key number
        → AreEvidence site rule class (stripe ++ lost_at who key moment ∷ []) (history ++ reclaimed_as who number moment (length stripe) ∷ []) }
{}

/// A cooling, which clears an item's ACTIVE mark, keeps evidence together with the move of the item's entry.
pub fn a_cooling_keeps_evidence()
    ensures { (site : Site) (rule : Rule) (class : ClassNo) (stripe : List StripeEvent) (history : List ClassEvent) → AreEvidence site rule class stripe history
        → (key : List ℕ) (e : Shifted) → Belong site class stripe history key e.number → ClearsMark e.why → e.at ≡ length stripe
        → AreEvidence site rule class (stripe ++ cooled_as e.who key ∷ []) (history ++ entries.Shifted e ∷ []) }
{}

/// A command keeps evidence between its stripe and a class, whether it adds an entry there, removes one, does both, or neither.
pub fn a_command_keeps_evidence()
    ensures links { (site : Site) (rule : Rule) (class : ClassNo) (stripe : List StripeEvent) (history : List ClassEvent)
        → AreEvidence site rule class stripe history
        → (did : Did) (e : Linked) → IsLinking site rule class stripe did e → LetsNoneGo site class stripe did
        → AreEvidence site rule class (stripe ++ items.Did did ∷ []) (history ++ entries.Linked e ∷ []) }
    ensures unlinks { (site : Site) (rule : Rule) (class : ClassNo) (stripe : List StripeEvent) (history : List ClassEvent)
        → AreEvidence site rule class stripe history
        → (did : Did) (x : Unlinked) → IsUnlinking site class stripe did x → IsEntryOf history x.number (key_of did.command)
        → IsGivenNone class did → IsRefusedThere class did history
        → AreEvidence site rule class (stripe ++ items.Did did ∷ []) (history ++ entries.Unlinked x ∷ []) }
    ensures replaces { (site : Site) (rule : Rule) (class : ClassNo) (stripe : List StripeEvent) (history : List ClassEvent)
        → AreEvidence site rule class stripe history
        → (did : Did) (e : Linked) (x : Unlinked) → IsLinking site rule class stripe did e → IsUnlinking site class stripe did x
        → IsEntryOf (history ++ entries.Linked e ∷ []) x.number (key_of did.command)
        → AreEvidence site rule class (stripe ++ items.Did did ∷ []) ((history ++ entries.Linked e ∷ []) ++ entries.Unlinked x ∷ []) }
    ensures neither { (site : Site) (rule : Rule) (class : ClassNo) (stripe : List StripeEvent) (history : List ClassEvent)
        → AreEvidence site rule class stripe history
        → (did : Did) → IsGivenNone class did → LetsNoneGo site class stripe did → IsRefusedThere class did history
        → AreEvidence site rule class (stripe ++ items.Did did ∷ []) history }
{}

/// A class's event that needs no partner in the stripe keeps evidence. Such are a survey, a refusal, a new limit of chunks, a move
/// that clears no mark, and any event for an entry with a key of another stripe.
pub fn events_of_the_class_alone_keep_evidence()
    ensures { (site : Site) (rule : Rule) (class : ClassNo) (stripe : List StripeEvent) (history : List ClassEvent) → AreEvidence site rule class stripe history
        → (e : ClassEvent) → IsAlone site history e → AreEvidence site rule class stripe (history ++ e ∷ []) }
{}

/// A stripe's event that already has its partner in the class, or needs none there, keeps evidence. A loss of another class's
/// item needs none.
pub fn events_of_the_stripe_alone_keep_evidence()
    ensures { (site : Site) (rule : Rule) (class : ClassNo) (stripe : List StripeEvent) (history : List ClassEvent) → AreEvidence site rule class stripe history
        → (e : StripeEvent) → HasTrace site rule class history stripe e → AreEvidence site rule class (stripe ++ e ∷ []) history }
{}
