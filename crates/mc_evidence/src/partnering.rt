//! Laws about partners: each is the only one, and the items that they cite suit them.
ghost use Rattle.std.specs.Prelude.{List, Some, length, ℕ, ◌≡◌};
ghost use Rattle.mc_item.specs.{Item.link_of_item, Stripe.IsLegal};
ghost use Rattle.mc_item.specs.declared.{answer.Site.Site, class_event.ClassEvent.ClassEvent, class_event.Evicted.Evicted, class_event.Linked.Linked};
ghost use Rattle.mc_item.specs.declared.{class_event.Reclaimed.Reclaimed, class_event.Refused.Refused, class_event.Shifted.Shifted};
ghost use Rattle.mc_item.specs.declared.{class_event.Unlinked.Unlinked, class_event.Why.TheVariants.Hit, item.ClassNo.ClassNo};
ghost use Rattle.mc_item.specs.declared.{stripe_event.Cause.TheVariants.Taken, stripe_event.Cooled.Cooled, stripe_event.Did.Did, stripe_event.Lost.Lost};
ghost use Rattle.mc_item.specs.declared.{stripe_event.StripeEvent.StripeEvent};
ghost use Rattle.mc_item.specs.declared.class_event.ClassEvent.TheVariants as entries;
ghost use Rattle.mc_item.specs.declared.stripe_event.StripeEvent.TheVariants as items;
ghost use Rattle.mc_rule.specs.{Belonging.IsEntryOf, Cited.IsSuited, Evidence.AreEvidence, Evidence.IsBacked, Lawful.IsLawfulHistoryByLists, Lists.linked};
ghost use Rattle.mc_rule.specs.{Lists.unlinked, Partners.ClearsOnce, Partners.Links, Partners.TakesOut, Places.Each, Places.Stands, Segment.Rule};
ghost use Rattle.mc_rule.specs.Pairs.{IsCooling, IsEviction, IsKeyOf, IsLinking, IsReclaiming, IsRefusal, IsUnlinking, item_after, link_to};

/// In a lawful class's history a number is linked at most once, and taken out of the lists at most once.
pub fn numbers_come_and_go_once()
    ensures comes { (chunks : ℕ) (rule : Rule) (n : ℕ) (history first second : List ClassEvent) (e x : ClassEvent) → IsLawfulHistoryByLists chunks rule history
        → Stands history first e → Stands history second x → Links n e → Links n x → (first ≡ second) × (e ≡ x) }
    ensures goes { (chunks : ℕ) (rule : Rule) (n : ℕ) (history first second : List ClassEvent) (e x : ClassEvent) → IsLawfulHistoryByLists chunks rule history
        → Stands history first e → Stands history second x → TakesOut n e → TakesOut n x → (first ≡ second) × (e ≡ x) }
{}

/// A move that cites the end of its stripe's history clears no mark that an earlier move has cleared.
pub fn no_mark_is_cleared_again()
    ensures { (chunks : ℕ) (rule : Rule) (site : Site) (class : ClassNo) (stripe : List StripeEvent) (history : List ClassEvent) (key : List ℕ) (e : Shifted)
        → Each (IsBacked site rule class stripe) history → IsLawfulHistoryByLists chunks rule history
        → IsEntryOf history e.number key → IsKeyOf site key → e.at ≡ length stripe → ClearsOnce history (entries.Shifted e) }
{}

/// No eviction is cited by two losses of a stripe.
pub fn no_eviction_is_cited_twice()
    ensures { (site : Site) (rule : Rule) (class : ClassNo) (stripe : List StripeEvent) (history : List ClassEvent) → AreEvidence site rule class stripe history
        → (first second : List StripeEvent) (lost other : Lost) (n m place : ℕ) → Stands stripe first (items.Lost lost)
        → Stands stripe second (items.Lost other)
        → lost.cause ≡ Taken class place → other.cause ≡ Taken class place
        → link_of_item (item_after site first lost.key) ≡ Some (link_to class n) → link_of_item (item_after site second other.key) ≡ Some (link_to class m)
        → first ≡ second }
{}

/// By its partner, the item that a reclaiming cites was dead, and the item that a hit's move cites was ACTIVE.
pub fn cited_items_of_partners_suit()
    ensures reclaimed { (site : Site) (rule : Rule) (class : ClassNo) (stripe : List StripeEvent) → IsLegal site stripe
        → (behind : List ClassEvent) (e : Reclaimed)
        → IsBacked site rule class stripe behind (entries.Reclaimed e) → IsSuited site class stripe behind (entries.Reclaimed e) }
    ensures hit { (site : Site) (rule : Rule) (class : ClassNo) (stripe : List StripeEvent) → IsLegal site stripe
        → (behind : List ClassEvent) (e : Shifted) → e.why ≡ Hit
        → IsBacked site rule class stripe behind (entries.Shifted e) → IsSuited site class stripe behind (entries.Shifted e) }
{}

/// An event of a stripe has at most one partner of each kind in a class's history.
pub fn a_class_event_is_the_only_partner()
    ensures linked { (site : Site) (rule : Rule) (class : ClassNo) (before : List StripeEvent) (history first second : List ClassEvent) (chunks : ℕ)
        → IsLawfulHistoryByLists chunks rule history
        → (did : Did) (e x : Linked) → Stands history first (entries.Linked e) → Stands history second (entries.Linked x)
        → IsLinking site rule class before did e → IsLinking site rule class before did x → first ≡ second }
    ensures unlinked { (site : Site) (rule : Rule) (class : ClassNo) (before : List StripeEvent) (history first second : List ClassEvent) (chunks : ℕ)
        → IsLawfulHistoryByLists chunks rule history
        → (did : Did) (e x : Unlinked) → Stands history first (entries.Unlinked e) → Stands history second (entries.Unlinked x)
        → IsUnlinking site class before did e → IsUnlinking site class before did x → first ≡ second }
    ensures evicted { (site : Site) (rule : Rule) (class : ClassNo) (before : List StripeEvent) (history first second : List ClassEvent) (chunks : ℕ)
        → IsLawfulHistoryByLists chunks rule history
        → (lost : Lost) (e x : Evicted) → Stands history first (entries.Evicted e) → Stands history second (entries.Evicted x)
        → IsEviction site class before lost first e → IsEviction site class before lost second x → first ≡ second }
    ensures reclaimed { (site : Site) (rule : Rule) (class : ClassNo) (before : List StripeEvent) (history first second : List ClassEvent) (chunks : ℕ)
        → IsLawfulHistoryByLists chunks rule history
        → (lost : Lost) (e x : Reclaimed) → Stands history first (entries.Reclaimed e) → Stands history second (entries.Reclaimed x)
        → IsReclaiming site class before lost e → IsReclaiming site class before lost x → first ≡ second }
    ensures shifted { (site : Site) (class : ClassNo) (before : List StripeEvent) (history first second : List ClassEvent) → Each ClearsOnce history
        → (cooled : Cooled) (e x : Shifted) → Stands history first (entries.Shifted e) → Stands history second (entries.Shifted x)
        → IsCooling site class before cooled e → IsCooling site class before cooled x → first ≡ second }
    ensures refused { (class : ClassNo) (history first second : List ClassEvent)
        → (did : Did) (e x : Refused) → Stands history first (entries.Refused e) → Stands history second (entries.Refused x)
        → IsRefusal class did first e → IsRefusal class did second x → first ≡ second }
{}

/// An event of a class has at most one partner in a stripe's history. This isn't said of a refusal, which names only its call.
pub fn a_stripe_event_is_the_only_partner()
    ensures linked { (site : Site) (rule : Rule) (class : ClassNo) (stripe : List StripeEvent)
        → IsLegal site stripe → (first second : List StripeEvent) (did other : Did) (e : Linked)
        → Stands stripe first (items.Did did) → Stands stripe second (items.Did other)
        → IsLinking site rule class first did e → IsLinking site rule class second other e → first ≡ second }
    ensures unlinked { (site : Site) (class : ClassNo) (stripe : List StripeEvent)
        → IsLegal site stripe → (first second : List StripeEvent) (did other : Did) (e : Unlinked)
        → Stands stripe first (items.Did did) → Stands stripe second (items.Did other)
        → IsUnlinking site class first did e → IsUnlinking site class second other e → first ≡ second }
    ensures evicted { (site : Site) (class : ClassNo) (stripe first second : List StripeEvent) (behind : List ClassEvent) (lost other : Lost) (e : Evicted)
        → Stands stripe first (items.Lost lost) → Stands stripe second (items.Lost other)
        → IsEviction site class first lost behind e → IsEviction site class second other behind e → first ≡ second }
    ensures reclaimed { (site : Site) (class : ClassNo) (stripe first second : List StripeEvent) (lost other : Lost) (e : Reclaimed)
        → Stands stripe first (items.Lost lost) → Stands stripe second (items.Lost other)
        → IsReclaiming site class first lost e → IsReclaiming site class second other e → first ≡ second }
    ensures shifted { (site : Site) (class : ClassNo) (stripe first second : List StripeEvent) (cooled other : Cooled) (e : Shifted)
        → Stands stripe first (items.Cooled cooled) → Stands stripe second (items.Cooled other)
        → IsCooling site class first cooled e → IsCooling site class second other e → first ≡ second }
{}
