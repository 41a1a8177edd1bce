//! Each event of a stripe finds its partner in the history of a class that is evidence of it, and the other way round.
ghost use Rattle.std.specs.Prelude.{IsSomeAnd, List, Some, [], length, ℕ, ◌++◌, ◌∷◌, ◌≡◌};
ghost use Rattle.mc_item.specs.{Command.key_of, Item.link_of_item};
ghost use Rattle.mc_item.specs.declared.{answer.Site.Site, class_event.ClassEvent.ClassEvent, class_event.Evicted.Evicted, class_event.Linked.Linked};
ghost use Rattle.mc_item.specs.declared.{class_event.Reclaimed.Reclaimed, class_event.Shifted.Shifted, class_event.Unlinked.Unlinked, item.ClassNo.ClassNo};
ghost use Rattle.mc_item.specs.declared.{lists.Entry.Entry, lists.Seg.Seg, stripe_event.Cause.TheVariants.Expired, stripe_event.Cause.TheVariants.Taken};
ghost use Rattle.mc_item.specs.declared.{stripe_event.Cooled.Cooled, stripe_event.Did.Did, stripe_event.Lost.Lost, stripe_event.StripeEvent.StripeEvent};
ghost use Rattle.mc_item.specs.declared.class_event.ClassEvent.TheVariants as entries;
ghost use Rattle.mc_item.specs.declared.reply.Room.TheVariants as rooms;
ghost use Rattle.mc_item.specs.declared.stripe_event.StripeEvent.TheVariants as items;
ghost use Rattle.mc_rule.specs.{Evidence.AreEvidence, Lists.found, Lists.linked, Lists.lists_of, Lists.unlinked, Places.Has, Places.Stands, Segment.Rule};
ghost use Rattle.mc_rule.specs.Pairs.{ClearsMark, IsKeyOf, LetsGo, item_after, link_to};
ghost use Rattle.mc_evidence.specs.Finding.{ClearsAt, Occurs, StandsAt, StandsFor, TakesAway};
ghost use Rattle.mc_evidence.specs.Made.{cooled_as, evicted_as, linked_for, lost_at, lost_to, reclaimed_as};

/// Each event of a stripe finds its partner in the class's history, by the same call. A command finds its new item's entry with
/// all parts, the event that took the old entry out, and the refusal that it cites. A loss finds its eviction or reclaiming, and
/// a cooling its move. These cite the place of the loss or the cooling.
pub fn each_event_of_a_stripe_finds_its_partner()
    ensures linked { (site : Site) (rule : Rule) (class : ClassNo) (stripe : List StripeEvent) (history : List ClassEvent)
        → AreEvidence site rule class stripe history
        → (before : List StripeEvent) (did : Did) (number : ℕ) → Stands stripe before (items.Did did) → did.room ≡ rooms.At (link_to class number)
        → IsSomeAnd (item_after site (before ++ items.Did did ∷ []) (key_of did.command))
        (λ item. Occurs history (entries.Linked (linked_for rule number did item))) }
    ensures unlinked { (site : Site) (rule : Rule) (class : ClassNo) (stripe : List StripeEvent) (history : List ClassEvent)
        → AreEvidence site rule class stripe history
        → (before : List StripeEvent) (did : Did) (number : ℕ) → Stands stripe before (items.Did did) → LetsGo site before did (link_to class number)
        → Occurs history (entries.Unlinked (record { who = did.who; number = number })) }
    ensures taken { (site : Site) (rule : Rule) (class : ClassNo) (stripe : List StripeEvent) (history : List ClassEvent)
        → AreEvidence site rule class stripe history
        → (before : List StripeEvent) (lost : Lost) (number place : ℕ) → Stands stripe before (items.Lost lost) → lost.cause ≡ Taken class place
        → link_of_item (item_after site before lost.key) ≡ Some (link_to class number)
        → (passed : List ℕ) × StandsAt history place (evicted_as lost.who number passed (length before)) }
    ensures expired { (site : Site) (rule : Rule) (class : ClassNo) (stripe : List StripeEvent) (history : List ClassEvent)
        → AreEvidence site rule class stripe history
        → (before : List StripeEvent) (lost : Lost) (number moment : ℕ) → Stands stripe before (items.Lost lost) → lost.cause ≡ Expired moment
        → link_of_item (item_after site before lost.key) ≡ Some (link_to class number)
        → Occurs history (reclaimed_as lost.who number moment (length before)) }
    ensures cooled { (site : Site) (rule : Rule) (class : ClassNo) (stripe : List StripeEvent) (history : List ClassEvent)
        → AreEvidence site rule class stripe history
        → (before : List StripeEvent) (cooled : Cooled) (number : ℕ) → Stands stripe before (items.Cooled cooled)
        → link_of_item (item_after site before cooled.key) ≡ Some (link_to class number)
        → Has entries.Shifted history (λ behind e. ClearsAt cooled.who number (length before) e) }
    ensures refused { (site : Site) (rule : Rule) (class : ClassNo) (stripe : List StripeEvent) (history : List ClassEvent)
        → AreEvidence site rule class stripe history
        → (before : List StripeEvent) (did : Did) (place : ℕ) → Stands stripe before (items.Did did) → did.room ≡ rooms.Refused class place
        → StandsAt history place (entries.Refused (record { who = did.who })) }
{}

/// Each event of a class, if its entry has a key of the stripe, finds its partner in the stripe's history, by the same call.
/// A new entry finds the command that left its item, and an unlinked one the command that took its link away. An eviction or a
/// reclaiming finds its loss, and a move that clears a mark its cooling, at the place that it cites.
pub fn each_event_of_a_class_finds_its_partner()
    ensures linked { (site : Site) (rule : Rule) (class : ClassNo) (stripe : List StripeEvent) (history : List ClassEvent)
        → AreEvidence site rule class stripe history
        → (behind : List ClassEvent) (e : Linked) → Stands history behind (entries.Linked e) → IsKeyOf site e.key
        → Has items.Did stripe (λ before did. (did.room ≡ rooms.At (link_to class e.number))
        × IsSomeAnd (item_after site (before ++ items.Did did ∷ []) (key_of did.command)) (λ item. e ≡ linked_for rule e.number did item)) }
    ensures unlinked { (site : Site) (rule : Rule) (class : ClassNo) (stripe : List StripeEvent) (history : List ClassEvent)
        → AreEvidence site rule class stripe history
        → (behind : List ClassEvent) (e : Unlinked) (seg : Seg) (entry : Entry) → Stands history behind (entries.Unlinked e)
        → found e.number (lists_of behind) ≡ Some (seg, entry) → IsKeyOf site entry.key
        → Has items.Did stripe (λ before did. TakesAway site class before entry.key e did) }
    ensures evicted { (site : Site) (rule : Rule) (class : ClassNo) (stripe : List StripeEvent) (history : List ClassEvent)
        → AreEvidence site rule class stripe history
        → (behind : List ClassEvent) (e : Evicted) (seg : Seg) (entry : Entry) → Stands history behind (entries.Evicted e)
        → found e.number (lists_of behind) ≡ Some (seg, entry) → IsKeyOf site entry.key
        → StandsFor site class stripe e.at entry.key e.number (lost_to class e.who entry.key (length behind)) }
    ensures reclaimed { (site : Site) (rule : Rule) (class : ClassNo) (stripe : List StripeEvent) (history : List ClassEvent)
        → AreEvidence site rule class stripe history
        → (behind : List ClassEvent) (e : Reclaimed) (seg : Seg) (entry : Entry) → Stands history behind (entries.Reclaimed e)
        → found e.number (lists_of behind) ≡ Some (seg, entry) → IsKeyOf site entry.key
        → StandsFor site class stripe e.at entry.key e.number (lost_at e.who entry.key e.moment) }
    ensures shifted { (site : Site) (rule : Rule) (class : ClassNo) (stripe : List StripeEvent) (history : List ClassEvent)
        → AreEvidence site rule class stripe history
        → (behind : List ClassEvent) (e : Shifted) (seg : Seg) (entry : Entry) → Stands history behind (entries.Shifted e) → ClearsMark e.why
        → found e.number (lists_of behind) ≡ Some (seg, entry) → IsKeyOf site entry.key
        → StandsFor site class stripe e.at entry.key e.number (cooled_as e.who entry.key) }
{}
