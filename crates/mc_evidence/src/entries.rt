//! The law that items are exactly entries, for a stripe and a slab class that are evidence of each other.
ghost use Rattle.std.specs.Prelude.{List, Some, ℕ, ◌≡◌, ◌≤◌};
ghost use Rattle.mc_item.specs.Stripe.{IsLegal};
ghost use Rattle.mc_item.specs.declared.{answer.Site.Site, class_event.ClassEvent.ClassEvent, item.ClassNo.ClassNo, item.Item.Item, lists.Entry.Entry};
ghost use Rattle.mc_item.specs.declared.{lists.Seg.Seg, stripe_event.StripeEvent.StripeEvent};
ghost use Rattle.mc_rule.specs.{Belonging.HasEntry, Belonging.HasItem, Evidence.AreEvidence, Lawful.IsLawfulHistoryByLists, Lists.found, Lists.lists_of};
ghost use Rattle.mc_rule.specs.{Lists.times_in, Pairs.IsKeyOf, Pairs.item_after, Segment.Rule};

/// Items are exactly entries, with the same number, key and cost. An item with a link of the class has its entry there. An entry
/// with a key of the stripe has its item. A number is in the four lists at most once.
pub fn items_are_exactly_entries()
    ensures items { (site : Site) (rule : Rule) (class : ClassNo) (chunks : ℕ) (stripe : List StripeEvent) (history : List ClassEvent)
        → IsLegal site stripe → IsLawfulHistoryByLists chunks rule history → AreEvidence site rule class stripe history
        → (key : List ℕ) (item : Item) → item_after site stripe key ≡ Some item → item.link.class ≡ class → HasEntry history key item }
    ensures entries { (site : Site) (rule : Rule) (class : ClassNo) (chunks : ℕ) (stripe : List StripeEvent) (history : List ClassEvent)
        → IsLegal site stripe → IsLawfulHistoryByLists chunks rule history → AreEvidence site rule class stripe history
        → (number : ℕ) (seg : Seg) (entry : Entry) → found number (lists_of history) ≡ Some (seg, entry) → IsKeyOf site entry.key
        → HasItem site class stripe number entry }
    ensures once { (rule : Rule) (chunks : ℕ) (history : List ClassEvent) (number : ℕ) → IsLawfulHistoryByLists chunks rule history
        → times_in number (lists_of history) ≤ 1 }
{}
