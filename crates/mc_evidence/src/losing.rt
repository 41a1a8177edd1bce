//! Between two commands of a stripe, items are only removed, each by a loss that has its cause.
ghost use Rattle.std.specs.Prelude.{IsSomeAnd, List, None, Some, false, ℕ, ◌++◌, ◌≡◌};
ghost use Rattle.mc_item.specs.{Cache.visible_items, Item.is_dead, Stripe.IsLegal, Stripe.cache_of};
ghost use Rattle.mc_item.specs.declared.{answer.Site.Site, class_event.ClassEvent.ClassEvent, item.ClassNo.ClassNo, item.Item.Item};
ghost use Rattle.mc_item.specs.declared.{stripe_event.StripeEvent.StripeEvent};
ghost use Rattle.mc_rule.specs.{Evidence.AreEvidence, Lawful.IsLawfulHistoryByLists, Lists.IsFull, Pairs.item_after, Segment.Rule};
ghost use Rattle.mc_evidence.specs.Losses.{AreNoCommands, IsSameItem, WasLost};

/// If no command comes between, each item that is visible afterwards at a moment was visible before, at that moment. It is the
/// same except for its marks.
pub fn between_commands_items_only_go()
    ensures { (site : Site) (before between : List StripeEvent) (key : List ℕ) (item : Item) (moment : ℕ) → AreNoCommands between
        → visible_items (cache_of site (before ++ between)) moment key ≡ Some item
        → IsSomeAnd (visible_items (cache_of site before) moment key) (λ old. IsSameItem old item) }
{}

/// If an item was there and is no longer, with no command between, its loss is in between and had its cause. Either it was dead
/// at the loss's moment, or the same call evicted its entry, at the place that the loss cites, near COLD's tail in a full class.
pub fn each_loss_has_its_cause()
    ensures { (site : Site) (rule : Rule) (chunks : ClassNo → ℕ) (classes : ClassNo
        → List ClassEvent) (before between later : List StripeEvent) (key : List ℕ) (item : Item)
        → IsLegal site (before ++ (between ++ later)) → AreNoCommands between
        → AreEvidence site rule item.link.class (before ++ (between ++ later)) (classes item.link.class)
        → IsLawfulHistoryByLists (chunks item.link.class) rule (classes item.link.class)
        → item_after site before key ≡ Some item → item_after site (before ++ between) key ≡ None
        → WasLost chunks classes between key item }
{}

/// An item that never dies stays, the same except for its marks, as long as no command comes and its class is never full, by its
/// limit of chunks at that time.
pub fn a_living_item_stays_while_chunks_are_free()
    ensures { (site : Site) (rule : Rule) (chunks : ClassNo → ℕ) (classes : ClassNo
        → List ClassEvent) (before between later : List StripeEvent) (key : List ℕ) (item : Item)
        → IsLegal site (before ++ (between ++ later)) → AreNoCommands between
        → AreEvidence site rule item.link.class (before ++ (between ++ later)) (classes item.link.class)
        → IsLawfulHistoryByLists (chunks item.link.class) rule (classes item.link.class)
        → item_after site before key ≡ Some item → ((moment : ℕ) → is_dead item moment ≡ false)
        → ((behind more : List ClassEvent) → classes item.link.class ≡ behind ++ more → IsFull (chunks item.link.class) behind → ⊥)
        → IsSomeAnd (item_after site (before ++ between) key) (λ now. IsSameItem item now) }
{}
