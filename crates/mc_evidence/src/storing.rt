//! Laws about all stripes and classes of a store together.
ghost use Rattle.std.specs.Prelude.{List, None, Some, ℕ, ◌++◌, ◌<◌, ◌≡◌, ◌≤◌};
ghost use Rattle.mc_item.specs.Measure.{stripe_of};
ghost use Rattle.mc_item.specs.declared.{class_event.ClassEvent.ClassEvent, item.ClassNo.ClassNo, item.Item.Item, lists.Entry.Entry, lists.Seg.Seg};
ghost use Rattle.mc_item.specs.declared.{stripe_event.StripeEvent.StripeEvent};
ghost use Rattle.mc_rule.specs.{Belonging.HasEntry, Belonging.HasItem, Lists.found, Lists.lists_of, Lists.times_in, Pairs.item_after};
ghost use Rattle.mc_evidence.specs.{Locks.ClassKeeps, Locks.HaveSeen, Locks.StripeKeeps, Losses.AreNoCommands, Losses.WasLost, Setting.IsClass};
ghost use Rattle.mc_evidence.specs.{Setting.Setting, Setting.site_in, Sound.IsSoundStore};

/// If each lock's invariant holds, and each has seen a beginning of the others' histories, the whole store is sound.
pub fn locks_keep_a_sound_store()
    ensures { (setting : Setting) (stripes : ℕ → List StripeEvent) (classes : ClassNo → List ClassEvent)
        (seen : ℕ → ClassNo → List ClassEvent) (seen_of : ClassNo → ℕ → List StripeEvent) → 0 < setting.stripes
        → ((s : ℕ) → s < setting.stripes → StripeKeeps setting s (stripes s) (seen s))
        → ((class : ClassNo) → IsClass setting class → ClassKeeps setting class (classes class) (seen_of class))
        → ((s : ℕ) (class : ClassNo) → s < setting.stripes → IsClass setting class → HaveSeen (seen s class) (classes class) (seen_of class s) (stripes s))
        → IsSoundStore setting stripes classes }
{}

/// In a sound store items are exactly entries. Each item has its entry in the class of its link, which is one of the store's.
/// Each entry has its item in the stripe of its key. Each number is in its class at most once.
pub fn a_sound_store_has_items_exactly_as_entries()
    ensures items { (setting : Setting) (stripes : ℕ → List StripeEvent) (classes : ClassNo → List ClassEvent) → IsSoundStore setting stripes classes
        → (s : ℕ) (key : List ℕ) (item : Item) → s < setting.stripes → item_after (site_in setting s) (stripes s) key ≡ Some item
        → IsClass setting item.link.class × HasEntry (classes item.link.class) key item }
    ensures entries { (setting : Setting) (stripes : ℕ → List StripeEvent) (classes : ClassNo → List ClassEvent) → IsSoundStore setting stripes classes
        → (class : ClassNo) (number : ℕ) (seg : Seg) (entry : Entry) → IsClass setting class → found number (lists_of (classes class)) ≡ Some (seg, entry)
        → let s = (stripe_of entry.key setting.stripes).0 in
        (s < setting.stripes) × HasItem (site_in setting s) class (stripes s) number entry }
    ensures once { (setting : Setting) (stripes : ℕ → List StripeEvent) (classes : ClassNo → List ClassEvent) → IsSoundStore setting stripes classes
        → (class : ClassNo) (number : ℕ) → IsClass setting class → times_in number (lists_of (classes class)) ≤ 1 }
{}

/// In a sound store, if an item was there and is no longer, with no command between, its loss is in between and had its cause.
pub fn in_a_sound_store_each_loss_has_its_cause()
    ensures { (setting : Setting) (stripes : ℕ → List StripeEvent) (classes : ClassNo → List ClassEvent) → IsSoundStore setting stripes classes
        → (s : ℕ) (before between later : List StripeEvent) (key : List ℕ) (item : Item) → s < setting.stripes
        → stripes s ≡ before ++ (between ++ later) → AreNoCommands between
        → item_after (site_in setting s) before key ≡ Some item → item_after (site_in setting s) (before ++ between) key ≡ None
        → WasLost setting.chunks classes between key item }
{}
