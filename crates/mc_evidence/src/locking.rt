//! Each judgement and each command keeps the invariants of a stripe's and a class's lock (`StripeKeeps`, `ClassKeeps`). Each lock
//! must have seen the other's whole history after it.
ghost use Rattle.std.specs.Prelude.{IsSomeAnd, List, Some, [], length, true, ℕ, ◌++◌, ◌<◌, ◌∷◌, ◌≡◌};
ghost use mathlib.Core.List.{IsPrefix};
ghost use Rattle.mc_item.specs.{Command.key_of, Stripe.IsDead, Stripe.MayDo, Stripe.cache_of};
ghost use Rattle.mc_item.specs.declared.{class_event.ClassEvent.ClassEvent, class_event.Limited.Limited, class_event.Linked.Linked};
ghost use Rattle.mc_item.specs.declared.{class_event.Refused.Refused, class_event.Shifted.Shifted, class_event.Surveyed.Surveyed};
ghost use Rattle.mc_item.specs.declared.{class_event.Unlinked.Unlinked, item.ClassNo.ClassNo, item.Link.Link, item.Who.Who, lists.Entry.Entry};
ghost use Rattle.mc_item.specs.declared.{lists.Seg.Seg, stripe_event.Did.Did, stripe_event.StripeEvent.StripeEvent};
ghost use Rattle.mc_item.specs.declared.class_event.ClassEvent.TheVariants as entries;
ghost use Rattle.mc_item.specs.declared.reply.Room.TheVariants as rooms;
ghost use Rattle.mc_item.specs.declared.stripe_event.StripeEvent.TheVariants as items;
ghost use Rattle.mc_rule.specs.{Belonging.Belong, Belonging.HasItem, Belonging.IsEntryOf, Evidence.AreEvidence, Lawful.IsLawfulByLists, Lawful.SuitsMove};
ghost use Rattle.mc_rule.specs.{Lists.found, Lists.linked, Lists.lists_of, Lists.moved, Lists.unlinked, Places.Has};
ghost use Rattle.mc_rule.specs.Pairs.{ClearsMark, IsKeyOf, IsLinking, IsRefusal, IsUnlinking, LetsGo, item_after};
ghost use Rattle.mc_evidence.specs.Locks.{AreHeld, AreLentTogether, ClassKeeps, KeepBoth, SeesMore, StripeKeeps};
ghost use Rattle.mc_evidence.specs.{Made.cooled_as, Made.evicted_as, Made.lost_at, Made.lost_to, Made.reclaimed_as, Setting.Setting, Setting.site_in};

/// A lock's invariant holds for an empty history.
pub fn locks_begin()
    ensures stripe { (setting : Setting) (s : ℕ) (seen : ClassNo → List ClassEvent) → StripeKeeps setting s [] seen }
    ensures class { (setting : Setting) (class : ClassNo) (seen : ℕ → List StripeEvent) → ClassKeeps setting class [] seen }
{}

/// The histories of a stripe and a class that are lent together are evidence of each other.
pub fn lent_states_are_evidence()
    ensures { (setting : Setting) (s : ℕ) (class : ClassNo) (stripe : List StripeEvent) (history : List ClassEvent) (seen : ClassNo
        → List ClassEvent) (seen_of : ℕ → List StripeEvent)
        → AreLentTogether setting s class stripe history seen seen_of → AreEvidence (site_in setting s) setting.rule class stripe history }
{}

/// If a class is lent together with the stripe of an entry's key, the stripe has the entry's item, with its link and its cost.
pub fn a_judged_entry_is_no_stranger()
    ensures { (setting : Setting) (s : ℕ) (class : ClassNo) (stripe : List StripeEvent) (history : List ClassEvent) (seen : ClassNo
        → List ClassEvent) (seen_of : ℕ → List StripeEvent)
        → AreLentTogether setting s class stripe history seen seen_of
        → (number : ℕ) (seg : Seg) (entry : Entry) → found number (lists_of history) ≡ Some (seg, entry) → IsKeyOf (site_in setting s) entry.key
        → HasItem (site_in setting s) class stripe number entry }
{}

/// Each outcome of a judgement keeps the locks' invariants: an eviction or a reclaiming with its loss, and a move, with its
/// cooling if it clears a mark. For a cooling, what the class had seen of the stripe must be a beginning of its history.
pub fn a_judgement_keeps_both_locks()
    ensures evicted { (setting : Setting) (s : ℕ) (class : ClassNo) (stripe : List StripeEvent) (history : List ClassEvent) (seen more : ClassNo
        → List ClassEvent) (seen_of more_of : ℕ → List StripeEvent)
        → AreHeld setting s class stripe history seen more seen_of more_of
        → (who : Who) (key passed : List ℕ) (number : ℕ) → Belong (site_in setting s) class stripe history key number → IsKeyOf (site_in setting s) key
        → IsLawfulByLists (setting.chunks class) setting.rule history (evicted_as who number passed (length stripe))
        → KeepBoth setting s class stripe history (lost_to class who key (length history)) (evicted_as who number passed (length stripe)) more more_of }
    ensures reclaimed { (setting : Setting) (s : ℕ) (class : ClassNo) (stripe : List StripeEvent) (history : List ClassEvent) (seen more : ClassNo
        → List ClassEvent) (seen_of more_of : ℕ → List StripeEvent)
        → AreHeld setting s class stripe history seen more seen_of more_of
        → (who : Who) (key : List ℕ) (number moment : ℕ) → Belong (site_in setting s) class stripe history key number
        → IsDead (item_after (site_in setting s) stripe key) moment → IsKeyOf (site_in setting s) key
        → IsLawfulByLists (setting.chunks class) setting.rule history (reclaimed_as who number moment (length stripe))
        → KeepBoth setting s class stripe history (lost_at who key moment) (reclaimed_as who number moment (length stripe)) more more_of }
    ensures cooled { (setting : Setting) (s : ℕ) (class : ClassNo) (stripe : List StripeEvent) (history : List ClassEvent) (seen more : ClassNo
        → List ClassEvent) (seen_of more_of : ℕ → List StripeEvent)
        → AreHeld setting s class stripe history seen more seen_of more_of
        → s < setting.stripes → IsPrefix (seen_of s) stripe
        → (key : List ℕ) (e : Shifted) → ClearsMark e.why → e.at ≡ length stripe → Belong (site_in setting s) class stripe history key e.number
        → IsSomeAnd (item_after (site_in setting s) stripe key) (λ item. item.marks.active ≡ true)
        → IsSomeAnd (item_after (site_in setting s) stripe key) (SuitsMove e.why e.moment) → IsKeyOf (site_in setting s) key
        → IsLawfulByLists (setting.chunks class) setting.rule history (entries.Shifted e)
        → KeepBoth setting s class stripe history (cooled_as e.who key) (entries.Shifted e) more more_of }
    ensures moved { (setting : Setting) (s : ℕ) (class : ClassNo) (stripe : List StripeEvent) (history : List ClassEvent) (seen_of more_of : ℕ
        → List StripeEvent)
        → ClassKeeps setting class history seen_of → SeesMore seen_of more_of
        → (key : List ℕ) (e : Shifted) → (ClearsMark e.why → ⊥) → e.at ≡ length stripe → Belong (site_in setting s) class stripe history key e.number
        → IsSomeAnd (item_after (site_in setting s) stripe key) (SuitsMove e.why e.moment) → IsKeyOf (site_in setting s) key
        → IsLawfulByLists (setting.chunks class) setting.rule history (entries.Shifted e)
        → more_of s ≡ stripe → ClassKeeps setting class (history ++ entries.Shifted e ∷ []) more_of }
{}

/// A command keeps the invariant of its stripe's lock, if the lock has seen the command's partners. These are its new entry, the
/// event that took the old entry out, and its refusal.
pub fn a_command_keeps_its_stripe()
    ensures { (setting : Setting) (s : ℕ) (stripe : List StripeEvent) (seen more : ClassNo → List ClassEvent) → StripeKeeps setting s stripe seen
        → SeesMore seen more
        → (did : Did) → MayDo (site_in setting s) (cache_of (site_in setting s) stripe) stripe did
        → ((link : Link) → did.room ≡ rooms.At link
        → Has entries.Linked (more link.class) (λ behind e. IsLinking (site_in setting s) setting.rule link.class stripe did e))
        → ((link : Link) → LetsGo (site_in setting s) stripe did link → Has entries.Unlinked (more link.class)
        (λ behind e. IsUnlinking (site_in setting s) link.class stripe did e))
        → ((c : ClassNo) (place : ℕ) → did.room ≡ rooms.Refused c place → Has entries.Refused (more c) (λ behind e. IsRefusal c did behind e))
        → StripeKeeps setting s (stripe ++ items.Did did ∷ []) more }
{}

/// A command's events in a class keep the invariant of the class's lock, if the lock has seen the command in its stripe. Surveys,
/// refusals and new limits keep it too.
pub fn a_command_keeps_its_classes()
    ensures linked { (setting : Setting) (s : ℕ) (class : ClassNo) (stripe : List StripeEvent) (history : List ClassEvent) (seen_of more_of : ℕ
        → List StripeEvent)
        → ClassKeeps setting class history seen_of → SeesMore seen_of more_of
        → (did : Did) (e : Linked) → IsLinking (site_in setting s) setting.rule class stripe did e → IsKeyOf (site_in setting s) e.key
        → IsLawfulByLists (setting.chunks class) setting.rule history (entries.Linked e)
        → more_of s ≡ stripe ++ items.Did did ∷ [] → ClassKeeps setting class (history ++ entries.Linked e ∷ []) more_of }
    ensures unlinked { (setting : Setting) (s : ℕ) (class : ClassNo) (stripe : List StripeEvent) (history : List ClassEvent) (seen_of more_of : ℕ
        → List StripeEvent)
        → ClassKeeps setting class history seen_of → SeesMore seen_of more_of
        → (did : Did) (e : Unlinked) → IsUnlinking (site_in setting s) class stripe did e → IsEntryOf history e.number (key_of did.command)
        → IsKeyOf (site_in setting s) (key_of did.command) → IsLawfulByLists (setting.chunks class) setting.rule history (entries.Unlinked e)
        → more_of s ≡ stripe ++ items.Did did ∷ [] → ClassKeeps setting class (history ++ entries.Unlinked e ∷ []) more_of }
    ensures surveyed { (setting : Setting) (class : ClassNo) (history : List ClassEvent) (seen_of more_of : ℕ → List StripeEvent)
        → ClassKeeps setting class history seen_of → SeesMore seen_of more_of
        → (e : Surveyed) → IsLawfulByLists (setting.chunks class) setting.rule history (entries.Surveyed e)
        → ClassKeeps setting class (history ++ entries.Surveyed e ∷ []) more_of }
    ensures refused { (setting : Setting) (class : ClassNo) (history : List ClassEvent) (seen_of more_of : ℕ → List StripeEvent)
        → ClassKeeps setting class history seen_of → SeesMore seen_of more_of
        → (e : Refused) → IsLawfulByLists (setting.chunks class) setting.rule history (entries.Refused e)
        → ClassKeeps setting class (history ++ entries.Refused e ∷ []) more_of }
    ensures limit { (setting : Setting) (class : ClassNo) (history : List ClassEvent) (seen_of more_of : ℕ → List StripeEvent)
        → ClassKeeps setting class history seen_of → SeesMore seen_of more_of
        → (e : Limited) → IsLawfulByLists (setting.chunks class) setting.rule history (entries.Limited e)
        → ClassKeeps setting class (history ++ entries.Limited e ∷ []) more_of }
{}

/// A command that replaces an item by one of the same class keeps the invariants of both locks. It links the new entry first,
/// then unlinks the old one.
pub fn a_replacement_keeps_both_locks()
    ensures { (setting : Setting) (s : ℕ) (class : ClassNo) (stripe : List StripeEvent) (history : List ClassEvent) (seen more : ClassNo
        → List ClassEvent) (seen_of more_of : ℕ → List StripeEvent)
        → AreHeld setting s class stripe history seen more seen_of more_of
        → (did : Did) (e : Linked) (x : Unlinked) → MayDo (site_in setting s) (cache_of (site_in setting s) stripe) stripe did
        → IsLinking (site_in setting s) setting.rule class stripe did e → IsUnlinking (site_in setting s) class stripe did x
        → IsEntryOf history x.number (key_of did.command) → IsLawfulByLists (setting.chunks class) setting.rule history (entries.Linked e)
        → more class ≡ (history ++ entries.Linked e ∷ []) ++ entries.Unlinked x ∷ [] → more_of s ≡ stripe ++ items.Did did ∷ []
        → StripeKeeps setting s (stripe ++ items.Did did ∷ []) more
        × ClassKeeps setting class ((history ++ entries.Linked e ∷ []) ++ entries.Unlinked x ∷ []) more_of }
{}
