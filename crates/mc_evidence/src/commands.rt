//! Laws about a stripe's command and links: the new entry that it needs, and when it gets no link or takes none away.
ghost use Rattle.std.specs.Prelude.{IsSomeAnd, List, None, [], false, ℕ, ◌++◌, ◌^◌, ◌∷◌, ◌≡◌, ◌≤◌};
ghost use Rattle.mc_item.specs.{Command.key_of, Config.IsSound, Measure.cost_of, Stripe.IsUnnamed, Stripe.MayDo, Stripe.cache_of};
ghost use Rattle.mc_item.specs.declared.{answer.Site.Site, class_event.ClassEvent.ClassEvent, config.Config.Config, item.ClassNo.ClassNo, item.Link.Link};
ghost use Rattle.mc_item.specs.declared.{stripe_event.Did.Did, stripe_event.StripeEvent.StripeEvent};
ghost use Rattle.mc_item.specs.declared.reply.Reply.TheVariants as replies;
ghost use Rattle.mc_item.specs.declared.reply.Room.TheVariants as rooms;
ghost use Rattle.mc_item.specs.declared.stripe_event.StripeEvent.TheVariants as items;
ghost use Rattle.mc_rule.specs.{Evidence.HasTrace, Lawful.is_named, Pairs.IsLinking, Pairs.LetsGo, Pairs.item_after, Pairs.link_to, Places.Each, Segment.Rule};
ghost use Rattle.mc_evidence.specs.{Made.linked_for, Small.AreSmall, Small.IsReader};

/// A command that was given a chunk leaves an item, and the new entry for that item is the command's partner.
pub fn the_new_entry_is_a_partner()
    ensures { (site : Site) (rule : Rule) (class : ClassNo) (number : ℕ) (stripe : List StripeEvent) (did : Did)
        → MayDo site (cache_of site stripe) stripe did → did.room ≡ rooms.At (link_to class number)
        → IsSomeAnd (item_after site (stripe ++ items.Did did ∷ []) (key_of did.command))
        (λ item. IsLinking site rule class stripe did (linked_for rule number did item)) }
{}

/// With a checked configuration, whatever fits a class costs at most 2^20 bytes.
pub fn a_checked_configuration_has_small_sizes()
    ensures { (config : Config) → IsSound config → AreSmall config.sizes }
{}

/// A command that was given a chunk leaves an item that costs at most 2^20 bytes, if that is the most that fits a class.
pub fn a_new_item_is_small()
    ensures { (site : Site) (stripe : List StripeEvent) (did : Did) (link : Link) → AreSmall site.sizes
        → MayDo site (cache_of site stripe) stripe did → did.room ≡ rooms.At link
        → IsSomeAnd (item_after site (stripe ++ items.Did did ∷ []) (key_of did.command)) (λ item. cost_of (key_of did.command) item.value ≤ 2 ^ 20) }
{}

/// If a class has the partners of a stripe's events, no link of the class that the stripe names has a number that the
/// class never named.
pub fn new_numbers_are_unnamed()
    ensures { (site : Site) (rule : Rule) (class : ClassNo) (n : ℕ) (stripe : List StripeEvent) (history : List ClassEvent)
        → Each (HasTrace site rule class history) stripe → is_named n history ≡ false → IsUnnamed (link_to class n) stripe }
{}

/// A get, a gat or a touch takes no link away, nor does a command that finds no item.
pub fn readers_spare_links()
    ensures reads { (site : Site) (stripe : List StripeEvent) (did : Did) (link : Link) → IsReader did.command → LetsGo site stripe did link → ⊥ }
    ensures absent { (site : Site) (stripe : List StripeEvent) (did : Did) (link : Link) → item_after site stripe (key_of did.command) ≡ None
        → LetsGo site stripe did link → ⊥ }
{}

/// A command with the reply `NoRoom` cites a refusal of a class.
pub fn a_command_without_room_was_refused()
    ensures { (site : Site) (stripe : List StripeEvent) (did : Did) → MayDo site (cache_of site stripe) stripe did → did.reply ≡ replies.NoRoom
        → (class : ClassNo) × (place : ℕ) × (did.room ≡ rooms.Refused class place) }
{}
