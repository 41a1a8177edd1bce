//! Laws of what no reply shows: dead items, and ACTIVE marks that are cleared. A moment is a time in seconds.
ghost use Rattle.std.specs.Prelude.{◌≡◌, ◌≤◌, ◌++◌, ◌∷◌, [], List, ℕ, None};
ghost use Rattle.mc_item.specs.{Answer.row_of, Cache.Cache, Cache.after_change, Cache.answer_of, Cache.visible_items, Command.key_of};
ghost use Rattle.mc_item.specs.Stripe.{IsDead, IsLegal, cache_after, cache_from, cache_of};
ghost use Rattle.mc_item.specs.declared.{answer.Change.TheVariants.Goes, answer.Site.Site, command.Command.Command, reply.Room.Room};
ghost use Rattle.mc_item.specs.declared.{stripe_event.Cooled.Cooled, stripe_event.Did.Did, stripe_event.StripeEvent.StripeEvent};
ghost use Rattle.mc_item.specs.declared.stripe_event.StripeEvent.TheVariants as events;
ghost use Rattle.mc_laws.specs.Events.{NoneAsks};

/// Removing an item that is dead at a moment changes nothing that is visible at that moment or later.
pub fn forgetting_the_dead_shows_nothing()
    ensures { (cache : Cache) (key any : List ℕ) (moment later : ℕ) → IsDead (cache.items key) moment → moment ≤ later
        → visible_items (after_change cache key Goes) later any ≡ visible_items cache later any }
{}

/// If an item is dead at a moment, the next command on its key, at that moment or later, is answered as without an item.
pub fn the_dead_answer_as_the_absent()
    ensures { (site : Site) (before between : List StripeEvent) (did : Did) (key : List ℕ) (moment : ℕ)
        → IsDead ((cache_of site before).items key) moment → moment ≤ did.moment → key_of did.command ≡ key
        → NoneAsks key between → IsLegal site (before ++ (between ++ events.Did did ∷ []))
        → did.reply ≡ ((row_of site (cache_of site (before ++ between)).versions None did.command did.moment).answer did.room).reply }
{}

/// Cooling an item (clearing ACTIVE) changes no later reply and nothing that a later command needs, whatever happens in between.
pub fn cooling_shows_nothing()
    ensures { (site : Site) (cache : Cache) (cooled : Cooled) (later : List StripeEvent) (command : Command) (moment : ℕ) (room : Room)
        → let warm = cache_from site cache later in
        let cool = cache_from site (cache_after site cache (events.Cooled cooled)) later in
        ((answer_of site cool command moment room).reply ≡ (answer_of site warm command moment room).reply)
        × ((row_of site cool.versions (cool.items (key_of command)) command moment).need
        ≡ (row_of site warm.versions (warm.items (key_of command)) command moment).need) }
{}
