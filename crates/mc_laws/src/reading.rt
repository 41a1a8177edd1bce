//! Laws of what is read: what changes an item, and where a value comes from.
ghost use Rattle.std.specs.Prelude.{◌≡◌, ◌≢◌, ◌++◌, ◌∷◌, [], List, ℕ, ℤ, IsSomeAnd};
ghost use Rattle.mc_item.specs.{Answer.cas_of, Cache.Cache, Cache.after_command, Command.key_of, Stripe.IsLegal, Stripe.cache_of};
ghost use Rattle.mc_item.specs.declared.{answer.Site.Site, command.Command.Command, reply.Room.Room, stripe_event.Did.Did};
ghost use Rattle.mc_item.specs.declared.{stripe_event.StripeEvent.StripeEvent};
ghost use Rattle.mc_item.specs.declared.command.Command.TheVariants as commands;
ghost use Rattle.mc_item.specs.declared.command.Verb.TheVariants as verbs;
ghost use Rattle.mc_item.specs.declared.reply.Reply.TheVariants as replies;
ghost use Rattle.mc_item.specs.declared.stripe_event.StripeEvent.TheVariants as events;
ghost use Rattle.mc_laws.specs.{Events.AreOfOtherKeys, Versions.HoldsThroughout, Versions.Wrote};

/// A command on one key leaves every other key's item as it was.
pub fn other_keys_stay()
    ensures { (site : Site) (cache : Cache) (command : Command) (moment : ℕ) (room : Room) (other : List ℕ) → (key_of command ≢ other)
        → (after_command site cache command moment room).items other ≡ cache.items other }
{}

/// If only events of other keys follow a set that replied `Stored`, a get of the key returns its flags and value. The cas number
/// is that of the set's version.
pub fn set_is_read_back()
    ensures { (site : Site) (before between : List StripeEvent) (set got : Did) (key value : List ℕ) (flags : ℕ) (exptime : ℤ)
        → set.command ≡ commands.Store verbs.Set key flags exptime value → set.reply ≡ replies.Stored
        → AreOfOtherKeys key between → got.command ≡ commands.Get key
        → IsLegal site (before ++ events.Did set ∷ (between ++ events.Did got ∷ []))
        → got.reply ≡ replies.Value flags value (cas_of site (cache_of site before).versions) }
{}

/// An append that replied `Stored` found an item. If only events of other keys follow it, a get of the key returns that item's
/// flags, and its value with the append's data behind it. The cas number is that of the append's version.
pub fn append_is_read_back()
    ensures { (site : Site) (before between : List StripeEvent) (joined got : Did) (key added : List ℕ) (flags : ℕ) (exptime : ℤ)
        → joined.command ≡ commands.Store verbs.Append key flags exptime added → joined.reply ≡ replies.Stored
        → AreOfOtherKeys key between → got.command ≡ commands.Get key
        → IsLegal site (before ++ events.Did joined ∷ (between ++ events.Did got ∷ []))
        → IsSomeAnd ((cache_of site before).items key)
        (λ item. got.reply ≡ replies.Value item.flags (item.value ++ added) (cas_of site (cache_of site before).versions)) }
{}

/// A value that a get returns was written by an earlier command on its key. From then until the get, the key held just these
/// flags, this value and this cas number.
pub fn a_value_is_that_of_its_last_version()
    ensures { (site : Site) (before : List StripeEvent) (got : Did) (key value : List ℕ) (flags cas : ℕ)
        → got.command ≡ commands.Get key → got.reply ≡ replies.Value flags value cas
        → IsLegal site (before ++ events.Did got ∷ [])
        → (earlier later : List StripeEvent) × (wrote : Did) × (before ≡ earlier ++ events.Did wrote ∷ later) × (key_of wrote.command ≡ key)
        × Wrote ((cache_of site earlier).items key) wrote.command wrote.reply flags value
        × HoldsThroughout site (cache_of site (earlier ++ events.Did wrote ∷ [])) later key flags value cas }
{}
