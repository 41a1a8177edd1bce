//! The README's headline, said of a closed store: laws, which are contracts without code.
ghost use Rattle.std.specs.Prelude.{◌≡◌, ◌<◌, ◌≤◌, ◌+◌, ◌++◌, ℕ, List, IsSomeAnd, None, Some, ◌∷◌, length, slice_get, take};
ghost use Rattle.mc_item.specs.{Cache.visible_items, Stripe.IsDead, Stripe.cache_of};
ghost use Rattle.mc_item.specs.declared.{call_event.CallEvent.CallEvent, class_event.ClassEvent.ClassEvent, command.Command.Command, config.Config.Config};
ghost use Rattle.mc_item.specs.declared.{item.ClassNo.ClassNo, item.Item.Item, reply.Reply.Reply, stripe_event.StripeEvent.StripeEvent};
ghost use Rattle.mc_item.specs.declared.{stripe_event.Cause.TheVariants.Expired, stripe_event.Cause.TheVariants.Taken, stripe_event.Did.Did};
ghost use Rattle.mc_item.specs.declared.{stripe_event.Lost.Lost};
ghost use Rattle.mc_item.specs.declared.stripe_event.StripeEvent.TheVariants as events;
ghost use Rattle.mc_rule.specs.{Figures.figures_of_lists, Lists.lists_of, Pairs.item_after, Places.Stands};
ghost use Rattle.mc_evidence.specs.{Losses.AreNoCommands, Losses.IsSameItem, Losses.WasLost, Setting.IsClass, Setting.site_in, Sound.IsSoundStore};
ghost use Rattle.mc_board.specs.{Accounts.maker_of, Accounts.who_of, Histories.Grows};
ghost use Rattle.mc_board.specs.declared.rule.{Note.Note, Sight.Sight};
ghost use Rattle.mc_store.specs.{Calls.IsRepliedBy, Headline.IsBorneOut, Locked.class_lock, Locked.setting_of, Passes.PassView, Passes.next_who};
ghost use Rattle.mc_store.specs.Callers.{HasNoAnswer, IsBegun, IsCalled, moment_of, turns_of};
ghost use Rattle.mc_store.specs.{Made.IsBegunForChunk, Made.WasCalled, Sides.ClassSide, Sides.StripeSide};
ghost use Rattle.mc_store.specs.Finals.{AreClasses, AreItsOwn, AreItsOwnInClasses, AreStripes, FinalView, HasNoDid};
ghost use Rattle.mc_store.specs.Finals.{IsBehindClasses, IsBehindStripes, class_histories, stripe_histories};

/// A closed store bears out each reply to a pass's command. The stripe's final history is legal, and has the command with this
/// reply in one event, after all that the pass had seen of the stripe before the call.
/// It holds if what the pass has seen since is a beginning of the final histories, as `Final::compare` shows.
pub fn a_closed_store_bears_out_each_reply()
    ensures { (config : Config) (final : FinalView) (number : ℕ) (before after : PassView) (last : Sight) (command : Command) (moment : ℕ) (reply : Reply)
        → number < config.stripes → AreStripes final.board config final.stripes → IsBehindStripes last final.stripes → Grows after.sight last
        → IsRepliedBy config number before after command moment reply
        → IsBorneOut config final.stripes number before.sight (next_who before) command moment reply }
{}

/// Between two commands of a stripe of a closed store, items are only removed. An item that is visible later was visible earlier
/// for the same moment, the same but for its marks. Each removed item was dead at the moment that its loss names, or was evicted
/// near COLD's tail of a full class, by the eviction that its loss names.
pub fn between_commands_a_closed_store_only_lost()
    ensures only { (config : Config) (final : FinalView) (number : ℕ) (before between later : List StripeEvent) (key : List ℕ) (item : Item) (moment : ℕ)
        → stripe_histories final.stripes number ≡ before ++ (between ++ later) → AreNoCommands between
        → visible_items (cache_of (site_in (setting_of config) number) (before ++ between)) moment key ≡ Some item
        → IsSomeAnd (visible_items (cache_of (site_in (setting_of config) number) before) moment key) (λ old. IsSameItem old item) }
    ensures cause { (config : Config) (final : FinalView) (number : ℕ) (before between later : List StripeEvent) (key : List ℕ) (item : Item)
        → IsSoundStore (setting_of config) (stripe_histories final.stripes) (class_histories final.classes) → number < config.stripes
        → stripe_histories final.stripes number ≡ before ++ (between ++ later) → AreNoCommands between
        → item_after (site_in (setting_of config) number) before key ≡ Some item
        → item_after (site_in (setting_of config) number) (before ++ between) key ≡ None
        → WasLost (setting_of config).chunks (class_histories final.classes) between key item }
{}

/// Each event of a closed store's stripes was called. It names one of the store's callers, whose history has the call, with the
/// event's turn and its time, if it has one. So nothing is made in another's name, and no time is invented.
/// It holds if each caller's pass was compared with the closed store.
pub fn each_event_of_a_closed_store_was_called()
    ensures { (config : Config) (final : FinalView) (passes : ℕ → PassView) (number place : ℕ) (s : StripeSide) (event : StripeEvent)
        → AreStripes final.board config final.stripes
        → ((caller : ℕ) → caller < config.callers → ((passes caller).caller ≡ caller) × AreItsOwn (passes caller) final.stripes)
        → slice_get final.stripes number ≡ Some s → slice_get s.stripe.history place ≡ Some event
        → ((who_of event).caller < config.callers) × IsCalled (passes (who_of event).caller).calls number place event }
{}

/// Each event of a closed store's slab classes was called. It names one of the store's callers, whose history has the call, with
/// the event's turn and its time, if it has one. Juggling and crawls keep to their class, and a crawl only reclaims. A new limit
/// is the one that its call sets, of this class.
/// It holds if each caller's pass was compared with the closed store.
pub fn each_class_event_of_a_closed_store_was_called()
    ensures { (config : Config) (final : FinalView) (passes : ℕ → PassView) (number place : ℕ) (s : ClassSide) (event : ClassEvent)
        → AreClasses final.board config final.classes
        → ((caller : ℕ) → caller < config.callers → ((passes caller).caller ≡ caller) × AreItsOwnInClasses (passes caller) final.classes)
        → slice_get final.classes number ≡ Some s → slice_get s.class.history place ≡ Some event
        → ((maker_of event).caller < config.callers) × WasCalled (passes (maker_of event).caller).calls (record { 0 = number + 1 }) event }
{}

/// Each loss of a closed store has the call that it was made for. An item that was lost as dead was dead at the moment of a call of
/// the loss's caller, in the loss's turn. An item that was taken while it might live was taken in a call for a storage command,
/// `incr` or `decr`: no `get`, `touch` or `delete`, no juggling and no crawl takes an item.
/// It holds if each caller's pass was compared with the closed store, which is sound.
pub fn each_loss_of_a_closed_store_was_called_for()
    ensures expired { (config : Config) (final : FinalView) (passes : ℕ → PassView) (number : ℕ) (before : List StripeEvent) (lost : Lost) (moment : ℕ)
        → IsSoundStore (setting_of config) (stripe_histories final.stripes) (class_histories final.classes) → AreStripes final.board config final.stripes
        → ((caller : ℕ) → caller < config.callers → ((passes caller).caller ≡ caller) × AreItsOwn (passes caller) final.stripes)
        → number < config.stripes → Stands (stripe_histories final.stripes number) before (events.Lost lost) → lost.cause ≡ Expired moment
        → IsDead (item_after (site_in (setting_of config) number) before lost.key) moment
        × (lost.who.caller < config.callers) × IsBegun (passes lost.who.caller).calls lost.who.turn moment }
    ensures taken { (config : Config) (final : FinalView) (passes : ℕ → PassView) (number place : ℕ) (before : List StripeEvent) (lost : Lost) (class : ClassNo)
        → IsSoundStore (setting_of config) (stripe_histories final.stripes) (class_histories final.classes) → AreClasses final.board config final.classes
        → ((caller : ℕ) → caller < config.callers → ((passes caller).caller ≡ caller) × AreItsOwnInClasses (passes caller) final.classes)
        → number < config.stripes → Stands (stripe_histories final.stripes number) before (events.Lost lost) → lost.cause ≡ Taken class place
        → (lost.who.caller < config.callers) × IsBegunForChunk (passes lost.who.caller).calls lost.who.turn }
{}

/// A turn that ended in a fault isn't answered: if no answer comes right after a call in its caller's history, a closed store has no
/// command of that caller and turn.
/// It holds if the caller's pass was compared with the closed store.
pub fn a_turn_that_failed_is_not_answered()
    ensures { (final : FinalView) (pass : PassView) (before behind : List CallEvent) (call : CallEvent) (moment : ℕ)
        → AreItsOwn pass final.stripes → pass.calls ≡ before ++ call ∷ behind → moment_of call ≡ Some moment → HasNoAnswer behind
        → HasNoDid (record { caller = pass.caller; turn = length (turns_of before) }) final.stripes }
{}

/// A turn is answered once: two answered commands of a closed store that name the same caller and turn are the same event.
pub fn a_turn_of_a_closed_store_is_answered_once()
    ensures { (final : FinalView) (pass : PassView) (number place number_too place_too : ℕ) (s s_too : StripeSide) (did did_too : Did)
        → AreItsOwn pass final.stripes → did.who.caller ≡ pass.caller → did_too.who ≡ did.who
        → slice_get final.stripes number ≡ Some s → slice_get s.stripe.history place ≡ Some (events.Did did)
        → slice_get final.stripes number_too ≡ Some s_too → slice_get s_too.stripe.history place_too ≡ Some (events.Did did_too)
        → (number ≡ number_too) × (place ≡ place_too) }
{}

/// Figures that a pass noted of a slab class are those of the class's lists after the first so many events of its final history.
/// It holds if the pass was compared with the closed store.
pub fn a_closed_store_bears_out_figures()
    ensures { (config : Config) (final : FinalView) (sight : Sight) (note : Note) (class : ClassNo) (place : ℕ)
        → IsClass (setting_of config) class → AreClasses final.board config final.classes → IsBehindClasses sight final.classes
        → slice_get sight.figures place ≡ Some note → note.lock ≡ class_lock config class
        → (note.events ≤ length (class_histories final.classes class))
        × (note.values ≡ figures_of_lists (lists_of (take note.events (class_histories final.classes class)))) }
{}
