//! A law of hits.
ghost use Rattle.std.specs.Prelude.{◌≡◌, ◌↔◌, ℕ, Option, Some};
ghost use Rattle.mc_item.specs.{Answer.row_of, Command.key_of};
ghost use Rattle.mc_item.specs.declared.{answer.Site.Site, command.Command.Command, item.Item.Item, item.Link.Link, reply.Room.Room};
ghost use Rattle.mc_stripe.specs.Plan.{Wakes, fate_of, woken_of};
ghost use Rattle.mc_stripe.specs.declared.fate.Fate.{Fate};

/// Shows that a command's fate has a woken link exactly if the command makes the item with that link ACTIVE, which it wasn't.
pub fn a_woken_link_is_of_an_item_made_active()
    ensures { (site : Site) (versions : ℕ) (found : Option Item) (command : Command) (moment : ℕ) (room : Room) (fate : Fate) (link : Link)
        → let change = ((row_of site versions found command moment).answer room).change in
        fate ≡ fate_of (key_of command) found change → (woken_of fate ≡ Some link) ↔ Wakes found change link }
{}
