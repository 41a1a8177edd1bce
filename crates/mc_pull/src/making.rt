//! A command's events in a class.
ghost use Rattle.std.specs.Prelude.{◌≡◌, ◌≤◌, true};
ghost use Rattle.mc_segment.specs.ClassState.{HasPlaces};
ghost use Rattle.mc_pull.specs.{Settled.class_with, Parts.part_events, Parts.Copies, Parts.MayMake};
ghost use Rattle.mc_pull.specs.Parts as words;

use crate::certain;
use crate::parts::Part;
use mc_item::Key;
use mc_segment::ClassState;
use mc_stripe::Turn;

/// Makes the events of a class's part, for which there must be room. If events are kept, `copy` is a new entry's key once more.
#[inline(always)]
pub(crate) fn make(class: &mut ClassState, part: Part, copy: Option<Key>, turn: Turn)
    requires room { words.places_of part ≤ class.old.room }
    requires place { HasPlaces class.old (words.places_of part) }
    requires may { MayMake class.old part }
    requires copy { class.old.keeps_events ≡ true → Copies part copy }
    ensures { class.new ≡ class_with class.old (part_events class.old turn.who turn.moment part) class.new.room }
{
    match part {
        Part::Nothing => {}
        Part::Links { key, cost, expiry } => certain::link(class, turn, key, copy, cost, expiry),
        Part::Renews {
            key,
            cost,
            expiry,
            number,
        } => {
            certain::link(class, turn, key, copy, cost, expiry);
            certain::unlink(class, turn.who, number);
        }
        Part::Unlinks(number) => certain::unlink(class, turn.who, number),
    }
}
