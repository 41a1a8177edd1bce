//! What a command is given, and what it wants if that isn't enough.
ghost use Rattle.std.specs.Prelude.{◌≡◌, ◌<◌, Some, None, false, true, IfOk, IfErr, IfSome, IfNone, OnOk};
ghost use Rattle.mc_item.specs.Stripe as words;
ghost use Rattle.mc_item.specs.declared.answer.Need.TheVariants as needs;
ghost use Rattle.mc_stripe.specs.Wanting as wanted;
ghost use Rattle.mc_stripe.specs.Wanting.{Covers, HasPlacesFor, Holds, IsTaken, LacksPlace, class_beside};
ghost use Rattle.mc_stripe.specs.declared.wanting.Want.TheVariants as wants;

use crate::fate::Fate;
use mc_item::{ClassNo, Link, Room};

/// The class of a command's new version, which the caller has locked. Its room is a link to a free chunk, a refusal after a
/// search, or `Keep` if it is full and no chunk was looked for. Its history takes `places` more events.
#[derive(Clone, Copy, Debug, PartialEq, Eq)]
pub struct Home {
    pub class: ClassNo,
    pub room: Room,
    pub places: u64,
}

/// The class of the key's old item, which the caller has locked. Its history takes `places` more events.
#[derive(Clone, Copy, Debug, PartialEq, Eq)]
pub struct Other {
    pub class: ClassNo,
    pub places: u64,
}

/// The classes that a command is given, or holds: its caller has locked them.
#[derive(Clone, Copy, Debug, PartialEq, Eq)]
pub struct Given {
    pub home: Option<Home>,
    pub other: Option<Other>,
}

/// The classes that a command wants: that of its new version, and that of its key's old item if it is another one.
#[derive(Clone, Copy, Debug, PartialEq, Eq)]
pub struct Classes {
    pub home: Option<ClassNo>,
    pub other: Option<ClassNo>,
}

/// What a command wants before it can be made. The caller provides it and tries again.
#[derive(Clone, Copy, Debug, PartialEq, Eq)]
pub enum Want {
    /// The removal of its key's item, which is dead and has this link.
    Burial(Link),
    /// The locks of these classes.
    Classes(Classes),
    /// A chunk of its new version's class, which is full: the caller looks for one.
    Room,
    /// A place in the history of this held class, which lacks places for the entries that come and leave.
    Place(ClassNo),
}

// Whether the wanted class, if any, is the one that is held.
#[inline(always)]
fn holds(held: Option<ClassNo>, wanted: Option<ClassNo>) -> bool
    ensures yes { result ≡ true → Holds held wanted }
    ensures no { result ≡ false → Holds held wanted → ⊥ }
{
    match wanted {
        None => true,
        Some(class) => match held {
            None => false,
            Some(it) => it.0 == class.0,
        },
    }
}

// The class of a link, if it is another one than this.
#[inline(always)]
fn beside(class: ClassNo, old: Option<Link>) -> Option<ClassNo>
    ensures { result ≡ class_beside class old }
{
    match old {
        None => None,
        Some(link) => {
            if link.class.0 == class.0 {
                None
            } else {
                Some(link.class)
            }
        }
    }
}

// 1 if there is a link and it is of this class, else 0.
#[inline(always)]
fn links_at(class: ClassNo, link: Option<Link>) -> u64
    ensures count { result ≡ wanted.links_at class link }
    ensures few { result < 2 }
{
    match link {
        None => 0,
        Some(link) => (link.class.0 == class.0) as u64,
    }
}

#[inline(always)]
fn link_of(room: Room) -> Option<Link>
    ensures { result ≡ words.link_of room }
{
    match room {
        Room::At(link) => Some(link),
        Room::Refused { .. } | Room::Keep => None,
    }
}

// How many entries come into a class and leave it, together.
#[inline(always)]
fn changes_at(class: ClassNo, room: Room, fate: Fate) -> u64
    ensures { result ≡ wanted.changes_at class room fate }
{
    match fate {
        Fate::Untouched | Fate::Woken(_) => 0,
        Fate::Renewed { old, .. } => links_at(class, link_of(room)) + links_at(class, old),
        Fate::Goes(link) => links_at(class, Some(link)),
    }
}

impl Given {
    // The class of the key's old item, if it is held.
    #[inline(always)]
    fn other_class(&self) -> Option<ClassNo>
        ensures { result ≡ wanted.other_class self.now }
    {
        match self.other {
            None => None,
            Some(other) => Some(other.class),
        }
    }

    // The room that the class of the new version gives, if all wanted
    // classes are held. Otherwise, or if it is `Keep`, what is wanted.
    #[inline(always)]
    pub(crate) fn room(&self, fresh: ClassNo, old: Option<Link>) -> Result<Room, Want>
        ensures covers { OnOk result (Covers self.now (record { home = Some fresh; other = class_beside fresh old })) }
        ensures taken { IfOk result (IsTaken self.now (needs.Fresh fresh)) }
        ensures lacks { IfErr result (wanted.IsLacking self.now (record { home = Some fresh; other = class_beside fresh old })) }
    {
        let other = beside(fresh, old);
        let lacks = Want::Classes(Classes {
            home: Some(fresh),
            other,
        });
        let Some(home) = self.home else {
            return Err(lacks);
        };
        if home.class.0 != fresh.0 || !holds(self.other_class(), other) {
            return Err(lacks);
        }
        match home.room {
            Room::Keep => Err(Want::Room),
            Room::At(_) | Room::Refused { .. } => Ok(home.room),
        }
    }

    // Checks that the class of an item is held, since the item is to be removed. If not, that class is wanted.
    #[inline(always)]
    pub(crate) fn item(&self, link: Link) -> Result<(), Want>
        ensures covers { OnOk result (Covers self.now (record { home = None; other = Some link.class })) }
        ensures lacks { IfErr result (λ want. (want ≡ wants.Classes (record { home = None; other = Some link.class }))
            × (Covers self.now (record { home = None; other = Some link.class }) → ⊥)) }
    {
        let other = Some(link.class);
        if holds(self.other_class(), other) {
            Ok(())
        } else {
            Err(Want::Classes(Classes { home: None, other }))
        }
    }

    // The held class, if any, whose history lacks places for the entries that come and leave.
    #[inline(always)]
    pub(crate) fn crowded(&self, room: Room, fate: Fate) -> Option<ClassNo>
        ensures places { IfNone result (HasPlacesFor self.now room fate) }
        ensures lacks { IfSome result (LacksPlace self.now room fate) }
    {
        if let Some(home) = self.home {
            if home.places < changes_at(home.class, room, fate) {
                return Some(home.class);
            }
        }
        if let Some(other) = self.other {
            if other.places < changes_at(other.class, room, fate) {
                return Some(other.class);
            }
        }
        None
    }
}
