//! Calls of a class.
ghost use Rattle.std.specs.Prelude.{◌≡◌};

use crate::asking::{MOMENT, key_of};
use crate::end::{End, end_of};
use crate::marks::Marks;
use mc_item::{Expiry, Key, Passed, Seg, Shifted, Why};
use mc_segment::EntryKey;
use mc_testing::{WHO, World};

// The cost of each item, in bytes.
const COST: u64 = 96;

// When the item of a key dies.
fn expiry_in(world: &World, key: &Key) -> Expiry {
    match world.stripe.find(key) {
        Some(item) => item.expiry,
        None => Expiry::Never,
    }
}

fn link_keys(world: &mut World, key: Key, copy: Key, marks: Marks) -> End
    requires { copy ≡ key }
{
    let expiry = expiry_in(world, &key);
    let class = &mut world.class;
    if class.count() >= class.chunks() {
        return End::Other;
    }
    let key = EntryKey {
        key,
        copy: Some(copy),
    };
    marks.begin();
    let linked = class.link(WHO, key, COST, MOMENT, expiry);
    marks.end();
    end_of(linked)
}

/// Links the entry of the item of a key.
pub(crate) fn link(world: &mut World, letter: u8, marks: Marks) -> End {
    let Ok(key) = key_of(world.alloc, letter) else {
        return End::Other;
    };
    match key.copy(world.alloc) {
        Ok(copy) => link_keys(world, key, copy, marks),
        Err(_) => End::Other,
    }
}

/// Makes room for so many events of the class.
pub(crate) fn reserve(world: &mut World, events: usize, marks: Marks) -> End {
    marks.begin();
    let reserved = world.class.reserve(events);
    marks.end();
    end_of(reserved)
}

/// Surveys the class.
pub(crate) fn survey(world: &mut World, marks: Marks) -> End {
    marks.begin();
    let surveyed = world.class.survey(WHO, MOMENT);
    marks.end();
    end_of(surveyed)
}

/// Surveys the class until a piece of its history, which has 4,096 events, is full.
pub(crate) fn fill(world: &mut World) -> End {
    for _ in world.class.history().len()..4096 {
        let _ = world.class.survey(WHO, MOMENT);
    }
    End::Made
}

/// Limits the class to a chunk.
pub(crate) fn limit(world: &mut World, marks: Marks) -> End {
    marks.begin();
    let limited = world.class.set_chunks(WHO, 1);
    marks.end();
    end_of(limited)
}

/// Notes that the class, which is full, has no chunk.
pub(crate) fn refuse(world: &mut World, marks: Marks) -> End {
    if !world.class.is_full() {
        return End::Other;
    }
    marks.begin();
    let refused = world.class.refuse(WHO);
    marks.end();
    end_of(refused)
}

/// Removes the first entry with its item.
pub(crate) fn unlink(world: &mut World, marks: Marks) -> End {
    if world.class.segment_of(0).is_none() {
        return End::Other;
    }
    marks.begin();
    let unlinked = world.class.unlink(WHO, 0);
    marks.end();
    end_of(unlinked)
}

/// Removes the first entry as dead.
pub(crate) fn reclaim(world: &mut World, marks: Marks) -> End {
    if world.class.segment_of(0).is_none() {
        return End::Other;
    }
    marks.begin();
    let reclaimed = world.class.reclaim(WHO, 0, MOMENT, 0);
    marks.end();
    end_of(reclaimed)
}

/// Forces HOT's tail to COLD in a full class.
pub(crate) fn force(world: &mut World, marks: Marks) -> End {
    let class = &mut world.class;
    if !class.is_full() {
        return End::Other;
    }
    let Some(entry) = class.from_tail(Seg::Hot, 0) else {
        return End::Other;
    };
    let shifted = Shifted {
        who: WHO,
        number: entry.number,
        from_seg: Seg::Hot,
        to_seg: Seg::Cold,
        why: Why::Forced,
        moment: MOMENT,
        passed: Passed::of(&[]),
        at: 0,
    };
    marks.begin();
    let forced = class.shift(shifted);
    marks.end();
    end_of(forced)
}

/// Evicts COLD's tail from a full class.
pub(crate) fn evict(world: &mut World, marks: Marks) -> End {
    let class = &mut world.class;
    if !class.is_full() {
        return End::Other;
    }
    let Some(entry) = class.from_tail(Seg::Cold, 0) else {
        return End::Other;
    };
    let number = entry.number;
    marks.begin();
    let evicted = class.evict(WHO, number, Passed::of(&[]), 0);
    marks.end();
    end_of(evicted)
}
