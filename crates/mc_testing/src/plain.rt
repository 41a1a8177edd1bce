//! A plain memcached of one stripe, after protocol.txt, to compare this project's stripes with. It is a list of items that answers
//! commands, and says whether an item may be lost.
use crate::numerals::{counted, number_in, numeral};
use mc_item::{Cause, Command, NoMemory, Reply, Value, Verb};
use std::alloc::Global;

// The most bytes that a key and its value may have: the largest chunk has 120, and 64 are for the item's head.
const LARGEST: usize = 56;

// An item, which dies at its end, if it has one.
#[derive(Drop)]
struct Kept {
    key: Vec<u8>,
    flags: u32,
    value: Vec<u8>,
    end: Option<u64>,
    cas: u64,
}

/// One of several stripes: its items, and how many versions of items it has had.
#[derive(Drop)]
pub struct Plain {
    alloc: Global,
    stripe: u64,
    stripes: u64,
    versions: u64,
    items: Vec<Kept>,
}

// Whether an item with this end is dead at a moment.
fn is_dead(end: Option<u64>, moment: u64) -> bool {
    match end {
        None => false,
        Some(end) => end <= moment,
    }
}

// When an item with this exptime dies (protocol.txt, "Expiration times"): 0 is never, a negative number at once, up to 30 days
// are seconds from now, and more is a time itself.
fn end_of(exptime: i64, moment: u64) -> Option<u64> {
    if exptime < 0 {
        return Some(0);
    }
    match exptime.unsigned_abs() {
        0 => None,
        1..=2_592_000 => Some(moment.wrapping_add(exptime.unsigned_abs())),
        end => Some(end),
    }
}

// Whether no chunk is large enough.
fn is_too_large(key: &[u8], len: usize) -> bool {
    key.len().saturating_add(len) > LARGEST
}

// The reply if a storage command's condition isn't met, by the cas number of the key's item.
fn unmet(verb: Verb, cas: Option<u64>) -> Option<Reply> {
    match (verb, cas) {
        (Verb::Set, _) => None,
        (Verb::Add, None) => None,
        (Verb::Add, Some(_)) => Some(Reply::NotStored),
        (Verb::Replace | Verb::Append | Verb::Prepend, None) => Some(Reply::NotStored),
        (Verb::Replace | Verb::Append | Verb::Prepend, Some(_)) => None,
        (Verb::Cas(_), None) => Some(Reply::NotFound),
        (Verb::Cas(asked), Some(cas)) => {
            if cas == asked {
                None
            } else {
                Some(Reply::Exists)
            }
        }
    }
}

impl Kept {
    // An item with copies of key and value.
    fn of(alloc: Global, key: &[u8], value: &[u8]) -> Result<Kept, NoMemory> {
        let key = Vec::from_slice(alloc, key)?;
        let value = Vec::from_slice(alloc, value)?;
        Ok(Kept {
            key,
            flags: 0,
            value,
            end: None,
            cas: 0,
        })
    }

    // The reply that shows the item (protocol.txt, "Retrieval command").
    fn shown(&self, alloc: Global) -> Result<Reply, NoMemory> {
        let bytes = Vec::from_slice(alloc, self.value.as_slice())?;
        let value = Value::of(alloc, bytes)?;
        Ok(Reply::Value {
            flags: self.flags,
            value,
            cas: self.cas,
        })
    }
}

impl Plain {
    /// Makes the stripe with this number, of this many stripes, without items.
    pub fn new(alloc: Global, stripe: u32, stripes: u32) -> Plain {
        Plain {
            alloc,
            stripe: u64::from(stripe),
            stripes: u64::from(stripes),
            versions: 0,
            items: Vec::new(alloc),
        }
    }

    fn find(&self, key: &[u8]) -> Option<&Kept> {
        self.items.iter().find(|kept| kept.key.as_slice() == key)
    }

    // Removes the item under a key, and returns it.
    fn take(&mut self, key: &[u8]) -> Option<Kept> {
        let place = self
            .items
            .iter()
            .position(|kept| kept.key.as_slice() == key)?;
        Some(self.items.remove(place))
    }

    // Counts a version and returns its cas number: version n, from 0, of stripe s of S has n * S + s + 1.
    fn next_cas(&mut self) -> u64 {
        let cas = self
            .versions
            .wrapping_mul(self.stripes)
            .wrapping_add(self.stripe)
            .wrapping_add(1);
        self.versions = self.versions.wrapping_add(1);
        cas
    }

    // Stores a new version of a key's item, and says so.
    fn put(
        &mut self,
        key: &[u8],
        flags: u32,
        value: &[u8],
        end: Option<u64>,
    ) -> Result<Reply, NoMemory> {
        let _old = self.take(key);
        let cas = self.next_cas();
        let kept = Kept::of(self.alloc, key, value)?;
        self.items.push(Kept {
            flags,
            end,
            cas,
            ..kept
        })?;
        Ok(Reply::Stored)
    }

    fn get(&self, key: &[u8]) -> Result<Reply, NoMemory> {
        match self.find(key) {
            None => Ok(Reply::Miss),
            Some(kept) => kept.shown(self.alloc),
        }
    }

    // Returns the reply of a storage command that fails. A set also removes the old item, so that nobody reads old bytes.
    fn failed(&mut self, verb: Verb, key: &[u8], reply: Reply) -> Reply {
        if verb == Verb::Set {
            let _old = self.take(key);
        }
        reply
    }

    // An append, or a prepend if `before` (protocol.txt, "Storage commands"): the data joins the value, and flags and end stay.
    fn join(
        &mut self,
        key: &[u8],
        data: &[u8],
        before: bool,
        refused: bool,
    ) -> Result<Reply, NoMemory> {
        let Some(kept) = self.find(key) else {
            return Ok(Reply::NotStored);
        };
        let old = kept.value.as_slice();
        let (front, back) = if before { (data, old) } else { (old, data) };
        let mut value = Vec::from_slice(self.alloc, front)?;
        value.extend_from_slice(back)?;
        let flags = kept.flags;
        let end = kept.end;
        if is_too_large(key, value.len()) {
            return Ok(Reply::TooLarge);
        }
        if refused {
            return Ok(Reply::NoRoom);
        }
        self.put(key, flags, value.as_slice(), end)
    }

    fn cas_of(&self, key: &[u8]) -> Option<u64> {
        Some(self.find(key)?.cas)
    }

    // The reply if this many bytes can't be stored (protocol.txt, "Storage commands").
    fn hindered(&mut self, verb: Verb, key: &[u8], len: usize, refused: bool) -> Option<Reply> {
        if is_too_large(key, len) {
            return Some(self.failed(verb, key, Reply::TooLarge));
        }
        let unmet = unmet(verb, self.cas_of(key));
        if unmet.is_none() && refused {
            return Some(self.failed(verb, key, Reply::NoRoom));
        }
        unmet
    }

    // An incr or decr (protocol.txt, "Increment/Decrement"). If the number is shorter than the old value, spaces fill the rest.
    fn count(
        &mut self,
        key: &[u8],
        up: bool,
        delta: u64,
        refused: bool,
    ) -> Result<Reply, NoMemory> {
        let Some(kept) = self.find(key) else {
            return Ok(Reply::NotFound);
        };
        let Some(old) = number_in(kept.value.as_slice()) else {
            return Ok(Reply::NonNumeric);
        };
        let len = kept.value.len();
        let flags = kept.flags;
        let end = kept.end;
        let number = counted(old, up, delta);
        let text = numeral(self.alloc, number, len)?;
        if text.len() > len && (refused || is_too_large(key, text.len())) {
            return Ok(Reply::NoSpace);
        }
        let _stored = self.put(key, flags, text.as_slice(), end)?;
        Ok(Reply::Number(number))
    }

    // A touch (protocol.txt, "Touch").
    fn touch(&mut self, key: &[u8], end: Option<u64>) -> Reply {
        for kept in self.items.as_mut_slice() {
            if kept.key.as_slice() == key {
                kept.end = end;
                return Reply::Touched;
            }
        }
        Reply::NotFound
    }

    // A gat (protocol.txt, "Get And Touch").
    fn gat(&mut self, key: &[u8], end: Option<u64>) -> Result<Reply, NoMemory> {
        let reply = self.get(key)?;
        let _touched = self.touch(key, end);
        Ok(reply)
    }

    // A delete (protocol.txt, "Deletion").
    fn delete(&mut self, key: &[u8]) -> Reply {
        match self.take(key) {
            None => Reply::NotFound,
            Some(_) => Reply::Deleted,
        }
    }

    // Whether the key has an item that is dead at the moment.
    fn is_over(&self, key: &[u8], moment: u64) -> bool {
        match self.find(key) {
            None => false,
            Some(kept) => is_dead(kept.end, moment),
        }
    }

    /// Returns the reply to a command at a moment. `refused` says that no chunk is found if the command needs one.
    pub fn answer(
        &mut self,
        command: &Command,
        moment: u64,
        refused: bool,
    ) -> Result<Reply, NoMemory> {
        let key = command.key().bytes();
        if self.is_over(key, moment) {
            let _dead = self.take(key);
        }
        match command {
            Command::Get(_) => self.get(key),
            Command::Gat(_, exptime) => self.gat(key, end_of(*exptime, moment)),
            Command::Store {
                verb,
                flags,
                exptime,
                value,
                ..
            } => match verb {
                Verb::Append => self.join(key, value.bytes(), false, refused),
                Verb::Prepend => self.join(key, value.bytes(), true, refused),
                _ => match self.hindered(*verb, key, value.bytes().len(), refused) {
                    Some(reply) => Ok(reply),
                    None => self.put(key, *flags, value.bytes(), end_of(*exptime, moment)),
                },
            },
            Command::Huge { verb, .. } => Ok(self.failed(*verb, key, Reply::TooLarge)),
            Command::Incr(_, delta) => self.count(key, true, *delta, refused),
            Command::Decr(_, delta) => self.count(key, false, *delta, refused),
            Command::Touch(_, exptime) => Ok(self.touch(key, end_of(*exptime, moment))),
            Command::Delete(_) => Ok(self.delete(key)),
        }
    }

    /// Removes an item for a cause. Returns whether the item was there, and dead if that is the cause.
    pub fn lose(&mut self, key: &[u8], cause: Cause) -> bool {
        match (self.take(key), cause) {
            (None, _) => false,
            (Some(kept), Cause::Expired(moment)) => is_dead(kept.end, moment),
            (Some(_), Cause::Taken { .. }) => true,
        }
    }

    /// Returns whether a key has an item, dead or alive.
    pub fn has(&self, key: &[u8]) -> bool {
        self.find(key).is_some()
    }
}
