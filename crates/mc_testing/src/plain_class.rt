//! A plain slab class, after new_lru.txt, to compare this project's classes with.
//! It takes one event after another, and says what is wrong with it.
use mc_history::History;
use mc_item::{ClassEvent, Entry, Evicted, Limited, Linked, Seg, Shifted, Surveyed, Who, Why};
use mc_segment::{ClassState, ShownClass};
use std::alloc::Global;

// How many entries may be nearer to the tail than one that is moved or evicted.
const MOST_PASSED: usize = 4;

// The greatest limit of chunks.
const MOST_CHUNKS: u64 = 1 << 20;

static SEGS: [Seg; 4] = [Seg::Hot, Seg::Warm, Seg::Cold, Seg::Temp];

type Events = History<ClassEvent, ShownClass>;

/// `Ok`, or what is wrong.
pub type Checked = Result<(), &'static str>;

// An entry, with its segment.
#[derive(Drop)]
struct Kept {
    number: u64,
    seg: Seg,
    key: Vec<u8>,
    cost: u64,
    time: u64,
}

/// A class: its limit of chunks, the number of its next entry, and its entries, the oldest of each segment first.
#[derive(Drop)]
pub struct PlainClass {
    alloc: Global,
    chunks: u64,
    next: u64,
    entries: Vec<Kept>,
}

fn holds(is_so: bool, wrong: &'static str) -> Checked {
    if is_so { Ok(()) } else { Err(wrong) }
}

// Whether the event at a place of the history is a survey by this call at this moment.
fn is_survey(history: &Events, place: u64, who: Who, moment: u64) -> bool {
    match history.get(place as usize) {
        Some(ClassEvent::Surveyed(survey)) => survey.who == who && survey.moment == moment,
        _ => false,
    }
}

// The segment to which a move for this reason leads.
fn goal_of(why: Why) -> Seg {
    match why {
        Why::Hit | Why::Active => Seg::Warm,
        Why::Over(_) | Why::Old(_) | Why::Forced => Seg::Cold,
    }
}

// Whether a move for this reason may start in a segment.
fn may_leave(why: Why, seg: Seg) -> bool {
    match why {
        Why::Hit => seg == Seg::Cold,
        Why::Active => seg != Seg::Temp,
        Why::Over(_) | Why::Old(_) => seg == Seg::Hot || seg == Seg::Warm,
        Why::Forced => seg == Seg::Hot,
    }
}

impl Kept {
    // Whether an entry of the real class equals this one.
    fn is(&self, entry: &Entry) -> bool {
        entry.number == self.number
            && entry.cost == self.cost
            && entry.time == self.time
            && entry.key.bytes() == self.key.as_slice()
    }
}

impl PlainClass {
    /// Makes a class with this limit of chunks, without entries.
    pub fn new(alloc: Global, chunks: u64) -> PlainClass {
        PlainClass {
            alloc,
            chunks,
            next: 0,
            entries: Vec::new(alloc),
        }
    }

    // The entry at a place of a segment, counted from its tail.
    fn from_tail(&self, seg: Seg, place: usize) -> Option<&Kept> {
        let mut passed = 0usize;
        for kept in &self.entries {
            if kept.seg == seg && passed == place {
                return Some(kept);
            }
            if kept.seg == seg {
                passed = passed.wrapping_add(1);
            }
        }
        None
    }

    // Whether the entry at a place of a segment, counted from its tail, has this number.
    fn is_at(&self, seg: Seg, place: usize, number: u64) -> bool {
        match self.from_tail(seg, place) {
            Some(kept) => kept.number == number,
            None => false,
        }
    }

    fn len(&self, seg: Seg) -> u64 {
        let mut many = 0u64;
        for kept in &self.entries {
            if kept.seg == seg {
                many = many.wrapping_add(1);
            }
        }
        many
    }

    // The sum of the costs of a segment's entries.
    fn bytes(&self, seg: Seg) -> u64 {
        let mut bytes = 0u64;
        for kept in &self.entries {
            if kept.seg == seg {
                bytes = bytes.wrapping_add(kept.cost);
            }
        }
        bytes
    }

    /// Returns the bytes of HOT, WARM, COLD and TEMP, then how many entries each has.
    pub fn figures(&self) -> [u64; 8] {
        [
            self.bytes(Seg::Hot),
            self.bytes(Seg::Warm),
            self.bytes(Seg::Cold),
            self.bytes(Seg::Temp),
            self.len(Seg::Hot),
            self.len(Seg::Warm),
            self.len(Seg::Cold),
            self.len(Seg::Temp),
        ]
    }

    // Whether no chunk is free.
    fn is_full(&self) -> bool {
        self.entries.len() as u64 >= self.chunks
    }

    // Removes the entry with this number, and returns it.
    fn take(&mut self, number: u64) -> Option<Kept> {
        let place = self.entries.iter().position(|kept| kept.number == number)?;
        Some(self.entries.remove(place))
    }

    fn remove(&mut self, number: u64) -> Checked {
        holds(self.take(number).is_some(), "no entry of the number")
    }

    // Adds an entry at its segment's head.
    fn add(&mut self, kept: Kept) -> Checked {
        holds(self.entries.push(kept).is_ok(), "no memory")
    }

    // Whether exactly these numbers are between an entry and its segment's tail, and not too many.
    fn is_near_tail(&self, seg: Seg, number: u64, passed: &[u64]) -> bool {
        for place in 0..passed.len() {
            if !self.is_at(seg, place, passed[place]) {
                return false;
            }
        }
        passed.len() <= MOST_PASSED && self.is_at(seg, passed.len(), number)
    }

    // Checks that a new entry is of HOT or TEMP, and has a free chunk and the next number.
    fn check_new(&self, linked: &Linked) -> Checked {
        let begins = linked.seg == Seg::Hot || linked.seg == Seg::Temp;
        holds(begins, "a new entry elsewhere")?;
        holds(!self.is_full(), "a new entry without a chunk")?;
        holds(linked.number == self.next, "not the next number")
    }

    // Adds a new entry at its segment's head.
    fn link(&mut self, linked: &Linked) -> Checked {
        self.check_new(linked)?;
        self.next = self.next.wrapping_add(1);
        match Vec::from_slice(self.alloc, linked.key.bytes()) {
            Err(_) => Err("no memory"),
            Ok(key) => self.add(Kept {
                number: linked.number,
                seg: linked.seg,
                key,
                cost: linked.cost,
                time: linked.moment,
            }),
        }
    }

    // Whether a move has the ground that its reason needs: a survey of the same call, or a full class.
    fn has_ground(&self, shifted: &Shifted, history: &Events) -> bool {
        match shifted.why {
            Why::Hit | Why::Active => true,
            Why::Over(place) | Why::Old(place) => {
                is_survey(history, place, shifted.who, shifted.moment)
            }
            Why::Forced => self.is_full(),
        }
    }

    // Whether an entry is where a move says: for a hit anywhere in its segment, else near its segment's tail.
    fn is_there(&self, shifted: &Shifted) -> bool {
        let passed = shifted.passed.as_slice();
        if shifted.why != Why::Hit {
            return self.is_near_tail(shifted.from_seg, shifted.number, passed);
        }
        for kept in &self.entries {
            if kept.number == shifted.number {
                return kept.seg == shifted.from_seg && passed.is_empty();
            }
        }
        false
    }

    // What is wrong with a move's segments, its ground and its entry.
    fn check_move(&self, shifted: &Shifted, history: &Events) -> Checked {
        holds(shifted.to_seg == goal_of(shifted.why), "a move elsewhere")?;
        holds(
            may_leave(shifted.why, shifted.from_seg),
            "a move from elsewhere",
        )?;
        holds(
            self.has_ground(shifted, history),
            "a move without its ground",
        )?;
        holds(self.is_there(shifted), "a move of another entry")
    }

    // Moves an entry to the head of another segment, or of its own. A hit or the move of an active entry sets its time.
    fn shift(&mut self, shifted: &Shifted, history: &Events) -> Checked {
        self.check_move(shifted, history)?;
        let Some(mut kept) = self.take(shifted.number) else {
            return Err("no entry to move");
        };
        kept.seg = shifted.to_seg;
        if goal_of(shifted.why) == Seg::Warm {
            kept.time = shifted.moment;
        }
        self.add(kept)
    }

    // Removes an entry near COLD's tail, if no chunk is free.
    fn evict(&mut self, evicted: &Evicted) -> Checked {
        let passed = evicted.passed.as_slice();
        holds(self.is_full(), "an eviction, and a chunk is free")?;
        holds(
            self.is_near_tail(Seg::Cold, evicted.number, passed),
            "an eviction elsewhere",
        )?;
        self.remove(evicted.number)
    }

    // The bytes of HOT, WARM and COLD together.
    fn total(&self) -> u64 {
        let mut total = 0u64;
        for kept in &self.entries {
            if kept.seg != Seg::Temp {
                total = total.saturating_add(kept.cost);
            }
        }
        total
    }

    // The age of COLD's tail in seconds, or 0 if COLD is empty.
    fn cold_age(&self, moment: u64) -> u64 {
        match self.from_tail(Seg::Cold, 0) {
            Some(kept) => moment.saturating_sub(kept.time),
            None => 0,
        }
    }

    fn check_survey(&self, survey: &Surveyed) -> Checked {
        holds(survey.total == self.total(), "a survey of another total")?;
        holds(
            survey.cold_age == self.cold_age(survey.moment),
            "a survey of another age",
        )
    }

    // Sets the limit of chunks. The entries stay, though they may be more.
    fn limit(&mut self, limited: &Limited) -> Checked {
        let is_so = 1 <= limited.chunks && limited.chunks <= MOST_CHUNKS;
        holds(is_so, "a limit out of its bounds")?;
        self.chunks = limited.chunks;
        Ok(())
    }

    /// Takes one more event, and returns what is wrong with it. `history` has the surveys to which it refers.
    pub fn next(&mut self, event: &ClassEvent, history: &Events) -> Checked {
        match event {
            ClassEvent::Linked(linked) => self.link(linked),
            ClassEvent::Unlinked(unlinked) => self.remove(unlinked.number),
            ClassEvent::Shifted(shifted) => self.shift(shifted, history),
            ClassEvent::Evicted(evicted) => self.evict(evicted),
            ClassEvent::Reclaimed(reclaimed) => self.remove(reclaimed.number),
            ClassEvent::Surveyed(survey) => self.check_survey(survey),
            ClassEvent::Refused(_) => holds(self.is_full(), "a refusal, and a chunk is free"),
            ClassEvent::Limited(limited) => self.limit(limited),
        }
    }

    // Whether the real class has the same entry at a place of a segment.
    fn is_same_at(&self, class: &ClassState, seg: Seg, place: u64) -> bool {
        match (
            class.from_tail(seg, place),
            self.from_tail(seg, place as usize),
        ) {
            (Some(entry), Some(kept)) => kept.is(entry),
            _ => false,
        }
    }

    // Compares one list with that of the real class.
    fn compare_list(&self, class: &ClassState, seg: Seg) -> Checked {
        holds(class.len(seg) == self.len(seg), "a list of another length")?;
        for place in 0..self.len(seg) {
            holds(self.is_same_at(class, seg, place), "another entry")?;
        }
        Ok(())
    }

    /// Compares the lists and the figures with those of the real class, and returns what is wrong.
    pub fn compare(&self, class: &ClassState) -> Checked {
        holds(class.next_number() == self.next, "another next number")?;
        holds(class.figures() == self.figures(), "other figures")?;
        for seg in SEGS.as_slice() {
            self.compare_list(class, *seg)?;
        }
        Ok(())
    }
}
