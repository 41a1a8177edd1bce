//! The figures of a lock's history, read without the lock: the words of a try, and its steps.
ghost use Rattle.std.specs.Prelude.{◌≡◌, ◌<◌, ◌≤◌, ◌+◌, ◌/◌, ◌%◌, ◌^◌, [], length};
ghost use Rattle.mc_board.specs.Looking.{checked_in, looking, opened_in, reading_of, IsAsLong};
ghost use Rattle.mc_board.specs.{Steps.known_of, Views.first_word, Views.locks_of};
ghost use Rattle.mc_board.specs.declared.rule.Look.TheVariants as looks;
ghost use Rattle.mc_board.specs.declared.rule.View.TheVariants as views;

use crate::board::Board;
use crate::rule::Place;
use crate::steps::{Checks, OpensLook, ReadsOne};
use std::fmt::{self, Display, Formatter, Write};

/// The figures of a class's lists at one moment. Each array has them in the order HOT, WARM, COLD, TEMP. Those of a lock that is no
/// class's are 0.
/// Source: memcached's `stats items` shows such numbers of entries, and `stats slabs` such bytes.
#[derive(Clone, Copy, Debug, PartialEq, Eq)]
pub struct Figures {
    /// How many events the history had.
    pub events: u64,
    /// The sum of the costs of the list's entries, in bytes.
    pub bytes: [u64; 4],
    /// The number of the list's entries.
    pub counts: [u64; 4],
}

/// Why a try found no figures of one moment: the lock's first word, as it was found before and after. If the first number is
/// odd, the owner was writing, and nothing more was read. Otherwise it has written in between.
#[derive(Clone, Copy, Debug, PartialEq, Eq)]
pub struct Busy {
    /// Twice the number of the history's events, and 1 more if the owner was writing.
    pub first: u64,
    /// The same after the figures were read.
    pub last: u64,
}

impl Display for Busy {
    fn fmt<W: Write>(&self, f: &mut Formatter<W>) -> Result<(), fmt::Error> {
        write!(
            f,
            "the figures were being written: the lock's first word was {} and then {}",
            self.first, self.last
        )
    }
}

// Reads a lock's first word in one atomic step, and notes half of it.
pub(crate) fn open_look(board: &Board, lock: usize, word: usize, place: &mut Place) -> u64
    requires board { place.old.table_id ≡ board.now.table }
    requires lock { lock < locks_of board.now.counts }
    requires word { (word ≡ first_word board.now.counts lock) × (word < board.now.table.words) }
    requires token { place.old.me ≡ (views.Seen (known_of place.old.me.0), []) }
    ensures place { (place.new.table_id ≡ place.old.table_id) × (place.new.id ≡ place.old.id) }
    ensures opened { place.new.me ≡ (opened_in lock result place.old.me.0, []) }
    ensures later { IsAsLong lock (result / 2) place.old.me.0 }
{
    board.table.shared.load::<OpensLook>(place, word)
}

// Reads the eight figures, each in one atomic step.
pub(crate) fn gather(board: &Board, word: usize, place: &mut Place) -> [u64; 8]
    requires board { place.old.table_id ≡ board.now.table }
    requires word { word ≡ first_word board.now.counts (reading_of place.old.me.0).lock }
    requires within { (word + 8 < board.now.table.words) × (board.now.table.words < 2 ^ 64) }
    requires opened { place.old.me ≡ (looking (known_of place.old.me.0) [], []) }
    ensures place { (place.new.table_id ≡ place.old.table_id) × (place.new.id ≡ place.old.id) }
    ensures read { (length result ≡ 8) × (place.new.me ≡ (looking (known_of place.old.me.0) result, [])) }
{
    let mut values = [0u64; 8];
    for i in 0..8 {
        values[i] = board.table.shared.load::<ReadsOne>(place, word + (i + 1));
    }
    values
}

// Reads the first word again, in one atomic step, and notes the figures if it is as it was.
pub(crate) fn check_look(board: &Board, word: usize, place: &mut Place) -> u64
    requires board { place.old.table_id ≡ board.now.table }
    requires word { (word ≡ first_word board.now.counts (reading_of place.old.me.0).lock)
        × (word < board.now.table.words) }
    requires token { place.old.me ≡ (views.Seen (known_of place.old.me.0), []) }
    requires reading { (known_of place.old.me.0).look ≡ looks.Reading (reading_of place.old.me.0) }
    requires whole { ((reading_of place.old.me.0).at % 2 ≡ 0) × (length (reading_of place.old.me.0).got ≡ 8) }
    ensures place { (place.new.table_id ≡ place.old.table_id) × (place.new.id ≡ place.old.id) }
    ensures checked { place.new.me ≡ (checked_in result place.old.me.0, []) }
    ensures moved { (reading_of place.old.me.0).at ≤ result }
{
    board.table.shared.load::<Checks>(place, word)
}
