//! The cases, as data.
use crate::acts::Act::{
    self, Advance, Ask, Cool, Crawl, Evict, Expire, FillClass, FillStripe, Force, JudgeDead,
    JudgeHit, JudgeTail, Juggle, Limit, Link, MakeRoom, Pull, Reclaim, Refuse, ReserveClass,
    ReserveStripe, Survey, Take, TakeLinks, Unlink,
};
use crate::asking::Asked::{Delete, Gat, Get, Incr, Store, Touch};
use crate::plain::Plain;
use crate::readers::Piece::{self, Given, Lent};
use crate::stores::Called::{self, Command, Misses};
use Call::{
    CopyCommand, CopyKey, FoundText, Make, OpenStore, OpenTokens, Read, Shared, Split, Value, World,
};
use mc_item::Verb::{Append, Prepend, Set};

/// A case's call, with what comes before it.
#[derive(Clone, Copy)]
pub(crate) enum Call {
    /// Nothing comes before.
    Make(Plain),
    Value,
    CopyKey,
    CopyCommand,
    Split,
    FoundText,
    OpenTokens,
    OpenStore,
    /// A reader is fed what comes before, and reads a piece.
    Read(&'static str, Piece),
    /// On a stripe and a class.
    World(&'static [Act], Act),
    /// On a store.
    Shared(&'static [Called], Called),
}

// Commands at 1000. The item of the second set is dead at 1001.
const SET: Act = Ask(b'a', Store(Set, "1", 0));

const SET_TO_DIE: Act = Ask(b'a', Store(Set, "1", 1));

const SET_OVER: Act = Ask(b'a', Store(Set, "22", 0));

const SET_TWO_DIGITS: Act = Ask(b'a', Store(Set, "99", 0));

const APPEND: Act = Ask(b'a', Store(Append, "23", 0));

const PREPEND: Act = Ask(b'a', Store(Prepend, "23", 0));

const INCR: Act = Ask(b'a', Incr);

const GET: Act = Ask(b'a', Get);

const SET_ANOTHER: Act = Ask(b'b', Store(Set, "1", 0));

const LINK: Act = Link(b'a');

// An item and its entry; then the same in various states. After `FillStripe` the next event of the stripe takes memory for a
// further piece of its history, and after `FillClass` that of the class.
const STORED: &[Act] = &[SET, LINK];

const DEAD: &[Act] = &[SET_TO_DIE, LINK, FillStripe, FillClass];

const IN_HOT: &[Act] = &[SET, LINK, Limit, FillStripe, FillClass];

const IN_COLD: &[Act] = &[SET, LINK, Limit, Force, FillStripe, FillClass];

const ACTIVE_IN_COLD: &[Act] = &[SET, LINK, Limit, Force, GET, GET, FillStripe, FillClass];

// The item of COLD's tail is dead at 1001, and the entry before it is to be evicted.
const TWO_IN_COLD: &[Act] = &[
    SET_TO_DIE,
    LINK,
    SET_ANOTHER,
    Link(b'b'),
    Limit,
    Force,
    Force,
    FillStripe,
    FillClass,
];

const ACTIVE: &[Act] = &[SET, LINK, GET, GET, FillStripe];

const EXPIRING: &[Act] = &[SET_TO_DIE, FillStripe];

// Pieces that readers read: the end of a line and another one, and the end of the block that is begun.
const LINES: &str = " b\r\nget c\r\n";

const BLOCK: &str = "llo\r\n";

const BEGUN: &str = "set a 0 0 5\r\nhe";

// On a store. The longer value is of the second class.
const SET_SHARED: Called = Command(b'a', Store(Set, "1", 0));

const SET_LONGER: Called = Command(b'a', Store(Set, "123456", 0));

const GET_SHARED: Called = Command(b'a', Get);

const APPEND_SHARED: Called = Command(b'a', Store(Append, "23", 0));

// Four items, which take all chunks of the first class.
const FULL_SHARED: &[Called] = &[
    Command(b'b', Store(Set, "1", 0)),
    Command(b'c', Store(Set, "1", 0)),
    Command(b'd', Store(Set, "1", 0)),
    Command(b'e', Store(Set, "1", 0)),
];

// An active item. The stripe's next event takes memory for a second piece of 4,096 events.
const ACTIVE_SHARED: &[Called] = &[SET_SHARED, GET_SHARED, GET_SHARED, Misses(4_093)];

// Two items that are dead at 1001. The stripe's second event from now on takes memory.
const DYING_SHARED: &[Called] = &[
    Command(b'a', Store(Set, "1", 1)),
    Command(b'b', Store(Set, "1", 1)),
    Misses(4_093),
];

/// Returns the cases, each under its name.
pub(crate) fn cases() -> &'static [(&'static str, Call)] {
    CASES.as_slice()
}

static CASES: [(&str, Call); 63] = [
    ("key", Make(Plain::Key)),
    ("key_copy", CopyKey),
    ("value", Value),
    ("command_copy", CopyCommand),
    ("usual_configuration", Make(Plain::Config)),
    ("plan", Make(Plain::Plan)),
    ("words", Make(Plain::Words)),
    ("reply_text", Make(Plain::Reply)),
    ("value_text", FoundText),
    ("fault_text", Make(Plain::Fault)),
    ("moves_text", Make(Plain::Moves)),
    ("histogram_text", Make(Plain::Histogram)),
    ("chunks_text", Make(Plain::Chunks)),
    ("scripts", Split),
    ("feed_of_a_line", Read("get a", Lent(LINES))),
    ("feed_of_a_block", Read(BEGUN, Lent(BLOCK))),
    ("take_of_a_line", Read("get a", Given(LINES))),
    ("take_of_a_block", Read(BEGUN, Given(BLOCK))),
    ("stripe_reserve", World(&[], ReserveStripe(5000))),
    ("set_of_a_new_key", World(&[], SET)),
    ("set_over_an_item", World(STORED, SET_OVER)),
    ("append", World(STORED, APPEND)),
    ("prepend", World(STORED, PREPEND)),
    ("incr", World(STORED, INCR)),
    ("longer_number", World(&[SET_TWO_DIGITS, LINK], INCR)),
    ("get", World(STORED, GET)),
    ("get_of_an_absent_key", World(&[], GET)),
    ("gat", World(STORED, Ask(b'a', Gat))),
    ("touch", World(STORED, Ask(b'a', Touch))),
    ("delete", World(STORED, Ask(b'a', Delete))),
    ("forget_expired", World(EXPIRING, Expire)),
    ("forget_taken", World(&[SET, FillStripe], Take)),
    ("cool", World(ACTIVE, Cool)),
    ("class_reserve", World(&[], ReserveClass(5000))),
    ("link", World(&[], LINK)),
    ("survey", World(&[], Survey)),
    ("set_chunks", World(&[], Limit)),
    ("refuse", World(&[LINK, Limit, FillClass], Refuse)),
    ("unlink", World(&[LINK, FillClass], Unlink)),
    ("reclaim", World(&[LINK, FillClass], Reclaim)),
    ("shift", World(&[LINK, Limit, FillClass], Force)),
    ("evict", World(&[LINK, Limit, Force, FillClass], Evict)),
    ("settle_of_a_dead_item", World(DEAD, JudgeDead)),
    ("settle_of_a_hit", World(ACTIVE_IN_COLD, JudgeHit)),
    ("settle_of_a_tail", World(IN_COLD, JudgeTail)),
    ("pull_tail", World(TWO_IN_COLD, Pull)),
    ("make_room", World(IN_HOT, MakeRoom)),
    ("juggle", World(ACTIVE, Juggle)),
    ("advance", World(ACTIVE_IN_COLD, Advance)),
    ("snapshot", World(STORED, TakeLinks)),
    ("crawl_one", World(DEAD, Crawl)),
    ("board_open", Make(Plain::Board)),
    ("queues_open", Make(Plain::Queues)),
    ("tokens_open", OpenTokens),
    ("store_open", OpenStore),
    ("store_get", Shared(&[SET_SHARED], GET_SHARED)),
    ("store_set", Shared(&[], SET_SHARED)),
    (
        "store_set_over_another_class",
        Shared(&[SET_SHARED], SET_LONGER),
    ),
    ("store_append", Shared(&[SET_SHARED], APPEND_SHARED)),
    ("store_set_for_a_chunk", Shared(FULL_SHARED, SET_SHARED)),
    ("store_juggle", Shared(ACTIVE_SHARED, Called::Juggle)),
    ("store_crawl", Shared(DYING_SHARED, Called::Crawl)),
    ("store_chunks", Shared(&[], Called::Limit)),
];
