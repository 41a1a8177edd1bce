//! Tries of commands as rows: what each makes in its classes and its stripe, or what it wants, worked out by hand.
use super::asking::Asked::{
    Append, AppendRefused, At, Bury, Decr, Delete, Gat, Get, Incr, Juggle, Prepend, Refuse, See,
    Set, SetHuge, SetRefused, SetUntil, Touch,
};
use super::asking::{DOES, ITEM, NONE, Row, play};
use super::seeing::Seen::{Item, Lengths, List, Time};
use super::trying::Lend::{Both, Home, Nothing, Other};
use mc_item::Seg::{Cold, Hot, Warm};
use std::test::Fail;

// So many places as no test takes.
const MANY: u64 = 100;

const FIRST: &str = "Classes(Classes { home: Some(ClassNo(1)), other: None })";

const SECOND_OVER: &str = "Classes(Classes { home: Some(ClassNo(2)), other: Some(ClassNo(1)) })";

const CROWDED: &str = "Place(ClassNo(1))";

const MISS: Row = (Get(b'z'), Nothing, "Miss", DOES);

static SETS: [Row; 10] = [
    (Set(b'a', 1), Nothing, FIRST, NONE),
    (Set(b'a', 1), Other, FIRST, NONE),
    (Set(b'a', 1), Home, "Stored", ["[links 0]", "", "[does]"]),
    (
        Set(b'a', 1),
        Home,
        "Stored",
        ["[links 1][unlinks 0]", "", "[does]"],
    ),
    (See(Lengths), Nothing, "3 2", NONE),
    (See(List(Hot)), Nothing, "[1]", NONE),
    (Set(b'a', 60), Nothing, SECOND_OVER, NONE),
    (Set(b'a', 60), Home, SECOND_OVER, NONE),
    (
        Set(b'a', 60),
        Both,
        "Stored",
        ["[unlinks 1]", "[links 0]", "[does]"],
    ),
    (Set(b'b', 1), Home, "Stored", ["[links 2]", "", "[does]"]),
];

#[test]
fn a_set_makes_its_part_in_each_class_that_it_wants(rt: HostRuntime) -> Result<(), Fail> {
    play(&rt, rt.alloc(), 4, MANY, &[SETS.as_slice()])
}

static DELETES: [Row; 6] = [
    (Set(b'a', 1), Home, "Stored", ["[links 0]", "", "[does]"]),
    (Delete(b'a'), Nothing, ITEM, NONE),
    (Delete(b'a'), Home, ITEM, NONE),
    (
        Delete(b'a'),
        Other,
        "Deleted",
        ["[unlinks 0]", "", "[does]"],
    ),
    (See(Lengths), Nothing, "2 2", NONE),
    (Delete(b'a'), Nothing, "NotFound", DOES),
];

#[test]
fn a_delete_wants_the_class_of_its_item(rt: HostRuntime) -> Result<(), Fail> {
    play(&rt, rt.alloc(), 4, MANY, &[DELETES.as_slice()])
}

// A refusal counts only while the class is full.
static FULL: [Row; 10] = [
    (Set(b'a', 1), Home, "Stored", ["[links 0]", "", "[does]"]),
    (Set(b'b', 1), Home, "Room", NONE),
    (Set(b'a', 1), Home, "Room", NONE),
    (Refuse, Nothing, "refused at 1", ["[refuses]", "", ""]),
    (SetRefused(b'b', 1), Home, "NoRoom", DOES),
    (See(Lengths), Nothing, "2 2", NONE),
    (
        SetRefused(b'a', 1),
        Home,
        "NoRoom",
        ["[unlinks 0]", "", "[does]"],
    ),
    (See(Lengths), Nothing, "3 3", NONE),
    (See(Item(b'a')), Nothing, "absent", NONE),
    (
        SetRefused(b'b', 1),
        Home,
        "Stored",
        ["[links 1]", "", "[does]"],
    ),
];

#[test]
fn a_full_class_wants_room_or_a_refusal(rt: HostRuntime) -> Result<(), Fail> {
    play(&rt, rt.alloc(), 1, MANY, &[FULL.as_slice()])
}

// What tells a hit that makes the first item ACTIVE, or the second one.
const FIRST_WOKEN: &str = "a value, 0 of class 1 woken";

const SECOND_WOKEN: &str = "a value, 1 of class 1 woken";

// One item alone is more than the share of HOT, so it goes to COLD; the one that comes then stays in HOT.
static HITS: [Row; 13] = [
    (Set(b'a', 1), Home, "Stored", ["[links 0]", "", "[does]"]),
    (
        Juggle,
        Nothing,
        "1 moved",
        [
            "[surveys][moves 0 from Hot to Cold for Over(1) past [] at 1]",
            "",
            "",
        ],
    ),
    (At(1001), Nothing, "", NONE),
    (Get(b'a'), Nothing, "a value", DOES),
    (Get(b'a'), Nothing, FIRST_WOKEN, DOES),
    (See(List(Cold)), Nothing, "[0]", NONE),
    (See(List(Warm)), Nothing, "[]", NONE),
    (See(Time(0)), Nothing, "1000", NONE),
    (Get(b'a'), Other, "a value", DOES),
    (Set(b'b', 1), Home, "Stored", ["[links 1]", "", "[does]"]),
    (Get(b'b'), Nothing, "a value", DOES),
    (Get(b'b'), Other, SECOND_WOKEN, DOES),
    (Get(b'b'), Nothing, "a value", DOES),
];

#[test]
fn a_hit_that_wakes_an_item_tells_its_link_and_moves_nothing(rt: HostRuntime) -> Result<(), Fail> {
    play(&rt, rt.alloc(), 4, MANY, &[HITS.as_slice()])
}

// The class has one place left after eight sets, and then none.
static CROWDED_CLASS: [Row; 14] = [
    (Set(b'a', 1), Home, "Stored", ["[links 0]", "", "[does]"]),
    (
        Set(b'a', 1),
        Home,
        "Stored",
        ["[links 1][unlinks 0]", "", "[does]"],
    ),
    (
        Set(b'a', 1),
        Home,
        "Stored",
        ["[links 2][unlinks 1]", "", "[does]"],
    ),
    (
        Set(b'a', 1),
        Home,
        "Stored",
        ["[links 3][unlinks 2]", "", "[does]"],
    ),
    (
        Set(b'a', 1),
        Home,
        "Stored",
        ["[links 4][unlinks 3]", "", "[does]"],
    ),
    (
        Set(b'a', 1),
        Home,
        "Stored",
        ["[links 5][unlinks 4]", "", "[does]"],
    ),
    (
        Set(b'a', 1),
        Home,
        "Stored",
        ["[links 6][unlinks 5]", "", "[does]"],
    ),
    (
        Set(b'a', 1),
        Home,
        "Stored",
        ["[links 7][unlinks 6]", "", "[does]"],
    ),
    (See(Lengths), Nothing, "15 8", NONE),
    (Set(b'a', 1), Home, CROWDED, NONE),
    (See(Lengths), Nothing, "15 8", NONE),
    (Set(b'b', 1), Home, "Stored", ["[links 8]", "", "[does]"]),
    (Set(b'c', 1), Home, CROWDED, NONE),
    (Delete(b'a'), Other, CROWDED, NONE),
];

#[test]
fn a_set_over_an_item_wants_two_places_of_its_class(rt: HostRuntime) -> Result<(), Fail> {
    play(&rt, rt.alloc(), 4, 16, &[CROWDED_CLASS.as_slice()])
}

// The stripe has one place left after 15 commands, and then none.
static CROWDED_STRIPE: [Row; 22] = [
    (Set(b'a', 1), Home, "Stored", ["[links 0]", "", "[does]"]),
    (
        Juggle,
        Nothing,
        "1 moved",
        [
            "[surveys][moves 0 from Hot to Cold for Over(1) past [] at 1]",
            "",
            "",
        ],
    ),
    (Get(b'a'), Nothing, "a value", DOES),
    MISS,
    MISS,
    MISS,
    MISS,
    MISS,
    MISS,
    MISS,
    MISS,
    MISS,
    MISS,
    MISS,
    MISS,
    MISS,
    (Get(b'a'), Nothing, FIRST_WOKEN, DOES),
    (Get(b'a'), Other, "HistoryFull", NONE),
    (Get(b'z'), Nothing, "HistoryFull", NONE),
    (Delete(b'a'), Other, "HistoryFull", NONE),
    (See(Lengths), Nothing, "3 16", NONE),
    (See(List(Cold)), Nothing, "[0]", NONE),
];

#[test]
fn a_hit_in_cold_needs_one_place_of_its_stripe(rt: HostRuntime) -> Result<(), Fail> {
    play(&rt, rt.alloc(), 4, 16, &[CROWDED_STRIPE.as_slice()])
}

const BURIAL: &str = "Burial(Link { class: ClassNo(1), number: 0 })";

static OVER_THE_DEAD: [Row; 9] = [
    (
        SetUntil(b'a', 5),
        Home,
        "Stored",
        ["[links 0]", "", "[does]"],
    ),
    (At(1005), Nothing, "", NONE),
    (Set(b'a', 1), Home, BURIAL, NONE),
    (See(Lengths), Nothing, "1 1", NONE),
    (At(1004), Nothing, "", NONE),
    (Bury(0), Nothing, "Alive(At(1005))", NONE),
    (
        Set(b'a', 1),
        Home,
        "Stored",
        ["[links 1][unlinks 0]", "", "[does]"],
    ),
    (See(Lengths), Nothing, "3 2", NONE),
    (See(List(Hot)), Nothing, "[1]", NONE),
];

#[test]
fn a_set_over_a_dead_item_wants_its_burial(rt: HostRuntime) -> Result<(), Fail> {
    play(&rt, rt.alloc(), 4, MANY, &[OVER_THE_DEAD.as_slice()])
}

static BURIED: [Row; 9] = [
    (
        SetUntil(b'a', 5),
        Home,
        "Stored",
        ["[links 0]", "", "[does]"],
    ),
    (At(1005), Nothing, "", NONE),
    (Get(b'a'), Nothing, BURIAL, NONE),
    (Gat(b'a'), Nothing, BURIAL, NONE),
    (Append(b'a', 1), Home, BURIAL, NONE),
    (Delete(b'a'), Other, BURIAL, NONE),
    (
        Bury(0),
        Nothing,
        "Reclaimed",
        [
            "[reclaims 0 dead at 1005, at 1]",
            "",
            "[loses [97] dead at 1005]",
        ],
    ),
    (Get(b'a'), Nothing, "Miss", DOES),
    (Set(b'a', 1), Home, "Stored", ["[links 1]", "", "[does]"]),
];

#[test]
fn after_its_burial_a_dead_item_is_absent(rt: HostRuntime) -> Result<(), Fail> {
    play(&rt, rt.alloc(), 4, MANY, &[BURIED.as_slice()])
}

// A longer number is a new version, a shorter one is padded where it stands.
static COUNTS: [Row; 6] = [
    (Set(b'1', 1), Home, "Stored", ["[links 0]", "", "[does]"]),
    (Incr(b'1', 9), Nothing, FIRST, NONE),
    (
        Incr(b'1', 9),
        Home,
        "Number(10)",
        ["[links 1][unlinks 0]", "", "[does]"],
    ),
    (Decr(b'1', 5), Nothing, "Number(5)", DOES),
    (Set(b'a', 1), Home, "Stored", ["[links 2]", "", "[does]"]),
    (Incr(b'a', 1), Nothing, "NonNumeric", DOES),
];

#[test]
fn a_longer_number_wants_the_class_of_its_version(rt: HostRuntime) -> Result<(), Fail> {
    play(&rt, rt.alloc(), 4, MANY, &[COUNTS.as_slice()])
}

// A touch wakes an item as a get does.
static TOUCHES: [Row; 7] = [
    (Set(b'a', 1), Home, "Stored", ["[links 0]", "", "[does]"]),
    (
        Juggle,
        Nothing,
        "1 moved",
        [
            "[surveys][moves 0 from Hot to Cold for Over(1) past [] at 1]",
            "",
            "",
        ],
    ),
    (Touch(b'a'), Nothing, "Touched", DOES),
    (Touch(b'a'), Nothing, "Touched, 0 of class 1 woken", DOES),
    (Touch(b'a'), Nothing, "Touched", DOES),
    (See(List(Cold)), Nothing, "[0]", NONE),
    (Touch(b'z'), Nothing, "NotFound", DOES),
];

#[test]
fn a_touch_that_wakes_an_item_tells_its_link_and_moves_nothing(
    rt: HostRuntime,
) -> Result<(), Fail> {
    play(&rt, rt.alloc(), 4, MANY, &[TOUCHES.as_slice()])
}

// A gat wakes an item as a get does.
static GATS: [Row; 7] = [
    (Set(b'a', 1), Home, "Stored", ["[links 0]", "", "[does]"]),
    (
        Juggle,
        Nothing,
        "1 moved",
        [
            "[surveys][moves 0 from Hot to Cold for Over(1) past [] at 1]",
            "",
            "",
        ],
    ),
    (Gat(b'a'), Nothing, "a value", DOES),
    (Gat(b'a'), Nothing, FIRST_WOKEN, DOES),
    (Gat(b'a'), Other, "a value", DOES),
    (See(List(Cold)), Nothing, "[0]", NONE),
    (Gat(b'z'), Nothing, "Miss", DOES),
];

#[test]
fn a_gat_that_wakes_an_item_tells_its_link_and_moves_nothing(rt: HostRuntime) -> Result<(), Fail> {
    play(&rt, rt.alloc(), 4, MANY, &[GATS.as_slice()])
}

// An item of two bytes is of the first class. With 30 more it has 97 bytes and is of the second one, and with 96 more than that
// it is too large.
static JOINS: [Row; 9] = [
    (Append(b'a', 1), Home, "NotStored", DOES),
    (Set(b'a', 1), Home, "Stored", ["[links 0]", "", "[does]"]),
    (Append(b'a', 1), Nothing, FIRST, NONE),
    (
        Append(b'a', 1),
        Home,
        "Stored",
        ["[links 1][unlinks 0]", "", "[does]"],
    ),
    (Prepend(b'a', 30), Home, SECOND_OVER, NONE),
    (
        Prepend(b'a', 30),
        Both,
        "Stored",
        ["[unlinks 1]", "[links 0]", "[does]"],
    ),
    (Append(b'a', 96), Nothing, "TooLarge", DOES),
    (See(Lengths), Nothing, "4 5", NONE),
    (See(Item(b'a')), Nothing, "there", NONE),
];

#[test]
fn a_joined_value_wants_the_class_of_its_version(rt: HostRuntime) -> Result<(), Fail> {
    play(&rt, rt.alloc(), 4, MANY, &[JOINS.as_slice()])
}

static FULL_JOINS: [Row; 6] = [
    (Set(b'a', 1), Home, "Stored", ["[links 0]", "", "[does]"]),
    (Append(b'a', 1), Home, "Room", NONE),
    (Refuse, Nothing, "refused at 1", ["[refuses]", "", ""]),
    (AppendRefused(b'a', 1), Home, "NoRoom", DOES),
    (AppendRefused(b'b', 1), Home, "NotStored", DOES),
    (See(Item(b'a')), Nothing, "there", NONE),
];

#[test]
fn an_append_that_is_refused_leaves_the_entry_of_its_item(rt: HostRuntime) -> Result<(), Fail> {
    play(&rt, rt.alloc(), 1, MANY, &[FULL_JOINS.as_slice()])
}

// With 128 letters an item has 193 bytes, one more than the largest chunk.
static TOO_LARGE: [Row; 7] = [
    (SetHuge(b'a'), Nothing, "TooLarge", DOES),
    (Set(b'a', 128), Nothing, "TooLarge", DOES),
    (Set(b'a', 1), Home, "Stored", ["[links 0]", "", "[does]"]),
    (SetHuge(b'a'), Nothing, ITEM, NONE),
    (
        SetHuge(b'a'),
        Other,
        "TooLarge",
        ["[unlinks 0]", "", "[does]"],
    ),
    (See(Item(b'a')), Nothing, "absent", NONE),
    (
        Set(b'a', 127),
        Nothing,
        "Classes(Classes { home: Some(ClassNo(2)), other: None })",
        NONE,
    ),
];

#[test]
fn a_set_that_is_too_large_ends_the_entry_of_its_item(rt: HostRuntime) -> Result<(), Fail> {
    play(&rt, rt.alloc(), 4, MANY, &[TOO_LARGE.as_slice()])
}
