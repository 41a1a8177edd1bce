//! Tails of small classes are judged by `settle` and by the plain program of the table. Whatever they leave is compared with a
//! plain class.
use super::SEED;
use super::judging::judge;
use super::plain_table::Row::{
    AtAge, AtLimit, ColdActive, ColdKept, ColdTaken, Dead, HotActive, HotForced, Kept, Old, Over,
    Stranger, TempAlive, WarmActive,
};
use super::plain_table::{Known, Row, Way, done_of, due_of, row_of};
use super::random_classes::{Game, ask_one, begun, letter_of, link_one};
use super::seeing::{events, last_event};
use mc_item::Seg::{Cold, Hot, Temp, Warm};
use mc_item::{ClassEvent, Seg, Why};
use mc_pull::{Done, Mode};
use mc_segment::Survey;
use mc_testing::{Checked, Dice, WHO, World, key};
use std::alloc::Global;
use std::process::Abort;
use std::random::RandomSource;
use std::test::Fail;

// How many classes are tried before it is looked whether each row was met, how often at most, and how many turns each has.
const CLASSES: u64 = 200;

const ROUNDS: u32 = 20;

const TURNS: u64 = 12;

static SEGS: [Seg; 4] = [Hot, Warm, Cold, Temp];

// A list, a way to judge its tail, and the row that decided.
type Met = (Seg, Way, Row);

// What has to be met: each row of the table, at each list and in each way in which it can decide.
static TABLE: [Met; 27] = [
    (Hot, Way::Plain, Dead),
    (Hot, Way::Force, Dead),
    (Warm, Way::Plain, Dead),
    (Cold, Way::Plain, Dead),
    (Cold, Way::Evict, Dead),
    (Temp, Way::Plain, Dead),
    (Hot, Way::Plain, HotActive),
    (Hot, Way::Force, HotActive),
    (Hot, Way::Force, HotForced),
    (Hot, Way::Plain, Over),
    (Hot, Way::Plain, Old),
    (Hot, Way::Plain, Kept),
    (Hot, Way::Plain, AtLimit),
    (Hot, Way::Plain, AtAge),
    (Warm, Way::Plain, Over),
    (Warm, Way::Plain, Old),
    (Warm, Way::Plain, Kept),
    (Warm, Way::Plain, AtLimit),
    (Warm, Way::Plain, AtAge),
    (Warm, Way::Plain, WarmActive),
    (Cold, Way::Evict, ColdTaken),
    (Cold, Way::Plain, ColdActive),
    (Cold, Way::Plain, ColdKept),
    (Temp, Way::Plain, TempAlive),
    (Hot, Way::Plain, Stranger),
    (Cold, Way::Plain, Stranger),
    (Cold, Way::Evict, Stranger),
];

// Whether an item is in the stripe, and whether it is active.
fn marks_there(world: &World, number: u64) -> Result<(bool, bool), Fail> {
    let key = key(world.alloc, letter_of(number))?;
    match world.stripe.find(&key) {
        Some(item) => Ok((true, item.marks.active)),
        None => Ok((false, false)),
    }
}

// Asserts that an item is as it is known.
fn check_item<R: Abort>(
    rt: &R,
    world: &World,
    known: Known,
    number: u64,
    met: Met,
) -> Result<(), Fail> {
    let marks = marks_there(world, number)?;
    let wanted = (known.held, known.held && known.hits >= 2);
    assert_eq!(rt; marks, wanted, "{number} after {met:?}");
    Ok(())
}

// The plain class takes the events that are new to it, and is compared with the class.
fn catch_up(game: &mut Game) -> Checked {
    let world = &game.world;
    let history = world.class.history();
    for place in game.taken..history.len() {
        if let Some(event) = history.get(place) {
            game.plain.next(event, history)?;
        }
    }
    game.taken = history.len();
    game.plain.compare(&world.class)
}

// Asserts that each event is lawful, that lists and figures are those of the plain class, and that the items are as they are
// known.
fn check_same<R: Abort>(rt: &R, game: &mut Game, met: Met) -> Result<(), Fail> {
    assert_eq!(rt; catch_up(game), Ok(()), "after {met:?}");
    for (number, known) in game.items.iter().enumerate() {
        check_item(rt, &game.world, *known, number as u64, met)?;
    }
    Ok(())
}

// How many events a row makes in the class and in the stripe.
fn events_of(row: Row) -> (usize, usize) {
    match row {
        Stranger | Kept | AtLimit | AtAge | ColdKept | TempAlive => (0, 0),
        HotForced | Over | Old => (1, 0),
        Dead | HotActive | WarmActive | ColdTaken | ColdActive => (1, 1),
    }
}

// Whether the class's last event is the one of a row, if it makes one. For bytes or age it cites the survey.
fn is_said(world: &World, row: Row, survey: Survey) -> bool {
    let event = last_event(&world.class);
    let why = match event {
        Some(ClassEvent::Shifted(shifted)) => Some(shifted.why),
        _ => None,
    };
    match row {
        HotActive | WarmActive | ColdActive => why == Some(Why::Active),
        HotForced => why == Some(Why::Forced),
        Over => why == Some(Why::Over(survey.place)),
        Old => why == Some(Why::Old(survey.place)),
        Dead => matches!(event, Some(ClassEvent::Reclaimed(_))),
        ColdTaken => matches!(event, Some(ClassEvent::Evicted(_))),
        Stranger | Kept | AtLimit | AtAge | ColdKept | TempAlive => true,
    }
}

// How a list's tail is judged: by a survey, or, where the class is full, for a chunk.
fn way_of(seg: Seg, full: bool, chance: u64) -> Way {
    match seg {
        Hot if full && chance == 0 => Way::Force,
        Cold if full && chance < 2 => Way::Evict,
        _ => Way::Plain,
    }
}

// A list that has a tail, the tail's number, how old its entry is, and a way to judge it.
fn drawn_tail(game: &Game, dice: &mut Dice) -> Option<(u64, u64, Seg, Way)> {
    let seg = SEGS[dice.below(4) as usize];
    let way = way_of(seg, game.world.class.is_full(), dice.below(4));
    let tail = game.world.class.from_tail(seg, 0)?;
    Some((tail.number, game.moment.saturating_sub(tail.time), seg, way))
}

// What is known of an item after a row: it goes, or its mark is cleared, so that the next hit makes it active again.
fn known_after(row: Row, known: Known) -> Known {
    match done_of(row) {
        Done::Reclaimed | Done::Evicted => Known {
            held: false,
            ..known
        },
        Done::ToWarm | Done::WithinWarm => Known { hits: 1, ..known },
        Done::ToCold | Done::Stayed | Done::Alive(_) | Done::Stranger => known,
    }
}

fn mode_of(way: Way, survey: Survey) -> Mode {
    match way {
        Way::Plain => Mode::Plain(survey),
        Way::Evict => Mode::Evict,
        Way::Force => Mode::Force,
    }
}

// Asserts that a judgement made the events of its row.
fn check_events<R: Abort>(rt: &R, before: (usize, usize), after: (usize, usize), met: Met) {
    let made = events_of(met.2);
    let class = before.0.saturating_add(made.0);
    let stripe = before.1.saturating_add(made.1);
    assert_eq!(rt; after, (class, stripe), "at {met:?}");
}

// Judges a tail, and compares what is left.
fn judge_both<R: Abort>(
    rt: &R,
    game: &mut Game,
    number: u64,
    met: Met,
    survey: Survey,
) -> Result<(), Fail> {
    let (seg, way, row) = met;
    let world = &game.world;
    let before = events(&world.class, &world.stripe);
    let judged = judge(&mut game.world, seg, mode_of(way, survey), game.moment)?;
    let world = &game.world;
    let after = events(&world.class, &world.stripe);
    assert_eq!(rt; judged, Some((number, done_of(row))), "at {met:?}");
    check_events(rt, before, after, met);
    assert!(rt; is_said(world, row, survey), "at {met:?}");
    if let Some(known) = game.items.get_mut(number as usize) {
        *known = known_after(row, *known);
    }
    check_same(rt, game, met)
}

// The row of an entry of a list, by its age and a survey.
fn row_at(game: &Game, number: u64, age: u64, seg: Seg, way: Way, survey: Survey) -> Option<Row> {
    let known = game.items.get(number as usize).copied()?;
    if !known.held {
        return Some(Stranger);
    }
    let due = due_of(seg, game.world.class.bytes(seg), age, survey, game.shares);
    row_of(seg, way, known.is_dead(game.moment), known.hits >= 2, due)
}

// Judges the tail of a list by a survey, if it has any, and compares what is left.
fn judge_one<R: Abort>(
    rt: &R,
    game: &mut Game,
    dice: &mut Dice,
    survey: Survey,
) -> Result<Option<Met>, Fail> {
    let Some((number, age, seg, way)) = drawn_tail(game, dice) else {
        return Ok(None);
    };
    let row = row_at(game, number, age, seg, way, survey).expect(rt, "a row");
    let met = (seg, way, row);
    judge_both(rt, game, number, met, survey)?;
    Ok(Some(met))
}

// Judges the tails of two lists by one survey.
fn judge_two<R: Abort>(
    rt: &R,
    game: &mut Game,
    dice: &mut Dice,
    met: &mut Vec<Met>,
) -> Result<(), Fail> {
    let survey = game.world.class.survey(WHO, game.moment)?;
    for _ in 0..2 {
        if let Some(one) = judge_one(rt, game, dice, survey)? {
            met.push(one)?;
        }
    }
    Ok(())
}

// One turn: time passes, an item may come where a chunk is free, another is asked for, and two tails are judged.
fn take_turn<R: Abort>(
    rt: &R,
    game: &mut Game,
    dice: &mut Dice,
    met: &mut Vec<Met>,
) -> Result<(), Fail> {
    game.moment = game.moment.saturating_add(dice.below(4));
    if !game.world.class.is_full() && dice.below(2) == 0 {
        link_one(game, dice)?;
    }
    ask_one(game, dice)?;
    judge_two(rt, game, dice, met)
}

// Fills a class, and takes its turns.
fn take_turns<R: Abort>(
    rt: &R,
    game: &mut Game,
    dice: &mut Dice,
    met: &mut Vec<Met>,
) -> Result<(), Fail> {
    for _ in 0..game.world.class.chunks() {
        link_one(game, dice)?;
    }
    for _ in 0..TURNS {
        take_turn(rt, game, dice, met)?;
    }
    Ok(())
}

fn play_class<R: Abort + RandomSource>(
    rt: &R,
    alloc: Global,
    dice: &mut Dice,
    met: &mut Vec<Met>,
) -> Result<(), Fail> {
    let mut game = begun(rt, alloc, dice)?;
    take_turns(rt, &mut game, dice, met)
}

// How often a row was met.
fn count_of(met: &[Met], wanted: Met) -> u64 {
    let mut count: u64 = 0;
    for one in met {
        if *one == wanted {
            count = count.saturating_add(1);
        }
    }
    count
}

// Asserts that each row was met.
fn check_met<R: Abort>(rt: &R, met: &[Met]) {
    assert!(rt; met.len() >= 500, "only {} cases", met.len());
    for row in TABLE {
        assert!(rt; count_of(met, row) > 0, "never {row:?}");
    }
}

// Whether each row was met.
fn is_each_met(met: &[Met]) -> bool {
    for row in TABLE {
        if count_of(met, row) == 0 {
            return false;
        }
    }
    true
}

// Plays classes that are drawn.
fn play_classes<R: Abort + RandomSource>(
    rt: &R,
    alloc: Global,
    dice: &mut Dice,
    met: &mut Vec<Met>,
) -> Result<(), Fail> {
    for _ in 0..CLASSES {
        play_class(rt, alloc, dice, met)?;
    }
    Ok(())
}

// Plays the classes that a seed draws, and further ones while a row wasn't met.
fn run<R: Abort + RandomSource>(rt: &R, alloc: Global, seed: u64) -> Result<(), Fail> {
    let mut dice = Dice::new(seed);
    let mut met = Vec::new(alloc);
    for _ in 0..ROUNDS {
        play_classes(rt, alloc, &mut dice, &mut met)?;
        if is_each_met(met.as_slice()) {
            break;
        }
    }
    check_met(rt, met.as_slice());
    Ok(())
}

#[test]
fn tails_are_judged_by_the_table(rt: HostRuntime) -> Result<(), Fail> {
    run(&rt, rt.alloc(), SEED)
}
