//! Schedules of one thread that a seed draws, the same each time. While up to three of four stripes are held, callers make commands
//! on the others, juggle, crawl and set limits. Then a walk passes an entry just where its stripe is held, and a search that gets
//! no other stripe takes the item of its own command. The histories are replayed as those of threads are.
ghost use Rattle.std.specs.Prelude.{◌≡◌, length};
ghost use Rattle.mc_store.specs.Opening.{AreParts};

use super::checker::{are_all_found, replay};
use super::class_checker::check_classes;
use super::meetings::{Met, asserts_met, count_met};
use super::opening::{Parts, opened, parts_for, two_classes};
use super::paces::PLAYERS;
use super::passes::{Step, check_passes, is_held};
use super::schedules::aimed;
use super::sharing::{Work, calls_of, compare_works, make_call};
use super::watching::Reads;
use super::{SCHEDULES, SEED, asking};
use mc_item::{ClassNo, Command, StripeNo, stripe_of};
use mc_store::{LockNo, Named, Pass, Store};
use mc_testing::{Dice, Drawing};
use std::alloc::Global;
use std::marker::Brand;
use std::process::Abort;
use std::random::RandomSource;
use std::sync::Wait;

// Behind the players one caller juggles, one crawls, and one sets limits.
const CALLERS: u32 = PLAYERS + 3;

// So many steps has a schedule.
const STEPS: u32 = 200;

// The callers with what they made, and what is drawn.
#[derive(Drop)]
struct Game<N: Named> {
    works: Vec<Work<N>>,
    dice: Dice,
    drawing: Drawing,
}

// A command that is drawn in one of two ways.
fn command_in<N: Named, R: Abort>(rt: &R, alloc: Global, game: &mut Game<N>) -> Command {
    if game.dice.below(2) == 0 {
        return aimed(rt, alloc, &mut game.dice);
    }
    game.drawing.command(alloc).expect(rt, "a command")
}

// A player makes a command, unless its stripe is held.
fn play<N: Named, R: Abort + Wait>(
    rt: &R,
    alloc: Global,
    store: &Store<N>,
    game: &mut Game<N>,
    step: Step,
) {
    let moment = game.drawing.moment();
    let command = command_in(rt, alloc, game);
    if is_held(step, stripe_of(command.key(), 4).0) {
        return;
    }
    let player = game.dice.below(u64::from(PLAYERS)) as usize;
    let work = game.works.get_mut(player).expect(rt, "a player");
    make_call(rt, alloc, store, work, command, moment);
    let call = work.calls.as_slice().last().expect(rt, "a call");
    game.drawing.note(&call.command, &call.reply);
}

// Juggles, crawls or limits one of the classes.
fn keep_up<N: Named, R: Abort + Wait>(
    rt: &R,
    alloc: Global,
    store: &Store<N>,
    game: &mut Game<N>,
    which: u64,
)
    requires { length N.config.sizes ≡ 2 }
{
    let moment = game.drawing.moment();
    let class = ClassNo(1 + game.dice.below(2) as u32);
    let caller = u64::from(PLAYERS).wrapping_add(which) as usize;
    let work = game.works.get_mut(caller).expect(rt, "a caller");
    let pass = &mut work.pass;
    match which {
        0 => {
            asking::juggle(rt, store, pass, class, moment);
        }
        1 => {
            asking::crawl(rt, alloc, store, pass, class, moment);
        }
        _ => asking::limit(rt, store, pass, class, 1 + game.dice.below(4)),
    }
}

// Makes a few calls while the stripes of a step are held.
fn make_calls<N: Named, R: Abort + Wait>(
    rt: &R,
    alloc: Global,
    store: &Store<N>,
    game: &mut Game<N>,
    step: Step,
)
    requires { length N.config.sizes ≡ 2 }
{
    for _ in 0..1 + game.dice.below(4) {
        match game.dice.below(8) {
            which @ 0..=2 => keep_up(rt, alloc, store, game, which),
            _ => play(rt, alloc, store, game, step),
        }
    }
}

// Holds the first stripe of a step meanwhile.
fn hold_one<N: Named, R: Abort + Wait>(
    rt: &R,
    alloc: Global,
    store: &Store<N>,
    game: &mut Game<N>,
    step: Step,
)
    requires { (N.config.stripes ≡ 4) × (length N.config.sizes ≡ 2) }
{
    let stripe = StripeNo(step.first % 4);
    store.visit_stripe(
        rt,
        stripe,
        |_state| make_calls(rt, alloc, store, game, step),
    );
}

// Holds the first two.
fn hold_two<N: Named, R: Abort + Wait>(
    rt: &R,
    alloc: Global,
    store: &Store<N>,
    game: &mut Game<N>,
    step: Step,
)
    requires { (N.config.stripes ≡ 4) × (length N.config.sizes ≡ 2) }
{
    let stripe = StripeNo(step.first.wrapping_add(1) % 4);
    store.visit_stripe(rt, stripe, |_state| hold_one(rt, alloc, store, game, step));
}

// Holds all three.
fn hold_three<N: Named, R: Abort + Wait>(
    rt: &R,
    alloc: Global,
    store: &Store<N>,
    game: &mut Game<N>,
    step: Step,
)
    requires { (N.config.stripes ≡ 4) × (length N.config.sizes ≡ 2) }
{
    let stripe = StripeNo(step.first.wrapping_add(2) % 4);
    store.visit_stripe(rt, stripe, |_state| hold_two(rt, alloc, store, game, step));
}

// Makes a step, and notes how many events the classes have then.
fn make_step<N: Named, R: Abort + Wait>(
    rt: &R,
    alloc: Global,
    store: &Store<N>,
    game: &mut Game<N>,
) -> Step
    requires { (N.config.stripes ≡ 4) × (length N.config.sizes ≡ 2) }
{
    let mut step = Step {
        first: game.dice.below(4) as u32,
        many: game.dice.below(4) as u32,
        events: [0, 0],
    };
    match step.many {
        0 => make_calls(rt, alloc, store, game, step),
        1 => hold_one(rt, alloc, store, game, step),
        2 => hold_two(rt, alloc, store, game, step),
        _ => hold_three(rt, alloc, store, game, step),
    }
    let work = game.works.get_mut(0).expect(rt, "a player");
    let first = store.events(&mut work.pass, LockNo::Class(ClassNo(1)));
    let second = store.events(&mut work.pass, LockNo::Class(ClassNo(2)));
    step.events = [first, second];
    step
}

// Callers with these passes, who have made nothing.
fn works_of<N: Named, R: Abort>(rt: &R, alloc: Global, passes: Vec<Pass<N>>) -> Vec<Work<N>> {
    let mut works = Vec::new(alloc);
    for pass in passes {
        let work = Work {
            pass,
            calls: Vec::new(alloc),
            reads: Reads::new(alloc),
        };
        works.push(work).ok().expect(rt, "room for a caller");
    }
    works
}

// Makes all steps of a schedule.
fn make_steps<N: Named, R: Abort + Wait>(
    rt: &R,
    alloc: Global,
    store: &Store<N>,
    game: &mut Game<N>,
) -> Vec<Step>
    requires { (N.config.stripes ≡ 4) × (length N.config.sizes ≡ 2) }
{
    let mut steps = Vec::new(alloc);
    for _ in 0..STEPS {
        let step = make_step(rt, alloc, store, game);
        steps.push(step).expect(rt, "room for a step");
    }
    steps
}

// Goes by a schedule on a new store. Then it is closed, replayed, and held against the passes.
fn run_on<N: Named, R: Abort + Wait>(
    rt: &R,
    alloc: Global,
    parts: Parts,
    seed: u64,
    chunks: [u64; 2],
    met: &mut Met,
)
    requires named { (parts.tokens.board ≡ N.board) × (parts.config ≡ N.config) × (parts.tokens.queues ≡ N.queues) }
    requires fit { AreParts N.board N.config N.queues parts.tokens }
    requires shape { (N.config.stripes ≡ 4) × (length N.config.sizes ≡ 2) }
{
    let (store, passes) = opened::<N, R>(rt, alloc, parts);
    let mut game = Game {
        works: works_of(rt, alloc, passes),
        dice: Dice::new(seed),
        drawing: Drawing::new(seed),
    };
    let steps = make_steps(rt, alloc, &store, &mut game);
    let mut threads = calls_of(rt, alloc, &mut game.works);
    let mut ledger = store.close();
    compare_works(&mut ledger, &mut game.works);
    replay(rt, alloc, &ledger, 4, &mut threads);
    check_classes(rt, alloc, &ledger, 4, chunks);
    are_all_found(rt, &threads);
    check_passes(rt, alloc, &ledger, steps.as_slice(), seed);
    count_met(rt, &ledger, met);
}

// Draws a schedule by a seed, and notes what it met.
fn run<R: Abort + Wait + RandomSource>(rt: &R, alloc: Global, seed: u64, met: &mut Met) {
    let mut dice = Dice::new(seed);
    let chunks = [1 + dice.below(4), 1 + dice.below(2)];
    let config = two_classes(rt, alloc, 4, chunks, CALLERS);
    let parts = parts_for(rt, alloc, config);
    run_on::<Brand, R>(rt, alloc, parts, seed, chunks, met);
}

#[test]
fn walks_pass_just_what_is_held(rt: HostRuntime) {
    let mut met = Met::none();
    for number in 0..SCHEDULES {
        let seed = SEED.wrapping_add(number);
        eprintln!(rt; "schedule of seed {seed}").expect(&rt, "an error stream");
        run(&rt, rt.alloc(), seed, &mut met);
    }
    asserts_met(&rt, met);
}
