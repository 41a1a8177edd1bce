//! One entry is judged with its stripe.
ghost use Rattle.mc_pull.specs.Question.{MayJudgeBy};

use crate::end::{End, end_of};
use crate::marks::Marks;
use mc_item::{Passed, Seg};
use mc_pull::{Judge, Mode, settle};
use mc_testing::{World, context};

// The moment of each step, at which the items that expire are dead.
const LATER: u64 = 1001;

fn judge(world: &mut World, number: u64, asked: &Judge, marks: Marks) -> End
    requires { MayJudgeBy world.old.class (record { caller = 0; turn = 0 }) number 1001 asked.now }
{
    let context = context(LATER, &world.config);
    marks.begin();
    let done = settle(context, &mut world.class, &mut world.stripe, number, asked);
    marks.end();
    end_of(done)
}

/// Asks whether the item of the first entry is dead.
pub(crate) fn judge_dead(world: &mut World, marks: Marks) -> End {
    if world.class.segment_of(0).is_none() {
        return End::Other;
    }
    judge(world, 0, &Judge::Dead, marks)
}

/// Asks what a hit makes of COLD's tail.
pub(crate) fn judge_hit(world: &mut World, marks: Marks) -> End {
    let Some(entry) = world.class.from_tail(Seg::Cold, 0) else {
        return End::Other;
    };
    let number = entry.number;
    judge(world, number, &Judge::Hit, marks)
}

/// Judges COLD's tail in a full class, which wants its chunk.
pub(crate) fn judge_tail(world: &mut World, marks: Marks) -> End {
    if !world.class.is_full() {
        return End::Other;
    }
    let Some(entry) = world.class.from_tail(Seg::Cold, 0) else {
        return End::Other;
    };
    let number = entry.number;
    let walk = Judge::Walk {
        seg: Seg::Cold,
        mode: Mode::Evict,
        passed: Passed::of(&[]),
    };
    judge(world, number, &walk, marks)
}
