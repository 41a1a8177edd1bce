//! Cases on a stripe and a class of four chunks of 200 bytes: what is done before the call, and the call.
use crate::acts::{Act, make};
use crate::configuring::world_config;
use crate::end::{End, Outcome};
use crate::marks::Marks;
use crate::noting::{Left, left_of, outcome_of as outcome_by};
use mc_item::{ClassNo, StripeNo};
use mc_segment::ClassState;
use mc_stripe::StripeState;
use mc_testing::World;
use std::hash::RandomState;

fn opened(rt: &HostRuntime) -> Option<World> {
    let alloc = rt.alloc();
    let seed = RandomState::new(rt).ok()?;
    let config = world_config(alloc)?;
    let class = ClassState::new(alloc, ClassNo(1), &config);
    let stripe = StripeState::new(alloc, StripeNo(0), &config, seed);
    Some(World {
        alloc,
        config,
        class,
        stripe,
    })
}

// Does what comes before, and makes the call, if there is one. The call has the marks, if they are on.
fn end_after(world: &mut World, before: &[Act], call: Option<Act>, marks: Marks) -> End {
    let off = Marks { on: false, ..marks };
    for act in before {
        if make(world, *act, off) != End::Made {
            return End::Other;
        }
    }
    match call {
        Some(act) => make(world, act, marks),
        None => End::Made,
    }
}

fn left_in(world: &mut World, before: &[Act], call: Option<Act>, on: bool) -> Option<Left> {
    let alloc = world.alloc;
    let end = end_after(world, before, call, Marks { alloc, on });
    left_of(alloc, end, &world.stripe, &[&world.class])
}

fn left_after(rt: &HostRuntime, before: &[Act], call: Option<Act>, on: bool) -> Option<Left> {
    let mut world = opened(rt)?;
    left_in(&mut world, before, call, on)
}

/// Returns what came of a call after these acts. `None`: there is nothing to make it on.
pub(crate) fn outcome_of(rt: &HostRuntime, before: &[Act], call: Act) -> Option<Outcome> {
    let old = left_after(rt, before, None, false)?;
    let whole = left_after(rt, before, Some(call), false)?;
    let left = left_after(rt, before, Some(call), true)?;
    Some(outcome_by(&old, &whole, &left))
}
