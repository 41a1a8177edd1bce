//! Hits that are taken to a class, through a gate that answers from a list.
use super::by_list::ByList;
use mc_item::Fault;
use mc_pull::advance;
use mc_testing::{World, context};
use std::test::Fail;

/// A hit: the number of its link, its moment, and what the gate answers.
#[derive(Clone, Copy)]
pub struct Taken(pub u64, pub u64, pub &'static [bool]);

// Takes a hit to the class. It says whether the entry was moved, and after how many looks.
fn take(world: &mut World, taken: Taken) -> Result<(bool, usize), Fault> {
    let alloc = world.alloc;
    let class = &mut world.class;
    let mut answers = Vec::new(alloc);
    let mut gate = ByList {
        stripe: &mut world.stripe,
        answers: &mut answers,
        yes: taken.2,
        fails: None,
    };
    let context = context(taken.1, &world.config);
    let moved = advance(context, class, taken.0, &mut gate)?;
    Ok((moved, answers.len()))
}

/// Takes a hit to the class, and tells what came of it.
pub(super) fn tell_taken(world: &mut World, taken: Taken) -> Result<String, Fail> {
    match take(world, taken) {
        Ok((moved, looks)) => Ok(format!(in world.alloc; "{moved} after {looks}")?),
        Err(fault) => Ok(format!(in world.alloc; "{fault:?}")?),
    }
}
