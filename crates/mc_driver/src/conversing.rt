//! A conversation: one script, which is answered as its bytes come.
ghost use Rattle.std.specs.Prelude.{◌≡◌, ◌≤◌, ◌^◌, [], None, IfOk, IfSome, OnErr, false, length, slice_index_or};
ghost use Rattle.std.specs.{List.All, Io.KnownBytes.Keeps};
ghost use Rattle.mc_item.specs.Config.{IsSound};
ghost use Rattle.mc_driver.specs.{Input.IsConversed, Input.OfAllBytes, Run.limits_of};

use crate::live::Live;
use crate::running::{Host, limits_for, run_ends};
use mc_item::NoMemory;
use mc_options::Plan;
use mc_script::Outcome;
use std::io::{Read, Write};
use std::mem;
use std::sync::Wait;
use std::thread::Threads;

// Takes the only item out of a vector.
fn only<E: Drop>(items: Vec<E>) -> E
    requires { length items.items ≡ 1 }
    ensures { (d : E) → result ≡ slice_index_or items.items 0 d }
{
    let mut items = items;
    let Some(item) = items.pop() else {
        unreachable!()
    };
    item
}

// Runs a conversation, and gives its ends back. `outcomes` stays `None` if there was no memory for it. Then nothing is read or
// written. (Callers learn where a returned struct's references end only if it is the whole result.)
fn talk<'a, T: Threads + Wait + Sync, R: Read + Send, W: Write + Send>(
    host: Host<'_, T>,
    plan: Plan,
    outcomes: &mut Option<Vec<Outcome>>,
    live: Live<'a, R, W>,
) -> Live<'a, R, W>
    requires sound { IsSound plan.config }
    requires early { All (λ moment. moment ≤ 2 ^ 62) plan.upkeep }
    requires not_yet { outcomes.old ≡ None }
    requires none { (live.failed ≡ false) × (live.came ≡ []) × (live.put ≡ []) × (live.faults ≡ []) }
    requires limits { live.limits.value ≡ limits_of plan.config }
    ensures same { (result.reader.ghost_name ≡ live.entry.reader.ghost_name) × (result.writer.ghost_name ≡ live.entry.writer.ghost_name) }
    ensures ok { IfSome outcomes.new (λ ended. OfAllBytes (R.remaining live.entry.reader.now) (λ input. IsConversed plan.config plan.upkeep input
        (W.contents live.entry.writer.now) (W.contents result.writer.now) ended.items)) }
    ensures none { outcomes.new ≡ None → result.writer.now ≡ live.entry.writer.now }
{
    let Ok(mut scripts) = Vec::with_capacity(host.alloc, 1) else {
        return live;
    };
    scripts.push_reserved(live);
    let Plan { config, upkeep, .. } = plan;
    match run_ends(host, config, scripts, upkeep.as_slice()) {
        Ok(run) => {
            mem::forget(run.ledger);
            *outcomes = Some(run.outcomes);
            only(run.ends)
        }
        Err(unrun) => only(unrun.ends),
    }
}

/// Runs the bytes of a reader as one script on a new store, and writes the replies as they come: before each read, all requests so
/// far are answered, and the writer is flushed. Upkeep works beside it. Returns how the script, the maintainer and the crawler
/// ended. The store's memory isn't freed.
/// Errors: `NoMemory` before anything is read. Then nothing is written.
pub(crate) fn converse<T: Threads + Wait + Sync, R: Read + Send, W: Write + Send>(
    host: Host<'_, T>,
    plan: Plan,
    reader: &mut R,
    writer: &mut W,
) -> Result<Vec<Outcome>, NoMemory>
    requires sound { IsSound plan.config }
    requires early { All (λ moment. moment ≤ 2 ^ 62) plan.upkeep }
    ensures ok { IfOk result (λ outcomes. OfAllBytes (R.remaining reader.old)
        (λ input. IsConversed plan.config plan.upkeep input (W.contents writer.old) (W.contents writer.new) outcomes.items)) }
    ensures err { OnErr result (Keeps (W.contents writer.old) (W.contents writer.new)) }
{
    let live = Live::new(host.alloc, &limits_for(&plan.config), reader, writer);
    let mut outcomes = None;
    let live = talk(host, plan, &mut outcomes, live);
    live.hang_up();
    match outcomes {
        Some(outcomes) => Ok(outcomes),
        None => Err(NoMemory),
    }
}
