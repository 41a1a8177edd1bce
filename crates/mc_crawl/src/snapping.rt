//! The snapshot of a class with which a crawl begins.
ghost use Rattle.std.specs.Prelude.{◌≡◌, ◌≤◌, ◌++◌, ◌^◌, length, IfOk, OnOk};
ghost use Rattle.mc_rule.specs.Lists.{count_of, lists_of};
ghost use Rattle.mc_crawl.specs.Snapshot.{links_in, links_of};

use mc_item::{Link, NoMemory, Seg};
use mc_segment::ClassState;
use std::alloc::Global;

// Adds the links of a segment's entries, from its tail on.
fn push_segment(links: &mut Vec<Link>, class: &ClassState, seg: Seg) -> Result<(), NoMemory>
    ensures { OnOk result (links.new.items ≡ links.old.items ++ links_in class.now seg) }
{
    let mut next = class.from_tail(seg, 0);
    for _ in 0..class.len(seg) {
        let Some(entry) = next else {
            unreachable!();
        };
        links.push(Link {
            class: class.number(),
            number: entry.number,
        })?;
        next = class.next_newer(entry.number);
    }
    Ok(())
}

/// Returns the links of all entries of a class: HOT's, WARM's, COLD's, then TEMP's, each list from its tail on. There are at most
/// 2^32, as many as a history may have events. Errors: `NoMemory` if memory for the list is refused.
pub fn snapshot(alloc: Global, class: &ClassState) -> Result<Vec<Link>, NoMemory>
    ensures links { IfOk result (λ links. links.items ≡ links_of class.now) }
    ensures count { IfOk result (λ links. length links.items ≡ count_of (lists_of class.now.history)) }
    ensures few { IfOk result (λ links. length links.items ≤ 2 ^ 32) }
{
    class.law();
    let mut links = Vec::with_capacity(alloc, class.count() as usize)?;
    push_segment(&mut links, class, Seg::Hot)?;
    push_segment(&mut links, class, Seg::Warm)?;
    push_segment(&mut links, class, Seg::Cold)?;
    push_segment(&mut links, class, Seg::Temp)?;
    Ok(links)
}
