//! The examples of docs/LIBRARY.md, one after the other: scripts, and a store that threads share.
#![tactic(auto)]

mod running;
mod sharing;

use mc_driver::Host;
use std::hash::RandomState;
use std::io;

// Want of memory, as main tells it.
fn no_memory() -> io::Error {
    io::Error::from(io::ErrorKind::OutOfMemory)
}

fn main(rt: HostRuntime) -> io::Result<()> {
    let seed = RandomState::new(&rt)?;
    running::show_parts(&rt)?;
    running::show_script(Host {
        rt: &rt,
        alloc: rt.alloc(),
        seed,
    })?;
    sharing::show(&rt, rt.alloc(), seed)
}
