//! Stores that callers share, by their calls.
mod asking;
mod callers;
mod cas_loops;
mod checker;
mod class_checker;
mod commands;
mod counters;
mod ends;
mod figures;
mod full_classes;
mod full_neighbours;
mod full_store;
mod held_stripes;
mod hits;
mod limits;
mod many_hits;
mod meetings;
mod opening;
mod own_locks;
mod paces;
mod passes;
mod playing;
mod running;
mod schedules;
mod sharing;
mod telling;
mod upkeep;
mod watching;

/// What tests draw by.
const SEED: u64 = 0;

/// Figures are read so often beside threads that write.
const READS: u32 = 1_000_000;

/// So many schedules are drawn for threads, and so many for one thread. Each prints its own seed.
const SCHEDULES: u64 = 12;
