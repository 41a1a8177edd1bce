//! A script whose source finds no memory for its next bytes.
use super::noted::{Ran, run_noted};
use mc_script::Outcome;
use std::process::Abort;

// Both whole requests were answered, and their replies printed. The third isn't whole.
fn asserts_starved<R: Abort>(rt: &R, ran: &Ran) {
    assert_eq!(rt; ran.outcome, Outcome::Memory);
    assert_eq!(rt; ran.text.as_slice(), b"END\r\nEND\r\n".as_slice());
    assert_eq!(rt; ran.made, 2);
}

#[test]
fn want_of_memory_in_the_source_ends_the_script(rt: HostRuntime) {
    let script = b"get a\r\nget b\r\nget";
    let script = Vec::from_slice(rt.alloc(), script.as_slice()).expect(&rt, "memory");
    let ran = run_noted(&rt, rt.alloc(), script, 99, true);
    asserts_starved(&rt, &ran);
}
