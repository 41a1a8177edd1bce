//! What many lines say: a fault, or a whole command.
ghost use Rattle.std.specs.Prelude.{◌≡◌, [], false, map};
ghost use Rattle.mc_proto.specs.Grammar.{IsFine, closing};
ghost use Rattle.mc_proto.specs.Table as table;
ghost use Rattle.mc_proto.specs.declared.request.Limits.{Limits};
ghost use Rattle.mc_proto.specs.declared.request.LineFault.TheVariants as faults;

use crate::request::{LineFault, Request};
use crate::state::Said;
use mc_item::Command;

/// Returns what a refused line says. `LineTooLong` isn't allowed here, since it closes the reader.
pub fn bad(why: LineFault, quiet: bool) -> Said
    requires { closing why ≡ false }
    ensures value { result ≡ table.bad why quiet }
    ensures fine { (limits : Limits) → IsFine limits result }
{
    Said::Whole(Request::Bad { why, quiet })
}

/// Returns what an empty line, an unknown verb or a wrong number of tokens says. It is never quiet.
pub fn no_line() -> Said
    ensures value { result ≡ table.no_line }
    ensures fine { (limits : Limits) → IsFine limits result }
{
    bad(LineFault::Error, false)
}

/// Returns what a line with a malformed token says, except for a delta and the exptime of `touch`, `gat` or `gats`.
pub fn no_format(quiet: bool) -> Said
    ensures value { result ≡ table.bad faults.Format quiet }
    ensures fine { (limits : Limits) → IsFine limits result }
{
    bad(LineFault::Format, quiet)
}

/// Returns what the line of a whole command says, quiet or not.
pub fn one(quiet: bool, command: Command) -> Said
    ensures value { result ≡ table.one quiet command }
    ensures fine { (limits : Limits) → IsFine limits result }
{
    Said::Whole(Request::One { command, quiet })
}

/// Whether the tokens after those that are due make a line quiet: `false` for none, `true` for `noreply`, otherwise `None`.
pub fn quiet_by(rest: &[&[u8]]) -> Option<bool>
    ensures { result ≡ table.quiet_of [] table.Noreply (map (λ t. t.now) rest.now) }
{
    match rest {
        [] => Some(false),
        [word] => {
            if *word == b"noreply".as_slice() {
                Some(true)
            } else {
                None
            }
        }
        _ => None,
    }
}
