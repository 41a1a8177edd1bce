//! Names, in types, for the events that a step adds or enters in an account. Each call picks its own.
use std::marker::Brand;

/// Names the events that one step adds to a history.
pub(crate) trait NamesEvents {
    ghost use Rattle.std.specs.Prelude.{List};
    ghost use Rattle.mc_item.specs.declared.event.Event.{Event};

    ghost entries: { List Event };
}

impl NamesEvents for Brand {
    ghost use Rattle.std.specs.Prelude.{[]};

    ghost entries = { [] };
}

/// Names the events that a caller enters in its account.
pub(crate) trait NamesSpan {
    ghost use Rattle.mc_board.specs.declared.rule.Span.{Span};

    ghost span: { Span };
}

impl NamesSpan for Brand {
    ghost span = { record { turn = 0; lock = 0; from = 0; until = 0 } };
}
