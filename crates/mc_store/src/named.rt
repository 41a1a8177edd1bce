//! A name, in types, for a board, a configuration and queues of hits.
use std::marker::Brand;

/// Names one board, one configuration and the queues of hits of its classes, and has no methods.
/// Contracts can't see what lies under a store's locks. The store's type has this name, so all of it is known to belong to one
/// board and one configuration. A caller opens board and queues, then picks the name for a function that opens and closes the
/// store.
pub trait Named {
    ghost use Rattle.std.specs.Prelude.{List};
    ghost use Rattle.mc_board.specs.Views.{BoardView};
    ghost use Rattle.mc_hits.specs.Views.{HitsView};
    ghost use Rattle.mc_item.specs.declared.config.Config.{Config};

    ghost board: { BoardView };

    ghost config: { Config };

    ghost queues: { List HitsView };
}

impl Named for Brand {
    ghost use Rattle.mc_store.specs.Naming.{some_board, some_config, some_queues};

    ghost board = { some_board };

    ghost config = { some_config };

    ghost queues = { some_queues };
}
