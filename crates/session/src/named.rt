//! Which shelf is whose.

use std::marker::Brand;

/// Which shelf and which limits belong to each manager's id. It is chosen once, where the shelves are made.
pub trait Named {
    ghost use Rattle.std.specs.Prelude.{ℕ};
    ghost use Rattle.boxcar.specs.Table.{Shelves};
    ghost use Rattle.session.specs.Limits.{LimitsState};

    ghost shelf: { ℕ → Shelves };

    ghost limits: { ℕ → LimitsState };
}

impl Named for Brand {
    ghost use Rattle.std.specs.Prelude.{[]};

    ghost shelf = { λ _. record { tag = []; buckets = [] } };

    ghost limits = { λ _. record { commits = 1; sessions = 1 } };
}
