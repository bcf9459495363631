//! Which run it is.

use std::marker::Brand;

/// A run: its book, and its parts as they were opened. What lies behind a lock is known by its type alone, so the type
/// names the run. Who opens a run picks its name.
pub trait Naming {
    ghost use Rattle.pg_shared.specs.Plan.{Plan};

    /// The run's book and its parts.
    ghost plan: { Plan };
}

impl Naming for Brand {
    ghost use Rattle.pg_shared.specs.Plan.{no_plan};

    ghost plan = { no_plan };
}
