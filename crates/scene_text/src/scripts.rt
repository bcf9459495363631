//! The scripts of a scene.

ghost use Rattle.std.specs.Prelude.{◌≡◌};

use cs_policy::Call;
use std::marker::Model;

/// The calls of one script, seen as a list in their order.
#[derive(Debug, Drop)]
pub struct Calls {
    items: Vec<Call>,
}

impl Model for Calls {
    ghost use Rattle.std.specs.Prelude.{List};
    ghost use Rattle.cs_policy.specs.declared.call.Call.{Call};

    ghost Value = { List Call };

    ghost view = { λ calls. calls.items.items };
}

impl Calls {
    /// The calls of a vector, which it takes over; no memory is taken.
    pub fn new(items: Vec<Call>) -> Calls
        ensures { result ≡ items.items }
    {
        Calls { items }
    }

    /// The calls.
    pub fn items(&self) -> &[Call]
        ensures { result.now ≡ self.now }
    {
        &self.items
    }
}

/// The scripts of a scene, seen as a list of the lists of their calls.
#[derive(Debug, Drop)]
pub struct Scripts {
    items: Vec<Calls>,
}

impl Model for Scripts {
    ghost use Rattle.std.specs.Prelude.{List};
    ghost use Rattle.cs_policy.specs.declared.call.Call.{Call};

    ghost Value = { List (List Call) };

    ghost view = { λ scripts. scripts.items.items };
}

impl Scripts {
    /// The scripts of a vector, which it takes over; no memory is taken.
    pub fn new(items: Vec<Calls>) -> Scripts
        ensures { result ≡ items.items }
    {
        Scripts { items }
    }

    /// The scripts.
    pub fn items(&self) -> &[Calls]
        ensures { result.now ≡ self.now }
    {
        &self.items
    }
}
