//! From what sources are generated.

ghost use Rattle.std.specs.Prelude.{◌≡◌, ◌<◌, ◌≤◌, ◌^◌};

use std::marker::Model;

/// A seed below 2^31, and how many modules are made from it, 1 to 255.
#[derive(Debug, Drop)]
pub struct Recipe {
    seed: u32,
    modules: u16,
}

impl Model for Recipe {
    ghost use Rattle.std.specs.Prelude.{◌<◌, ◌≤◌, ◌^◌};
    ghost use Rattle.words.specs.Recipes as recipes;

    ghost Value = { recipes.Recipe };

    ghost view = { λ r. record { seed = r.seed; modules = r.modules } };

    ghost invariant = { λ r. (r.seed < 2 ^ 31) × (1 ≤ r.modules) × (r.modules ≤ 255) };
}

impl Recipe {
    pub(crate) fn new(seed: u32, modules: u16) -> Recipe
        requires seed { seed < 2 ^ 31 }
        requires some { 1 ≤ modules }
        requires few { modules ≤ 255 }
        ensures { result ≡ record { seed = seed; modules = modules } }
    {
        Recipe { seed, modules }
    }

    /// The seed.
    pub fn seed(&self) -> u32
        ensures seed { result ≡ self.now.seed }
        ensures below { result < 2 ^ 31 }
    {
        self.seed
    }

    /// How many modules.
    pub fn modules(&self) -> u16
        ensures modules { result ≡ self.now.modules }
        ensures some { 1 ≤ result }
        ensures few { result ≤ 255 }
    {
        self.modules
    }
}
