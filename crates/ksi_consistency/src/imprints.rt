ghost use Rattle.std.specs.Prelude.{◌≡◌};

use ksi_imprint::Imprint;
use std::marker::Model;

/// Imprints in order. A contract sees their list.
#[derive(Drop)]
pub struct Imprints {
    vec: Vec<Imprint>,
}

impl Model for Imprints {
    ghost use Rattle.std.specs.Prelude.{List, ℕ};

    ghost Value = { List (List ℕ) };

    ghost view = { λ imprints. imprints.vec.items };
}

impl Imprints {
    /// The imprints of a `Vec`, which is not copied.
    pub fn from_vec(vec: Vec<Imprint>) -> Self
        ensures { result ≡ vec.items }
    {
        Imprints { vec }
    }

    /// The imprints, which are not copied.
    pub fn as_slice(&self) -> &[Imprint]
        ensures { result.now ≡ self.now }
    {
        &self.vec
    }

    /// The `Vec` of the imprints, which are not copied.
    pub fn into_vec(self) -> Vec<Imprint>
        ensures { result.items ≡ self }
    {
        let Imprints { vec } = self;
        vec
    }
}
