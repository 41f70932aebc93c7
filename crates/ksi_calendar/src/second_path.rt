ghost use Rattle.std.specs.Prelude.{◌≡◌};

use crate::CalendarLink;
use std::marker::Model;

/// The links from a second up to the root of a calendar's tree, the lowest first. A contract sees their list.
#[derive(Drop)]
pub struct SecondPath {
    vec: Vec<CalendarLink>,
}

impl Model for SecondPath {
    ghost use Rattle.std.specs.Prelude.{List, ℕ};
    ghost use Rattle.ksi_split.specs.declared.tree_link.TreeLink.{TreeLink};

    ghost Value = { List (TreeLink (List ℕ)) };

    ghost view = { λ path. path.vec.items };
}

impl SecondPath {
    /// The links of a `Vec`, which is not copied.
    pub fn from_vec(vec: Vec<CalendarLink>) -> Self
        ensures { result ≡ vec.items }
    {
        SecondPath { vec }
    }

    /// The links, which are not copied.
    pub fn as_slice(&self) -> &[CalendarLink]
        ensures { result.now ≡ self.now }
    {
        &self.vec
    }

    /// The `Vec` of the links, which are not copied.
    pub fn into_vec(self) -> Vec<CalendarLink>
        ensures { result.items ≡ self }
    {
        let SecondPath { vec } = self;
        vec
    }
}
