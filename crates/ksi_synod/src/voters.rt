ghost use Rattle.std.specs.Prelude.{◌≡◌, ◌<◌, ◌≤◌, nat_lt, [], ◌∷◌, ◌++◌};
ghost use Rattle.std.specs.List.{AllByRecursion, list_all};
ghost use Rattle.ksi_synod.specs.Voters.{cores_below, is_voter, is_majority};
ghost use Rattle.ksi_synod.specs.CorePlans.{AreRising};

use std::marker::Model;

/// The cores that vote on a second: a set of the cores 0 to 8. A contract sees their rising list.
#[derive(Clone, Copy)]
pub struct Voters {
    flags: [bool; 9],
}

impl Model for Voters {
    ghost use Rattle.std.specs.Prelude.{◌≡◌, ℕ, List, length};

    ghost Value = { List ℕ };

    ghost use Rattle.ksi_synod.specs.Flags.{flagged_cores, fields_of, fields_of-flagged_cores};

    ghost view = { λ voters. flagged_cores voters.flags };

    ghost invariant = { λ voters. length voters.flags ≡ 9 };

    ghost inverse = { fields_of };

    ghost inverse_ok = { fields_of-flagged_cores };
}

impl Voters {
    /// The cores from 0 on, this many.
    pub fn all(members: u8) -> Self
        requires { members ≤ 9 }
        ensures { result ≡ cores_below members }
    {
        let mut flags = [false; 9];
        for core in 0..members {
            flags[core as usize] = true;
        }
        Voters { flags }
    }

    /// No core.
    pub fn none() -> Self
        ensures { result ≡ [] }
    {
        Voters { flags: [false; 9] }
    }

    /// These and a core above them.
    pub fn with(&self, core: u8) -> Self
        requires few { core < 9 }
        requires above { AllByRecursion (λ voter. voter < core) self.now }
        ensures { result ≡ self.now ++ core ∷ [] }
    {
        let mut flags = self.flags;
        flags[core as usize] = true;
        Voters { flags }
    }

    /// Whether each of them is below a core.
    pub fn are_below(&self, core: u8) -> bool
        ensures { result ≡ list_all (λ voter. nat_lt voter core) self.now }
    {
        for other in 0..9u8 {
            if self.flags[other as usize] && other >= core {
                return false;
            }
        }
        true
    }

    /// For each core whether it votes. Voters rise, and are among the cores 0 to 8.
    pub(crate) fn flags(&self) -> &[bool; 9]
        ensures rising { AreRising self.now }
        ensures few { AllByRecursion (λ voter. voter < 9) self.now }
    {
        &self.flags
    }

    /// Whether a core votes.
    pub fn contains(&self, core: u8) -> bool
        ensures { result ≡ is_voter self.now core }
    {
        core < 9 && self.flags[core as usize]
    }

    /// Whether the cores whose flag is set are more than half of the voters.
    pub(crate) fn is_majority(&self, flags: &[bool; 9]) -> bool
        ensures { result ≡ is_majority self.now flags.now }
    {
        let mut voters: u8 = 0;
        let mut among: u8 = 0;
        for core in 0..9u8 {
            if self.flags[core as usize] {
                voters += 1;
                if flags[core as usize] {
                    among += 1;
                }
            }
        }
        voters < 2 * among
    }
}
