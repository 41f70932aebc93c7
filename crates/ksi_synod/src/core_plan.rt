ghost use Rattle.std.specs.Prelude.{◌≡◌, ◌<◌, ◌≤◌, ◌+◌, ◌-◌, ◌^◌, ℕ, List, [], length, true, nat_lt};
ghost use Rattle.std.specs.List.{filter, list_all};
ghost use Rattle.ksi_synod.specs.Voters.{cores_below, is_voter};
ghost use Rattle.ksi_synod.specs.CorePlanFields.{padded};
ghost use Rattle.ksi_synod.specs.CorePlans.{CorePlanState, voters_of, AreVoters, IsCorePlan, has_room, with_voters};

use crate::voters::Voters;
use std::marker::Model;

/// How many pairs of a second and its voters a plan may have.
const PAIRS: usize = 256;

/// The cores that vote from a second on.
#[derive(Clone, Copy)]
pub struct VotersFrom {
    pub second: u64,
    pub voters: Voters,
}

/// How many cores there are, the first second, and who votes on which second.
///
/// There are 1 to 9 cores, the start is at most 2^63 - 2^24, and there are at most 256 pairs of a second and its voters.
/// Their seconds rise and are among the 2^24 from the start on; the voters of each are cores of the plan, at least one.
#[derive(Clone, Copy)]
pub struct CorePlan {
    cores: u8,
    start: u64,
    count: usize,
    voters: [VotersFrom; 256],
}

impl Model for CorePlan {
    ghost use Rattle.ksi_synod.specs.CorePlans.{CorePlanState};

    ghost Value = { CorePlanState };

    ghost use Rattle.ksi_synod.specs.CorePlanFields.{plan_of, IsFilled, fields_of, fields_of-plan_of};

    ghost view = { plan_of };

    ghost invariant = { IsFilled };

    ghost inverse = { fields_of };

    ghost inverse_ok = { fields_of-plan_of };
}

impl CorePlan {
    /// The plan of this many cores from a start on, all of which vote.
    pub fn new(cores: u8, start: u64) -> Self
        requires some { 1 ≤ cores }
        requires few { cores ≤ 9 }
        requires early { start ≤ 2 ^ 63 - 2 ^ 24 }
        ensures plan { result ≡ record { cores = cores; start = start; voters = [] } }
        ensures limits { IsCorePlan result }
    {
        CorePlan {
            cores,
            start,
            count: 0,
            voters: no_pairs(),
        }
    }

    /// How many cores there are.
    pub fn cores(&self) -> u8
        ensures cores { result ≡ self.now.cores }
        ensures limits { IsCorePlan self.now }
    {
        self.cores
    }

    /// The first second.
    pub fn start(&self) -> u64
        ensures start { result ≡ self.now.start }
        ensures limits { IsCorePlan self.now }
    {
        self.start
    }

    /// From which second on which cores vote, in order.
    pub fn voters(&self) -> &[VotersFrom]
        ensures voters { result.now ≡ self.now.voters }
        ensures limits { IsCorePlan self.now }
    {
        let (voters, _) = self.voters.split_at(self.count);
        voters
    }

    /// Who votes on a second.
    pub fn voters_of(&self, second: u64) -> Voters
        ensures voters { result ≡ voters_of self.now second }
        ensures cores { AreVoters self.now.cores result }
    {
        for k in (0..self.count).rev() {
            let pair = &self.voters[k];
            if pair.second <= second {
                return pair.voters;
            }
        }
        Voters::all(self.cores)
    }

    /// Whether a pair of the second may follow the others: there are fewer than 256, and their seconds are below it.
    pub fn has_room(&self, second: u64) -> bool
        ensures { result ≡ has_room self.now second }
    {
        self.count < PAIRS && are_before(self.voters(), second)
    }

    /// From the second on these vote.
    pub fn add_voters(&mut self, second: u64, voters: &Voters)
        requires room { has_room self.old second ≡ true }
        requires early { self.old.start ≤ second }
        requires late { second < self.old.start + 2 ^ 24 }
        requires cores { AreVoters self.old.cores voters.now }
        ensures plan { self.new ≡ with_voters self.old second voters.now }
        ensures limits { IsCorePlan self.new }
    {
        self.voters[self.count] = VotersFrom {
            second,
            voters: *voters,
        };
        self.count += 1;
    }
}

fn no_pairs() -> [VotersFrom; 256]
    ensures { result ≡ padded 256 [] }
{
    let none = VotersFrom {
        second: 0,
        voters: Voters::none(),
    };
    [none; 256]
}

fn are_before(pairs: &[VotersFrom], second: u64) -> bool
    ensures { result ≡ list_all (λ pair. nat_lt pair.second second) pairs.now }
{
    pairs.iter().all(|pair| pair.second < second)
}
