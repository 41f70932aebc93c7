ghost use Rattle.std.specs.Prelude.{◌≡◌, ◌≤◌, ◌<◌, ◌++◌, ◌∷◌, [], length, IfOk, OnOk, OnErr};
ghost use Rattle.ksi_schedule.specs.Plans.{IsPlan, core_plan_of, parent_of, name_of};

use crate::actor::Actor;
use crate::parent::Parent;
use ksi_aggtree::Name;
use ksi_imprint::NoMemory;
use ksi_synod::CorePlan;
use std::alloc::Global;
use std::marker::Model;

/// The parent of each aggregator and the name that it submits under, that of aggregator 0 first. A contract sees the list.
#[derive(Drop)]
pub struct Parents {
    parents: Vec<Parent>,
}

impl Model for Parents {
    ghost use Rattle.std.specs.Prelude.{List};
    ghost use Rattle.ksi_schedule.specs.declared.parent.Parent as parent;

    ghost Value = { List parent.Parent };

    ghost view = { λ parents. parents.parents.items };
}

impl Parents {
    /// These parents, which are not copied.
    pub fn from_vec(parents: Vec<Parent>) -> Self
        ensures { result ≡ parents.items }
    {
        Parents { parents }
    }

    /// The parents in order.
    pub fn as_slice(&self) -> &[Parent]
        ensures { result.now ≡ self.now }
    {
        self.parents.as_slice()
    }

    /// One parent more.
    pub(crate) fn push(&mut self, parent: Parent) -> Result<(), NoMemory>
        ensures ok { OnOk result (self.new ≡ self.old ++ parent ∷ []) }
        ensures err { OnErr result (self.new ≡ self.old) }
    {
        self.parents.extend_from_slice(&[parent])
    }

    /// The parents in a `Vec`, which are not copied.
    pub fn into_vec(self) -> Vec<Parent>
        ensures { result.items ≡ self }
    {
        let Parents { parents } = self;
        parents
    }
}

/// The number of cores, the first second, the voters of each second, and for each aggregator its parent and its name.
///
/// There are at most 4,096 aggregators. The parent of an aggregator is a core of the plan or an aggregator with a smaller
/// number, and at most eight aggregators are above one another.
#[derive(Drop)]
pub struct Plan {
    pub core_plan: CorePlan,
    pub parents: Parents,
}

impl Model for Plan {
    ghost use Rattle.ksi_schedule.specs.Plans.{PlanState, IsPlan};

    ghost Value = { PlanState };

    ghost use Rattle.ksi_schedule.specs.PlanFields.{plan_of};

    ghost view = { plan_of };

    ghost invariant = { λ plan. IsPlan (plan_of plan) };
}

impl Plan {
    /// How many cores there are.
    pub fn cores(&self) -> u8
        ensures cores { result ≡ self.now.cores }
        ensures few { result ≤ 9 }
    {
        self.core_plan.cores()
    }

    /// The first second.
    pub fn start(&self) -> u64
        ensures { result ≡ self.now.start }
    {
        self.core_plan.start()
    }

    /// What the cores know of it.
    pub fn core_plan(&self) -> &CorePlan
        ensures plan { result.now ≡ core_plan_of self.now }
        ensures limits { IsPlan self.now }
    {
        &self.core_plan
    }

    /// How many aggregators there are.
    pub fn aggregators(&self) -> usize
        ensures count { result ≡ length self.now.parents }
        ensures few { length self.now.parents ≤ 4096 }
    {
        self.parents.as_slice().len()
    }

    /// The parent of an aggregator of the plan.
    pub fn parent(&self, aggregator: u32) -> Actor
        requires { aggregator < length self.now.parents }
        ensures { result ≡ parent_of self.now aggregator }
    {
        self.parents.as_slice()[aggregator as usize].actor
    }

    /// The name that an aggregator of the plan submits under.
    pub fn name(&self, aggregator: u32) -> Option<Name>
        requires { aggregator < length self.now.parents }
        ensures { result ≡ name_of self.now aggregator }
    {
        self.parents.as_slice()[aggregator as usize].name
    }

    /// A copy.
    ///
    /// # Errors
    /// `NoMemory`: nothing is made.
    pub fn copy(&self, alloc: Global) -> Result<Plan, NoMemory>
        ensures copied { IfOk result (λ plan. plan ≡ self.now) }
        ensures limits { IsPlan self.now }
    {
        let parents = self.parents.as_slice().to_vec(alloc)?;
        Ok(Plan {
            core_plan: self.core_plan,
            parents: Parents::from_vec(parents),
        })
    }
}
