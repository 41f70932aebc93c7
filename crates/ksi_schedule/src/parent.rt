use crate::actor::Actor;
use ksi_aggtree::Name;

/// Whom an aggregator submits to, and the name that it submits under, if any.
#[derive(Clone, Copy, PartialEq, Eq, Debug)]
pub struct Parent {
    pub actor: Actor,
    pub name: Option<Name>,
}
