ghost use Rattle.std.specs.Prelude.{◌<◌, ◌^◌};
ghost use Rattle.ksi_signature.specs.Values.{Aggregation, Calendar, Publishing};

use crate::lists::{Bodies, CalendarLinks, Chains, Index, Links};
use ksi_imprint::{Bytes, Imprint};
use std::marker::Model;

/// An aggregation hash chain.
#[derive(Drop)]
pub struct AggregationChain {
    /// The second of the aggregation, below 2^63.
    pub time: u64,
    /// Numbers that say where the chain stands; the last of them is to be the chain's shape, which a check compares.
    pub index: Index,
    /// What was hashed into the input, where it is told.
    pub input_body: Option<Bytes>,
    /// What the links lead from.
    pub input: Imprint,
    /// The lowest first.
    pub links: Links,
}

impl Model for AggregationChain {
    ghost Value = { Aggregation };

    ghost view = { λ chain. record { time = chain.time; index = chain.index; input_body = chain.input_body; input = chain.input; links = chain.links } };

    ghost invariant = { λ chain. chain.time < 2 ^ 63 };
}

/// A calendar hash chain.
#[derive(Drop)]
pub struct CalendarChain {
    /// The last second of the tree that the links lead to the root of, below 2^63.
    pub publication: u64,
    /// The second that the links lead from, below 2^63.
    pub time: u64,
    /// What is stated as the root of that second.
    pub input: Imprint,
    /// The lowest first.
    pub links: CalendarLinks,
}

impl Model for CalendarChain {
    ghost Value = { Calendar };

    ghost view = { λ chain. record { publication = chain.publication; time = chain.time; input = chain.input; links = chain.links } };

    ghost invariant = { λ chain. (chain.publication < 2 ^ 63) × (chain.time < 2 ^ 63) };
}

/// A publication record.
#[derive(Drop)]
pub struct PublicationRecord {
    /// The published second, below 2^63.
    pub time: u64,
    /// The published root of the calendar tree to that second.
    pub hash: Imprint,
    /// Where the publication can be looked up, in the order of the file.
    pub references: Bodies,
    /// Where publications files can be had, in the order of the file.
    pub repositories: Bodies,
}

impl Model for PublicationRecord {
    ghost Value = { Publishing };

    ghost view = { λ published. record { time = published.time; hash = published.hash; references = published.references; repositories = published.repositories } };

    ghost invariant = { λ published. published.time < 2 ^ 63 };
}

/// A signature.
#[derive(Drop)]
pub struct Signature {
    /// The lowest first: `read` has them by falling number of index parts.
    pub chains: Chains,
    /// From the second's root to a root of the calendar.
    pub calendar: Option<CalendarChain>,
    /// Where that root was published.
    pub publication: Option<PublicationRecord>,
}
