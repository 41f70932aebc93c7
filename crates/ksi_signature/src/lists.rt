ghost use Rattle.std.specs.Prelude.{◌≡◌, ◌<◌, ◌≤◌, ℕ, List, length};
ghost use Rattle.ksi_split.specs.declared.tree_link.TreeLink.{TreeLink};
ghost use Rattle.ksi_aggtree.specs.declared.chains.link.Link as chain;
ghost use Rattle.ksi_signature.specs.Values.{Aggregation, AreLinks, AreChains};

use crate::signature::AggregationChain;
use ksi_aggtree::chains::Link;
use ksi_calendar::CalendarLink;
use ksi_imprint::Bytes;
use std::marker::Model;

/// The parts of a chain's index, one or more. A contract sees their list.
#[derive(Drop)]
pub struct Index {
    parts: Vec<u64>,
}

impl Model for Index {
    ghost Value = { List ℕ };

    ghost view = { λ index. index.parts.items };

    ghost invariant = { λ index. 0 < length index.parts.items };
}

impl Index {
    /// These parts, which are not copied.
    pub fn from_vec(parts: Vec<u64>) -> Self
        requires { 0 < length parts.items }
        ensures { result ≡ parts.items }
    {
        Index { parts }
    }

    /// The parts in the order of the file.
    pub fn as_slice(&self) -> &[u64]
        ensures parts { result.now ≡ self.now }
        ensures some { 0 < length self.now }
    {
        self.parts.as_slice()
    }

    /// The parts in a `Vec`, which are not copied.
    pub fn into_vec(self) -> Vec<u64>
        ensures { result.items ≡ self }
    {
        let Index { parts } = self;
        parts
    }
}

/// The links of an aggregation chain, the lowest first: at most 63, raw siblings of 1 to 4,096 bytes. A contract sees
/// their list.
#[derive(Drop)]
pub struct Links {
    links: Vec<Link>,
}

impl Model for Links {
    ghost Value = { List chain.Link };

    ghost view = { λ links. links.links.items };

    ghost invariant = { λ links. AreLinks links.links.items };
}

impl Links {
    /// These links, which are not copied.
    pub fn from_vec(links: Vec<Link>) -> Self
        requires { AreLinks links.items }
        ensures { result ≡ links.items }
    {
        Links { links }
    }

    /// The links, the lowest first.
    pub fn as_slice(&self) -> &[Link]
        ensures links { result.now ≡ self.now }
        ensures limits { AreLinks self.now }
    {
        self.links.as_slice()
    }

    /// The links in a `Vec`, which are not copied.
    pub fn into_vec(self) -> Vec<Link>
        ensures { result.items ≡ self }
    {
        let Links { links } = self;
        links
    }
}

/// The links of a calendar chain, the lowest first: at most 63. A contract sees their list.
#[derive(Drop)]
pub struct CalendarLinks {
    links: Vec<CalendarLink>,
}

impl Model for CalendarLinks {
    ghost Value = { List (TreeLink (List ℕ)) };

    ghost view = { λ links. links.links.items };

    ghost invariant = { λ links. length links.links.items ≤ 63 };
}

impl CalendarLinks {
    /// These links, which are not copied.
    pub fn from_vec(links: Vec<CalendarLink>) -> Self
        requires { length links.items ≤ 63 }
        ensures { result ≡ links.items }
    {
        CalendarLinks { links }
    }

    /// The links, the lowest first.
    pub fn as_slice(&self) -> &[CalendarLink]
        ensures links { result.now ≡ self.now }
        ensures count { length self.now ≤ 63 }
    {
        self.links.as_slice()
    }

    /// The links in a `Vec`, which are not copied.
    pub fn into_vec(self) -> Vec<CalendarLink>
        ensures { result.items ≡ self }
    {
        let CalendarLinks { links } = self;
        links
    }
}

/// Bodies of elements, in order. A contract sees the list of their bytes.
#[derive(Drop)]
pub struct Bodies {
    bodies: Vec<Bytes>,
}

impl Model for Bodies {
    ghost Value = { List (List ℕ) };

    ghost view = { λ bodies. bodies.bodies.items };
}

impl Bodies {
    /// These bodies, which are not copied.
    pub fn from_vec(bodies: Vec<Bytes>) -> Self
        ensures { result ≡ bodies.items }
    {
        Bodies { bodies }
    }

    /// The bodies in the order of the file.
    pub fn as_slice(&self) -> &[Bytes]
        ensures { result.now ≡ self.now }
    {
        self.bodies.as_slice()
    }

    /// The bodies in a `Vec`, which are not copied.
    pub fn into_vec(self) -> Vec<Bytes>
        ensures { result.items ≡ self }
    {
        let Bodies { bodies } = self;
        bodies
    }
}

/// The aggregation chains of a signature by falling number of index parts, 1 to 16. A contract sees their list.
#[derive(Drop)]
pub struct Chains {
    chains: Vec<AggregationChain>,
}

impl Model for Chains {
    ghost Value = { List Aggregation };

    ghost view = { λ chains. chains.chains.items };

    ghost invariant = { λ chains. AreChains chains.chains.items };
}

impl Chains {
    /// These chains, which are not copied.
    pub fn from_vec(chains: Vec<AggregationChain>) -> Self
        requires { AreChains chains.items }
        ensures { result ≡ chains.items }
    {
        Chains { chains }
    }

    /// The chains in their order.
    pub fn as_slice(&self) -> &[AggregationChain]
        ensures chains { result.now ≡ self.now }
        ensures limits { AreChains self.now }
    {
        self.chains.as_slice()
    }

    /// The chains in a `Vec`, which are not copied.
    pub fn into_vec(self) -> Vec<AggregationChain>
        ensures { result.items ≡ self }
    {
        let Chains { chains } = self;
        chains
    }
}
