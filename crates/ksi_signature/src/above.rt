//! What a response carries down: the chains above a round, and the calendar chain of their second.

ghost use Rattle.std.specs.Prelude.{◌≡◌, ◌≤◌, length};
ghost use Rattle.ksi_signature.specs.Above.{AreRoundLinks};

use crate::lists::CalendarLinks;
use ksi_aggtree::chains::Link;
use ksi_imprint::Imprint;
use std::marker::Model;

/// The way from a round's root to that of its second, and on to the root of the calendar to that second.
#[derive(Drop)]
pub struct Above {
    /// The root of the second, which the calendar links lead from.
    pub root: Imprint,
    /// The lowest first.
    pub chains: AboveChains,
    /// The lowest first, in the calendar whose last second is this one.
    pub calendar: CalendarLinks,
}

/// A chain above a round.
#[derive(Drop)]
pub struct AboveChain {
    /// What the links lead from.
    pub input: Imprint,
    /// The lowest first.
    pub links: AboveLinks,
}

/// Links of a round, the lowest first: at most 17, each with an imprint as sibling; the lowest may have the metadata of a
/// name instead. A contract sees their list.
#[derive(Drop)]
pub struct AboveLinks {
    links: Vec<Link>,
}

impl Model for AboveLinks {
    ghost use Rattle.std.specs.Prelude.{List};
    ghost use Rattle.ksi_aggtree.specs.declared.chains.link.Link as chain;
    ghost use Rattle.ksi_signature.specs.Above.{AreRoundLinks};

    ghost Value = { List chain.Link };

    ghost view = { λ links. links.links.items };

    ghost invariant = { λ links. AreRoundLinks links.links.items };
}

impl AboveLinks {
    /// These links, which are not copied.
    pub fn from_vec(links: Vec<Link>) -> Self
        requires { AreRoundLinks links.items }
        ensures { result ≡ links.items }
    {
        AboveLinks { links }
    }

    /// The links, the lowest first.
    pub fn as_slice(&self) -> &[Link]
        ensures links { result.now ≡ self.now }
        ensures limits { AreRoundLinks self.now }
    {
        self.links.as_slice()
    }

    /// The links in a `Vec`, which are not copied.
    pub fn into_vec(self) -> Vec<Link>
        ensures { result.items ≡ self }
    {
        let AboveLinks { links } = self;
        links
    }
}

/// Chains one above the other, the lowest first: at most 8. A contract sees their list.
#[derive(Drop)]
pub struct AboveChains {
    chains: Vec<AboveChain>,
}

impl Model for AboveChains {
    ghost use Rattle.std.specs.Prelude.{◌≤◌, List, length};
    ghost use Rattle.ksi_signature.specs.declared.above.AboveChain as above;

    ghost Value = { List above.AboveChain };

    ghost view = { λ chains. chains.chains.items };

    ghost invariant = { λ chains. length chains.chains.items ≤ 8 };
}

impl AboveChains {
    /// These chains, which are not copied.
    pub fn from_vec(chains: Vec<AboveChain>) -> Self
        requires { length chains.items ≤ 8 }
        ensures { result ≡ chains.items }
    {
        AboveChains { chains }
    }

    /// The chains, the lowest first.
    pub fn as_slice(&self) -> &[AboveChain]
        ensures chains { result.now ≡ self.now }
        ensures count { length self.now ≤ 8 }
    {
        self.chains.as_slice()
    }

    /// The chains in a `Vec`, which are not copied.
    pub fn into_vec(self) -> Vec<AboveChain>
        ensures { result.items ≡ self }
    {
        let AboveChains { chains } = self;
        chains
    }
}
