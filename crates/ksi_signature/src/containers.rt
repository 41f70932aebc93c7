ghost use Rattle.std.specs.Prelude.{◌≡◌, Some, refl};
ghost use Rattle.ksi_tlv.specs.declared.grammar.rule.Over.TheVariants.{Links};
ghost use Rattle.ksi_signature.specs.Tables.{link_table, chain_table, calendar_table, signature_table};

use crate::kinds::{
    AGGREGATION_TIME, ALGORITHM, CALENDAR, CHAIN, CORRECTION, IMPRINT, INDEX_PART, INPUT_DATA,
    INPUT_HASH, LEFT_LINK, LEGACY, METADATA, PUBLICATION, PUBLICATION_TIME, RIGHT_LINK,
};
use ksi_tlv::Placed;
use ksi_tlv::grammar::{
    ElementFault, Grammar, Over, RecordContent, Rule, Seen, algorithm, check, imprint, level,
    missing, number, raw, time,
};

/// A level correction or none, and one sibling.
#[derive(Clone, Copy)]
pub struct LinkContent;

impl Grammar for LinkContent {
    ghost table = { link_table };

    fn rule(kind: u16) -> Option<Rule> {
        match kind {
            CORRECTION => Some(Rule::once(0)),
            IMPRINT | LEGACY | METADATA => Some(Rule {
                slot: 1,
                most: Some(1),
                over: Over::Sibling,
            }),
            _ => None,
        }
    }

    fn is_refused(_kind: u16) -> bool {
        false
    }

    fn content(at: &Placed<'_>) -> Result<(), ElementFault> {
        match at.element.kind {
            CORRECTION => level(at).map(|_| ()),
            IMPRINT => imprint(at).map(|_| ()),
            _ => raw(at),
        }
    }

    fn end(seen: &Seen, place: usize) -> Result<(), ElementFault> {
        if seen[1] == 0 {
            Err(ElementFault::Sibling(place))
        } else {
            Ok(())
        }
    }

    ghost well_formed = { refl };
}

/// Aggregation time, index parts, input data, input hash, algorithm and links.
#[derive(Clone, Copy)]
pub struct ChainContent;

impl Grammar for ChainContent {
    ghost table = { chain_table };

    fn rule(kind: u16) -> Option<Rule> {
        match kind {
            AGGREGATION_TIME => Some(Rule::once(0)),
            INDEX_PART => Some(Rule::any(1)),
            INPUT_DATA => Some(Rule::once(2)),
            INPUT_HASH => Some(Rule::once(3)),
            ALGORITHM => Some(Rule::once(4)),
            LEFT_LINK | RIGHT_LINK => Some(links(5)),
            _ => None,
        }
    }

    fn is_refused(_kind: u16) -> bool {
        false
    }

    fn content(at: &Placed<'_>) -> Result<(), ElementFault> {
        match at.element.kind {
            AGGREGATION_TIME => time(at).map(|_| ()),
            INDEX_PART => number(at).map(|_| ()),
            INPUT_DATA => Ok(()),
            INPUT_HASH => imprint(at).map(|_| ()),
            ALGORITHM => algorithm(at).map(|_| ()),
            _ => check::<LinkContent>(at.place, at.inside, at.element.body),
        }
    }

    fn end(seen: &Seen, place: usize) -> Result<(), ElementFault> {
        let needs = [
            (0, AGGREGATION_TIME),
            (1, INDEX_PART),
            (3, INPUT_HASH),
            (4, ALGORITHM),
        ];
        missing(&needs, seen, place)
    }

    ghost well_formed = { refl };
}

/// Publication time, aggregation time or none, input hash and links.
#[derive(Clone, Copy)]
pub struct CalendarContent;

impl Grammar for CalendarContent {
    ghost table = { calendar_table };

    fn rule(kind: u16) -> Option<Rule> {
        match kind {
            PUBLICATION_TIME => Some(Rule::once(0)),
            AGGREGATION_TIME => Some(Rule::once(1)),
            INPUT_HASH => Some(Rule::once(2)),
            LEFT_LINK | RIGHT_LINK => Some(links(3)),
            _ => None,
        }
    }

    fn is_refused(_kind: u16) -> bool {
        false
    }

    fn content(at: &Placed<'_>) -> Result<(), ElementFault> {
        match at.element.kind {
            PUBLICATION_TIME | AGGREGATION_TIME => time(at).map(|_| ()),
            _ => imprint(at).map(|_| ()),
        }
    }

    fn end(seen: &Seen, place: usize) -> Result<(), ElementFault> {
        missing(&[(0, PUBLICATION_TIME), (2, INPUT_HASH)], seen, place)
    }

    ghost well_formed = { refl };
}

/// Aggregation chains, a calendar chain or none, and a publication record or none.
#[derive(Clone, Copy)]
pub struct SignatureContent;

impl Grammar for SignatureContent {
    ghost table = { signature_table };

    fn rule(kind: u16) -> Option<Rule> {
        match kind {
            CHAIN => Some(Rule {
                slot: 0,
                most: Some(16),
                over: Over::Chains,
            }),
            CALENDAR => Some(Rule::once(1)),
            PUBLICATION => Some(Rule::once(2)),
            _ => None,
        }
    }

    fn is_refused(kind: u16) -> bool {
        matches!(kind, 0x804..=0x806)
    }

    fn content(at: &Placed<'_>) -> Result<(), ElementFault> {
        match at.element.kind {
            CHAIN => check::<ChainContent>(at.place, at.inside, at.element.body),
            CALENDAR => check::<CalendarContent>(at.place, at.inside, at.element.body),
            _ => check::<RecordContent>(at.place, at.inside, at.element.body),
        }
    }

    fn end(seen: &Seen, place: usize) -> Result<(), ElementFault> {
        missing(&[(0, CHAIN)], seen, place)
    }

    ghost well_formed = { refl };
}

/// A slot that may hold 63 links.
fn links(slot: usize) -> Rule
    ensures { result ≡ record { slot = slot; most = Some 63; over = Links } }
{
    Rule {
        slot,
        most: Some(63),
        over: Over::Links,
    }
}
