ghost use Rattle.std.specs.Prelude.{◌≡◌, refl};
ghost use Rattle.ksi_publications.specs.Tables.{header_table, file_table};

use ksi_tlv::Placed;
use ksi_tlv::grammar::{
    ElementFault, Grammar, RecordContent, Rule, Seen, check, missing, number, time,
};

/// The bytes that a file begins with.
pub(crate) const MAGIC: &[u8; 8] = b"KSIPUBLF";

pub(crate) const VERSION: u16 = 0x01;

pub(crate) const CREATION: u16 = 0x02;

const REPOSITORY: u16 = 0x03;

pub(crate) const HEADER: u16 = 0x701;

const CERTIFICATE: u16 = 0x702;

pub(crate) const RECORD: u16 = 0x703;

const SIGNATURE: u16 = 0x704;

/// A header: a version, a creation time, and a repository address or none.
#[derive(Clone, Copy)]
pub struct HeaderContent;

impl Grammar for HeaderContent {
    ghost table = { header_table };

    fn rule(kind: u16) -> Option<Rule> {
        match kind {
            VERSION => Some(Rule::once(0)),
            CREATION => Some(Rule::once(1)),
            REPOSITORY => Some(Rule::once(2)),
            _ => None,
        }
    }

    fn is_refused(_kind: u16) -> bool {
        false
    }

    fn content(at: &Placed<'_>) -> Result<(), ElementFault> {
        match at.element.kind {
            VERSION => number(at).map(|_| ()),
            CREATION => time(at).map(|_| ()),
            _ => Ok(()),
        }
    }

    fn end(seen: &Seen, place: usize) -> Result<(), ElementFault> {
        missing(&[(0, VERSION), (1, CREATION)], seen, place)
    }

    ghost well_formed = { refl };
}

/// What follows the magic: a header and publication records.
#[derive(Clone, Copy)]
pub struct FileContent;

impl Grammar for FileContent {
    ghost table = { file_table };

    fn rule(kind: u16) -> Option<Rule> {
        match kind {
            HEADER => Some(Rule::once(0)),
            RECORD => Some(Rule::any(1)),
            _ => None,
        }
    }

    fn is_refused(kind: u16) -> bool {
        matches!(kind, CERTIFICATE | SIGNATURE)
    }

    fn content(at: &Placed<'_>) -> Result<(), ElementFault> {
        match at.element.kind {
            HEADER => check::<HeaderContent>(at.place, at.inside, at.element.body),
            _ => check::<RecordContent>(at.place, at.inside, at.element.body),
        }
    }

    fn end(seen: &Seen, place: usize) -> Result<(), ElementFault> {
        missing(&[(0, HEADER)], seen, place)
    }

    ghost well_formed = { refl };
}
