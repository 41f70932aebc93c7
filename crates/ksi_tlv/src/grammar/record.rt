ghost use Rattle.std.specs.Prelude.{◌≡◌, ◌≤◌, ◌+◌, ◌∷◌, [], Ok, IfOk, refl, length};
ghost use Rattle.ksi_tlv.specs.Views.{view_placed};
ghost use Rattle.ksi_tlv.specs.Spelling.{plain};
ghost use Rattle.ksi_tlv.specs.Writing.{texts};
ghost use Rattle.ksi_tlv.specs.Containing.{inner_verdict};
ghost use Rattle.ksi_tlv.specs.Published.{record_table, recorded_in, record_elements};

use crate::grammar::NoMemory;
use crate::grammar::fault::ElementFault;
use crate::grammar::finder::first_inside;
use crate::grammar::publication::{PublishedContent, published, put_short, written_published};
use crate::grammar::reader::check;
use crate::grammar::rule::{Rule, Seen};
use crate::grammar::table::{Grammar, missing};
use crate::{Placed, Writer};
use ksi_imprint::{Bytes, Imprint};
use std::alloc::Global;

const REFERENCE: u16 = 0x09;

const REPOSITORY: u16 = 0x0a;

const PUBLISHED: u16 = 0x10;

/// A publication record: published data, with references and repository addresses of any content.
#[derive(Clone, Copy)]
pub struct RecordContent;

impl Grammar for RecordContent {
    ghost table = { record_table };

    fn rule(kind: u16) -> Option<Rule> {
        match kind {
            PUBLISHED => Some(Rule::once(0)),
            REFERENCE => Some(Rule::any(1)),
            REPOSITORY => Some(Rule::any(2)),
            _ => None,
        }
    }

    fn is_refused(_kind: u16) -> bool {
        false
    }

    fn content(at: &Placed<'_>) -> Result<(), ElementFault> {
        match at.element.kind {
            PUBLISHED => check::<PublishedContent>(at.place, at.inside, at.element.body),
            _ => Ok(()),
        }
    }

    fn end(seen: &Seen, place: usize) -> Result<(), ElementFault> {
        missing(&[(0, PUBLISHED)], seen, place)
    }

    ghost well_formed = { refl };
}

/// The published time and hash of a publication record that was accepted.
#[tactic(auto, unfolding(crate::specs::Published::recorded_in))]
pub fn recorded(at: &Placed<'_>) -> (u64, Imprint)
    requires { inner_verdict record_table (view_placed at.now) ≡ Ok tt }
    ensures { result ≡ recorded_in (view_placed at.now) }
{
    match first_inside::<RecordContent>(at, PUBLISHED) {
        Some(data) => published(&data),
        None => (0, Imprint::ZERO),
    }
}

/// The body of a publication record without references.
pub fn written_record(alloc: Global, time: u64, hash: &Imprint) -> Result<Bytes, NoMemory>
    ensures text { IfOk result (λ body. body ≡ texts (record_elements time hash.now)) }
    ensures short { IfOk result (λ body. length body ≤ 53) }
{
    let data = written_published(alloc, time, hash)?;
    element_alone(alloc, PUBLISHED, data.as_slice())
}

/// An element without flags and nothing else.
fn element_alone(alloc: Global, kind: u16, body: &[u8]) -> Result<Bytes, NoMemory>
    requires kind { kind ≤ 0x1fff }
    requires body { length body.now ≤ 65535 }
    ensures text { IfOk result (λ text. text ≡ texts (plain kind body.now ∷ [])) }
    ensures short { IfOk result (λ text. length text ≤ 4 + length body.now) }
{
    let mut writer = Writer::new(alloc);
    put_short(&mut writer, kind, body)?;
    Ok(Bytes::from_vec(writer.into_vec()))
}
