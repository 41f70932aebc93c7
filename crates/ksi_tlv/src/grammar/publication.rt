ghost use Rattle.std.specs.Prelude.{◌≡◌, ◌≤◌, ◌++◌, Ok, IfOk, OnOk, OnErr, refl, length};
ghost use Rattle.ksi_tlv.specs.Views.{view_placed};
ghost use Rattle.ksi_tlv.specs.Spelling.{plain, canonical};
ghost use Rattle.ksi_tlv.specs.Writing.{texts};
ghost use Rattle.ksi_tlv.specs.Numerals.{number_of};
ghost use Rattle.ksi_tlv.specs.Containing.{inner_verdict};
ghost use Rattle.ksi_tlv.specs.Valid.{MayStand};
ghost use Rattle.ksi_tlv.specs.Published.{published_table, published_in, published_elements};

use crate::grammar::NoMemory;
use crate::grammar::content::{imprint, time};
use crate::grammar::fault::ElementFault;
use crate::grammar::finder::first_inside;
use crate::grammar::rule::{Rule, Seen};
use crate::grammar::table::{Grammar, missing};
use crate::laws::numeral_is_read;
use crate::{Placed, Writer};
use ksi_imprint::{Bytes, Imprint, Refused};
use std::alloc::Global;

const TIME: u16 = 0x02;

const HASH: u16 = 0x04;

/// Published data: a time and the root hash of the calendar tree for it.
#[derive(Clone, Copy)]
pub struct PublishedContent;

impl Grammar for PublishedContent {
    ghost table = { published_table };

    fn rule(kind: u16) -> Option<Rule> {
        match kind {
            TIME => Some(Rule::once(0)),
            HASH => Some(Rule::once(1)),
            _ => None,
        }
    }

    fn is_refused(_kind: u16) -> bool {
        false
    }

    fn content(at: &Placed<'_>) -> Result<(), ElementFault> {
        match at.element.kind {
            TIME => time(at).map(|_| ()),
            _ => imprint(at).map(|_| ()),
        }
    }

    fn end(seen: &Seen, place: usize) -> Result<(), ElementFault> {
        missing(&[(0, TIME), (1, HASH)], seen, place)
    }

    ghost well_formed = { refl };
}

/// The time and the hash of published data that was accepted.
#[tactic(auto, unfolding(crate::specs::Published::published_in))]
pub fn published(at: &Placed<'_>) -> (u64, Imprint)
    requires { inner_verdict published_table (view_placed at.now) ≡ Ok tt }
    ensures { result ≡ published_in (view_placed at.now) }
{
    let time = match first_inside::<PublishedContent>(at, TIME) {
        Some(part) => time_of(&part),
        None => 0,
    };
    let hash = match first_inside::<PublishedContent>(at, HASH) {
        Some(part) => hash_of(&part),
        None => Imprint::ZERO,
    };
    (time, hash)
}

#[tactic(auto, unfolding(crate::specs::Contents::time_in))]
fn time_of(part: &Placed<'_>) -> u64
    requires may_stand { MayStand published_table (view_placed part.now) }
    requires kind { part.now.element.kind ≡ 2 }
    ensures { result ≡ number_of part.now.element.body.now }
{
    match time(part) {
        Ok(time) => time,
        Err(_) => 0,
    }
}

#[tactic(auto, unfolding(crate::specs::Contents::imprint_in))]
fn hash_of(part: &Placed<'_>) -> Imprint
    requires may_stand { MayStand published_table (view_placed part.now) }
    requires kind { part.now.element.kind ≡ 4 }
    ensures { result ≡ part.now.element.body.now }
{
    match imprint(part) {
        Ok(hash) => hash,
        Err(_) => Imprint::ZERO,
    }
}

/// The body of published data.
pub fn written_published(alloc: Global, time: u64, hash: &Imprint) -> Result<Bytes, NoMemory>
    ensures text { IfOk result (λ body. body ≡ texts (published_elements time hash.now)) }
    ensures short { IfOk result (λ body. length body ≤ 49) }
{
    numeral_is_read();
    published_body(alloc, time, hash.bytes())
}

fn published_body(alloc: Global, time: u64, hash: &[u8; 33]) -> Result<Bytes, NoMemory>
    ensures { IfOk result (λ body. body ≡ texts (published_elements time hash.now)) }
{
    let mut writer = Writer::new(alloc);
    writer.put_number(TIME, time)?;
    put_short(&mut writer, HASH, hash)?;
    Ok(Bytes::from_vec(writer.into_vec()))
}

/// Writes an element without flags behind what is there.
pub fn put_short(writer: &mut Writer, kind: u16, body: &[u8]) -> Result<(), NoMemory>
    requires kind { kind ≤ 0x1fff }
    requires body { length body.now ≤ 65535 }
    ensures ok { OnOk result (writer.new ≡ writer.old ++ canonical (plain kind body.now)) }
    ensures err { OnErr result (writer.new ≡ writer.old) }
{
    match writer.put(kind, false, false, body) {
        Ok(()) => Ok(()),
        Err(Refused::NoMemory) => Err(NoMemory),
        Err(Refused::Fault(_)) => unreachable!(),
    }
}
