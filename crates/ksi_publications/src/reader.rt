ghost use Rattle.std.specs.Prelude.{◌≡◌, ◌+◌, ◌^◌, ◌<◌, ◌++◌, ℕ, List, length, Ok, Err, IfOk, IfErr};
ghost use Rattle.ksi_imprint.specs.Refused.{IfRefused};
ghost use Rattle.ksi_imprint.specs.declared.refused.Refused.TheVariants.{Fault};
ghost use Rattle.ksi_tlv.specs.Views.{view_placed};
ghost use Rattle.ksi_tlv.specs.Walking.{elements};
ghost use Rattle.ksi_tlv.specs.declared.grammar.fault.ElementFault.{ElementFault};
ghost use Rattle.ksi_tlv.specs.Containing.{container_verdict};
ghost use Rattle.ksi_tlv.specs.Valid.{MayStand};
ghost use Rattle.ksi_tlv.specs.Inside.{whole};
ghost use Rattle.ksi_tlv.specs.Published.{recorded_in};
ghost use Rattle.ksi_publications.specs.Tables.{file_table};
ghost use Rattle.ksi_publications.specs.File.{magic, pairs_of, IsNamed, IsPublications, IsPublicationsFault};

use crate::NoMemory;
use crate::containers::{FileContent, MAGIC, RECORD};
use crate::fault::PublicationsFault;
use crate::laws::file_or_fault;
use crate::publications::Publications;
use ksi_imprint::{Imprint, Refused};
use ksi_tlv::grammar::laws::{faults_by_table, inside_is_whole, whole_or_fault};
use ksi_tlv::grammar::{ElementFault, check, recorded};
use ksi_tlv::{Elements, Placed, after_magic};
use std::alloc::Global;

/// Reads a publications file. Memory is taken only where the whole file is one.
pub fn read(alloc: Global, bytes: &[u8]) -> Result<Publications, Refused<PublicationsFault>>
    ensures pairs { IfOk result (λ publications. IsPublications bytes.now publications) }
    ensures fault { (fault : PublicationsFault) → IsPublicationsFault bytes.now fault → result ≡ Err (Fault fault) }
    ensures refused { IfRefused result (IsPublicationsFault bytes.now)
        ((pairs : List (ℕ × List ℕ)) × IsPublications bytes.now pairs) }
{
    file_or_fault();
    inside_is_whole();
    let rest = behind_magic(bytes)?;
    let pairs = pairs_in(alloc, rest)?;
    Ok(Publications::from_vec(pairs))
}

/// The bytes behind the magic, where the file has no fault.
pub(crate) fn behind_magic(bytes: &[u8]) -> Result<&[u8], PublicationsFault>
    ensures begins { IfOk result (λ rest. bytes.now ≡ magic ++ rest.now) }
    ensures whole { IfOk result (λ rest. container_verdict file_table 0 8 rest.now ≡ Ok tt) }
    ensures short { IfOk result (λ rest. 8 + length rest.now < 2 ^ 64) }
    ensures fault { IfErr result (λ fault. IsPublicationsFault bytes.now fault) }
{
    faults_by_table();
    whole_or_fault();
    let Some(rest) = after_magic(bytes, MAGIC) else {
        return Err(PublicationsFault::Magic);
    };
    match check::<FileContent>(0, MAGIC.len(), rest) {
        Ok(()) => Ok(rest),
        Err(fault) => Err(named(fault)),
    }
}

/// The fault of a file by that of its first element with one.
fn named(fault: ElementFault) -> PublicationsFault
    requires { (other : PublicationsFault) × IsNamed fault other }
    ensures { IsNamed fault result }
{
    match fault {
        ElementFault::Tlv(place) => PublicationsFault::Tlv(place),
        ElementFault::RefusedElement(kind, place) => PublicationsFault::RefusedElement(kind, place),
        ElementFault::UnknownCritical(kind, place) => PublicationsFault::UnknownCritical(
            kind, place,
        ),
        ElementFault::Missing(kind, place) => PublicationsFault::Missing(kind, place),
        ElementFault::Repeated(kind, place) => PublicationsFault::Repeated(kind, place),
        ElementFault::Imprint(place) => PublicationsFault::Imprint(place),
        ElementFault::Number(place) => PublicationsFault::Number(place),
        ElementFault::Time(place) => PublicationsFault::Time(place),
        ElementFault::Algorithm(_)
        | ElementFault::Links(_)
        | ElementFault::Chains(_)
        | ElementFault::Sibling(_) => unreachable!(),
    }
}

/// The times and hashes of the records of a file without fault.
fn pairs_in(alloc: Global, rest: &[u8]) -> Result<Vec<(u64, Imprint)>, NoMemory>
    requires whole { container_verdict file_table 0 8 rest.now ≡ Ok tt }
    requires short { 8 + length rest.now < 2 ^ 64 }
    ensures { IfOk result (λ pairs. pairs.items ≡ pairs_of (whole (elements 8 rest.now))) }
{
    inside_is_whole();
    let mut pairs = Vec::new(alloc);
    let mut elements = Elements::at(MAGIC.len(), rest);
    while let Some(item) = elements.next() {
        if let Ok(at) = item {
            if at.element.kind == RECORD {
                pairs.push(pair_of(&at))?;
            }
        }
    }
    Ok(pairs)
}

pub(crate) fn pair_of(at: &Placed<'_>) -> (u64, Imprint)
    requires may_stand { MayStand file_table (view_placed at.now) }
    requires kind { at.now.element.kind ≡ 1795 }
    ensures { result ≡ recorded_in (view_placed at.now) }
{
    recorded(at)
}
