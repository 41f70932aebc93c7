// The text of a publications file.
ghost use Rattle.std.specs.Prelude.{◌≡◌, ◌++◌, ◌∷◌, [], ℕ, List, None, Some, IfOk, OnOk};
ghost use Rattle.ksi_schedule.specs.Printed.{text_of_lines};
ghost use Rattle.ksi_publications.specs.File.{IsPublications, IsPublicationsFault};
ghost use Rattle.ksi_publications.specs.declared.fault.PublicationsFault.{PublicationsFault};
ghost use Rattle.ksi_texts.specs.Text.{pair_row, pairs_rows, publications_rows};

use crate::printing::put;
use crate::word::Word::{Digest, Number, Second, Text};
use ksi_imprint::{Imprint, NoMemory, Refused};
use ksi_publications::laws::file_or_fault;
use ksi_publications::{PublicationsFault, read};
use std::alloc::Global;

/// The text of the publications file that bytes are. Of other bytes the first fault is given, and nothing is put.
pub fn put_publications_of(
    alloc: Global,
    text: &mut Vec<u8>,
    bytes: &[u8],
) -> Result<Option<PublicationsFault>, NoMemory>
    ensures ours { (pairs : List (ℕ × List ℕ)) → IsPublications bytes.now pairs → IfOk result (λ fault. fault ≡ None) }
    ensures told { (pairs : List (ℕ × List ℕ)) → IsPublications bytes.now pairs → OnOk result (text.new.items ≡ text.old.items ++ text_of_lines (publications_rows pairs)) }
    ensures fault { (fault : PublicationsFault) → IsPublicationsFault bytes.now fault → IfOk result (λ found. found ≡ Some fault) }
    ensures stays { (fault : PublicationsFault) → IsPublicationsFault bytes.now fault → text.new.items ≡ text.old.items }
{
    file_or_fault();
    match read(alloc, bytes) {
        Ok(publications) => {
            put_publications(text, publications.pairs())?;
            Ok(None)
        }
        Err(Refused::Fault(fault)) => Ok(Some(fault)),
        Err(Refused::NoMemory) => Err(NoMemory),
    }
}

/// The rows of published times and roots.
pub fn put_publications(text: &mut Vec<u8>, pairs: &[(u64, Imprint)]) -> Result<(), NoMemory>
    ensures { OnOk result (text.new.items ≡ text.old.items ++ text_of_lines (publications_rows pairs.now)) }
{
    put(
        text,
        &[
            Text("publications file with"),
            Number(pairs.len() as u64),
            Text("records"),
        ],
    )?;
    put_pairs(text, pairs)
}

/// A row for each published time and root.
pub fn put_pairs(text: &mut Vec<u8>, pairs: &[(u64, Imprint)]) -> Result<(), NoMemory>
    ensures { OnOk result (text.new.items ≡ text.old.items ++ text_of_lines (pairs_rows pairs.now)) }
{
    for pair in pairs {
        put_pair(text, pair)?;
    }
    Ok(())
}

fn put_pair(text: &mut Vec<u8>, pair: &(u64, Imprint)) -> Result<(), NoMemory>
    ensures { OnOk result (text.new.items ≡ text.old.items ++ text_of_lines (pair_row pair.now ∷ [])) }
{
    put(
        text,
        &[Text(" "), Second(pair.0), Text("root"), Digest(&pair.1)],
    )
}
