// The summary of a journal.
use crate::found::Found;
use crate::gaps::{Gaps, gaps_of};
use crate::kinds::put_fault;
use ksi_imprint::{NoMemory, Refused, Sha};
use ksi_journal::{Journal, load};
use ksi_lines::journal_fault_line;
use ksi_texts::Word::{Number, Second, Text};
use ksi_texts::{put, put_pairs};
use std::alloc::Global;

pub(crate) fn put_journal(
    alloc: Global,
    text: &mut Vec<u8>,
    n: usize,
    bytes: &[u8],
) -> Result<Found, NoMemory> {
    match load::<Sha>(alloc, bytes) {
        Ok(journal) => {
            put_summary(text, &journal)?;
            Ok(Found::Ours)
        }
        Err(Refused::Fault(fault)) => put_fault(text, &journal_fault_line(n, &fault)),
        Err(Refused::NoMemory) => Err(NoMemory),
    }
}

/// What a journal keeps, in numbers, and its publications.
fn put_summary(text: &mut Vec<u8>, journal: &Journal<Sha>) -> Result<(), NoMemory> {
    let gaps = gaps_of(journal.start(), journal.seconds());
    put(
        text,
        &[Text("journal from second"), Second(journal.start())],
    )?;
    put_kept(text, &gaps)?;
    put_gaps(text, &gaps)?;
    put_issued(text, journal.issued().len(), journal.publications().len())?;
    put_pairs(text, journal.publications())
}

/// The kept seconds.
fn put_kept(text: &mut Vec<u8>, gaps: &Gaps) -> Result<(), NoMemory> {
    put(
        text,
        &[
            Text("  seconds kept"),
            Number(gaps.kept),
            Text("without a root"),
            Number(gaps.missed),
            Text("items"),
            Number(gaps.items),
        ],
    )?;
    if gaps.kept == 0 {
        return Ok(());
    }
    put(text, &[Text("  first kept"), Second(gaps.first)])?;
    put(text, &[Text("  last kept"), Second(gaps.last)])
}

/// What is not kept between the start and the last kept second.
fn put_gaps(text: &mut Vec<u8>, gaps: &Gaps) -> Result<(), NoMemory> {
    match gaps.hole {
        None => put(text, &[Text("  no gaps")]),
        Some(hole) => put(
            text,
            &[
                Text("  seconds in gaps"),
                Number(gaps.lacking),
                Text("the first"),
                Second(hole),
            ],
        ),
    }
}

fn put_issued(text: &mut Vec<u8>, issued: usize, published: usize) -> Result<(), NoMemory> {
    put(
        text,
        &[
            Text("  signatures issued"),
            Number(issued as u64),
            Text("roots published"),
            Number(published as u64),
        ],
    )
}
