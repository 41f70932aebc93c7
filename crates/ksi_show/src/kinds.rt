// What a file is, and its text.
ghost use Rattle.std.specs.Prelude.{◌≡◌, ◌++◌, length, IfOk, OnOk};
ghost use Rattle.ksi_signature.specs.File.{IsSignature};
ghost use Rattle.ksi_signature.specs.declared.signature.Signature.{Signature};
ghost use Rattle.ksi_show.specs.declared.found.Found.TheVariants.{Ours};
ghost use Rattle.ksi_texts.specs.Text.{signature_text};

use crate::copies::{put_front, put_mirror, put_proof};
use crate::found::Found;
use crate::journal::put_journal;
use crate::nodes::{put_node, put_rounds};
use crate::picture::draw_signature;
use ksi_imprint::{NoMemory, Refused};
use ksi_lines::{Line, publications_fault_line, schedule_fault_line, signature_fault_line};
use ksi_schedule::read_schedule;
use ksi_signature::{SignatureFault, view};
use ksi_texts::Word::{Number, Quoted, Text};
use ksi_texts::{put, put_publications_of, put_signature_of};
use std::alloc::Global;

/// Shows the bytes of file word `n`. Of a signature it is exactly its text.
pub(crate) fn put_file(
    alloc: Global,
    text: &mut Vec<u8>,
    n: usize,
    bytes: &[u8],
) -> Result<Found, NoMemory>
    ensures ours { (signature : Signature) → IsSignature bytes.now signature → IfOk result (λ found. found ≡ Ours) }
    ensures told { (signature : Signature) → IsSignature bytes.now signature → OnOk result (text.new.items ≡ text.old.items ++ signature_text (length bytes.now) signature) }
{
    match put_signature_of(text, bytes)? {
        None => Ok(Found::Ours),
        Some(fault) => put_other(alloc, text, n, bytes, fault),
    }
}

/// Draws the signature that file word `n` is.
pub(crate) fn put_picture(text: &mut Vec<u8>, n: usize, bytes: &[u8]) -> Result<Found, NoMemory> {
    match view(bytes) {
        Ok(signature) => {
            draw_signature(text, &signature)?;
            Ok(Found::Ours)
        }
        Err(fault) => put_fault(text, &signature_fault_line(n, fault)),
    }
}

/// Shows bytes that are no signature, with this fault.
fn put_other(
    alloc: Global,
    text: &mut Vec<u8>,
    n: usize,
    bytes: &[u8],
    fault: SignatureFault,
) -> Result<Found, NoMemory> {
    if bytes.starts_with(b"KSI") {
        return put_with_magic(alloc, text, n, bytes);
    }
    if bytes.starts_with(b"ksi-") {
        return put_schedule(alloc, text, n, bytes);
    }
    if bytes.starts_with(b"\x88\x00") {
        return put_fault(text, &signature_fault_line(n, fault));
    }
    put_foreign(text, bytes)
}

/// Shows bytes that may begin as a file of ours.
fn put_with_magic(
    alloc: Global,
    text: &mut Vec<u8>,
    n: usize,
    bytes: &[u8],
) -> Result<Found, NoMemory> {
    if bytes.starts_with(b"KSIPUBL") {
        return put_published(alloc, text, n, bytes);
    }
    if bytes.starts_with(b"KSIJRNL") {
        return put_journal(alloc, text, n, bytes);
    }
    if bytes.starts_with(b"KSIMIRR") {
        return put_mirror(alloc, text, n, bytes);
    }
    if bytes.starts_with(b"KSIFRNT") {
        return put_front(alloc, text, n, bytes);
    }
    if bytes.starts_with(b"KSILINE") {
        return put_proof(alloc, text, n, bytes);
    }
    if bytes.starts_with(b"KSINODE") {
        return put_node(alloc, text, n, bytes);
    }
    if bytes.starts_with(b"KSIROUN1") {
        return put_rounds(text, bytes);
    }
    put_foreign(text, bytes)
}

fn put_published(
    alloc: Global,
    text: &mut Vec<u8>,
    n: usize,
    bytes: &[u8],
) -> Result<Found, NoMemory> {
    match put_publications_of(alloc, text, bytes)? {
        None => Ok(Found::Ours),
        Some(fault) => put_fault(text, &publications_fault_line(n, fault)),
    }
}

fn put_schedule(
    alloc: Global,
    text: &mut Vec<u8>,
    n: usize,
    bytes: &[u8],
) -> Result<Found, NoMemory> {
    match read_schedule(alloc, bytes) {
        Ok(schedule) => {
            let events = schedule.events().len() as u64;
            let cores = schedule.plan().cores() as u64;
            put(
                text,
                &[
                    Text("schedule of"),
                    Number(cores),
                    Text("cores with"),
                    Number(events),
                    Text("events"),
                ],
            )?;
            Ok(Found::Ours)
        }
        Err(Refused::Fault(fault)) => put_fault(text, &schedule_fault_line(n, &fault)),
        Err(Refused::NoMemory) => Err(NoMemory),
    }
}

/// The line of a fault.
pub(crate) fn put_fault(text: &mut Vec<u8>, line: &Line) -> Result<Found, NoMemory> {
    text.extend_from_slice(line.as_bytes())?;
    Ok(Found::Malformed)
}

fn put_foreign(text: &mut Vec<u8>, bytes: &[u8]) -> Result<Found, NoMemory> {
    put(
        text,
        &[
            Text("no file of this project,"),
            Number(bytes.len() as u64),
            Text("bytes that begin with"),
            Quoted(bytes),
        ],
    )?;
    Ok(Found::Foreign)
}
