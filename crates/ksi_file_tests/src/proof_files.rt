use crate::blocks::two_lines;
use crate::same::same;
use ksi_imprint::{NoMemory, Refused};
use ksi_logblock::{ProofFault, read_proof, write_proof};
use std::alloc::Global;
use std::test::Fail;

/// The element of an imprint of kind 1 or 2, whose digest is a byte and zero bytes.
fn put_imprint(bytes: &mut Vec<u8>, kind: u8, first: u8) -> Result<(), NoMemory> {
    bytes.extend_from_slice(&[kind, 33, 1, first])?;
    bytes.extend_from_slice(&[0; 31])
}

/// A file: the magic, a mask and so many left links, with an element behind them.
fn file(alloc: Global, links: usize, behind: &[u8]) -> Result<Vec<u8>, NoMemory> {
    let mut bytes = Vec::new(alloc);
    bytes.extend_from_slice(b"KSILINE1")?;
    put_imprint(&mut bytes, 1, 0x21)?;
    for _ in 0..links {
        bytes.extend_from_slice(&[7, 35])?;
        put_imprint(&mut bytes, 2, 0x0b)?;
    }
    bytes.extend_from_slice(behind)?;
    Ok(bytes)
}

#[test]
fn a_proof_is_written_as_by_hand(rt: HostRuntime) -> Result<(), Fail> {
    let alloc = rt.alloc();
    let want = file(alloc, 1, b"")?;
    let written = match two_lines(alloc) {
        Ok(block) => {
            if block.count() == 0 {
                None
            } else {
                let proof = block.proof(0)?;
                Some(write_proof(alloc, &proof)?)
            }
        }
        Err(_) => None,
    };
    let told = written.map(|text| text.as_slice() == want.as_slice());
    same(&rt, "file", told, Some(true));
    Ok(())
}

/// How many links a file's proof has, or its first fault.
fn told(alloc: Global, bytes: &[u8]) -> Result<usize, Refused<ProofFault>> {
    match read_proof(alloc, bytes) {
        Ok(proof) => Ok(proof.links.as_slice().len()),
        Err(refused) => Err(refused),
    }
}

#[test]
fn a_file_is_read_or_has_its_first_fault(rt: HostRuntime) -> Result<(), Fail> {
    static ROWS: [(usize, &[u8], Result<usize, ProofFault>); 12] = [
        (0, &[], Ok(0)),
        (63, &[], Ok(63)),
        (64, &[], Err(ProofFault::Links(2374))),
        (63, &[7, 9], Err(ProofFault::Tlv(2374))),
        (63, &[9, 0], Err(ProofFault::Order(2374))),
        (1, &[7], Err(ProofFault::Tlv(80))),
        (1, &[1, 0], Err(ProofFault::Order(80))),
        (1, &[7, 0], Err(ProofFault::Order(82))),
        (1, &[7, 3, 1, 1, 1], Err(ProofFault::Order(85))),
        (1, &[8, 4, 1, 2, 1, 0], Err(ProofFault::Number(82))),
        (1, &[8, 3, 2, 1, 1], Err(ProofFault::Imprint(82))),
        (1, &[8, 3, 2, 9, 1], Err(ProofFault::Tlv(82))),
    ];
    for (links, behind, want) in &ROWS {
        let bytes = file(rt.alloc(), *links, behind)?;
        let want = match want {
            Ok(count) => Ok(*count),
            Err(fault) => Err(Refused::Fault(*fault)),
        };
        same(&rt, bytes.len(), told(rt.alloc(), &bytes), want);
    }
    let magic = Err(Refused::Fault(ProofFault::Magic));
    same(&rt, "magic", told(rt.alloc(), b"KSILINE2"), magic);
    let missing = Err(Refused::Fault(ProofFault::Order(8)));
    same(&rt, "mask", told(rt.alloc(), b"KSILINE1"), missing);
    Ok(())
}
