use crate::imprints::hash;
use crate::rows::are_so;
use crate::text::{bytes, shown};
use ksi_imprint::{Sha, Tiny};
use ksi_signature::{SignatureView, view};
use ksi_verifier::{find_step, lent_calendar, verify_files};
use std::alloc::Global;
use std::test::Fail;

/// The verdict on a signature file for the hash of no bytes, over a publications file.
pub(crate) fn checked(alloc: Global, files: &str) -> Result<String, Fail> {
    let (signature, publications) = files.split_once(';').unwrap_or((files, ""));
    let signature = bytes(alloc, signature)?;
    let publications = bytes(alloc, publications)?;
    shown(
        alloc,
        &verify_files::<Sha>(&signature, &hash(), &publications),
    )
}

/// The step of a number of a signature: where it stands, its side and level, the first byte of both parts and of the join.
pub(crate) fn stepped(alloc: Global, files: &str) -> Result<String, Fail> {
    let (number, signature) = files.split_once(';').unwrap_or((files, ""));
    let number: usize = number.parse()?;
    let bytes = bytes(alloc, signature)?;
    told(alloc, &view(&bytes)?, number)
}

fn told(alloc: Global, signature: &SignatureView<'_>, number: usize) -> Result<String, Fail> {
    let Some(calendar) = signature.calendar() else {
        return shown(alloc, &"no calendar");
    };
    let links = calendar.links();
    let part = Some(lent_calendar(&calendar, &links));
    match find_step::<Tiny>(signature.chains(), &part, number) {
        Some(step) => shown(
            alloc,
            &(
                (step.calendar, step.chain, step.place),
                (step.side, step.level, step.raw),
                (
                    step.node.bytes()[1],
                    step.sibling.get(1),
                    step.join.bytes()[1],
                ),
            ),
        ),
        None => shown(alloc, &"none"),
    }
}

// The only request of a core, over a file of one publication; over one of another; a file of no signature, and of none.
const FILES: &str =
    "files 8800005a 8801002b 0200 030101 052101 D 060101 88020027 0100 0200 052101 D;4b53495055424c46 87010005 010101 0200 87030027 1025 0200 042101 D = Accepted(Proved { second: 0, publication: 0, root: Imprint { bytes: [1, 227, 176, 196, 66, 152, 252, 28, 20, 154, 251, 244, 200, 153, 111, 185, 36, 39, 174, 65, 228, 100, 155, 147, 76, 164, 149, 153, 27, 120, 82, 184, 85] } })
files 8800005a 8801002b 0200 030101 052101 D 060101 88020027 0100 0200 052101 D;4b53495055424c46 87010005 010101 0200 87030028 1026 020101 042101 D = Refused(NoPublication { time: 0 })
files 8800005a 8801002b 0200 030101 052101 D 060101 88020027 0100 0200 052101 D;4b53495055424c46 = NotPublications(Missing(1793, 0))
files ;4b53495055424c46 = NotSignature(Tlv(0))";

#[test]
fn files_are_checked(rt: HostRuntime) -> Result<(), Fail> {
    are_so(&rt, rt.alloc(), FILES)
}

// A link of each of two chains and of the calendar chain, and behind its last one.
const STEPS: &str =
    "step 0;88000146 88010054 020102 030103 030102 05210106 O 060101 08230221010a O 88010054 020102 030103 05210113 O 060101 0726 010102 02210104 O 88020092 010105 020102 0521011d O 07210101 O 08210102 O 07210103 O = ((false, 0, 0), (Right, 1, false), (6, Some(10), 19))
step 1;88000146 88010054 020102 030103 030102 05210106 O 060101 08230221010a O 88010054 020102 030103 05210113 O 060101 0726 010102 02210104 O 88020092 010105 020102 0521011d O 07210101 O 08210102 O 07210103 O = ((false, 1, 0), (Left, 4, false), (19, Some(4), 29))
step 2;88000146 88010054 020102 030103 030102 05210106 O 060101 08230221010a O 88010054 020102 030103 05210113 O 060101 0726 010102 02210104 O 88020092 010105 020102 0521011d O 07210101 O 08210102 O 07210103 O = ((true, 0, 0), (Left, 255, false), (29, Some(1), 31))
step 5;88000146 88010054 020102 030103 030102 05210106 O 060101 08230221010a O 88010054 020102 030103 05210113 O 060101 0726 010102 02210104 O 88020092 010105 020102 0521011d O 07210101 O 08210102 O 07210103 O = \"none\"";

#[test]
fn steps_are_found(rt: HostRuntime) -> Result<(), Fail> {
    are_so(&rt, rt.alloc(), STEPS)
}
