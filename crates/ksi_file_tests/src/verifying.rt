use crate::imprints::{hash, imprint};
use crate::publications::listed;
use crate::rows::are_so;
use crate::text::{bytes, shown};
use ksi_aggtree::chains::Node;
use ksi_imprint::{Imprint, Sha, Tiny};
use ksi_publications::Publications;
use ksi_signature::{read, view};
use ksi_verifier::{aggregate_view, verify, verify_bytes};
use std::alloc::Global;
use std::test::Fail;

/// The verdict for a hash, publications and a signature.
pub(crate) fn verified(alloc: Global, files: &str) -> Result<String, Fail> {
    let (hash, rest) = files.split_once(';').unwrap_or((files, ""));
    let (published, text) = rest.split_once(';').unwrap_or((rest, ""));
    let publications = listed(alloc, published)?;
    judged(alloc, &imprint(hash)?, &publications, text)
}

fn judged(
    alloc: Global,
    hash: &Imprint,
    publications: &Publications,
    text: &str,
) -> Result<String, Fail> {
    let signature = read(alloc, &bytes(alloc, text)?)?;
    shown(alloc, &verify::<Tiny>(&signature, hash, publications))
}

/// The second and the item that the chains of a signature lead to.
pub(crate) fn aggregated(alloc: Global, text: &str) -> Result<String, Fail> {
    shown(alloc, &led(&bytes(alloc, text)?))
}

fn led(bytes: &[u8]) -> Option<(u64, Node)> {
    match aggregate_view::<Tiny>(&view(bytes).ok()?) {
        Ok(led) => Some((led.time, led.node)),
        Err(_) => None,
    }
}

/// The verdict on bytes for the hash of no bytes and publications.
pub(crate) fn checked(alloc: Global, files: &str) -> Result<String, Fail> {
    let (published, text) = files.split_once(';').unwrap_or((files, ""));
    let publications = listed(alloc, published)?;
    let bytes = bytes(alloc, text)?;
    shown(alloc, &verify_bytes::<Sha>(&bytes, &hash(), &publications))
}

// Two chains, from 06 to 13 at level 1 and on to 1d at level 4, below the root 26 of second 5, with and without a record.
const ACCEPTED: &str =
    "verify 06;5:26;88000146 88010054 020102 030103 030102 05210106 O 060101 08230221010a O 88010054 020102 030103 05210113 O 060101 0726 010102 02210104 O 88020092 010105 020102 0521011d O 07210101 O 08210102 O 07210103 O = Accepted(2)
verify 06;4:00,5:26,5:00;88000172 88010054 020102 030103 030102 05210106 O 060101 08230221010a O 88010054 020102 030103 05210113 O 060101 0726 010102 02210104 O 88020092 010105 020102 0521011d O 07210101 O 08210102 O 07210103 O 88030028 1026 020105 04210126 O = Accepted(2)
aggregate 88000146 88010054 020102 030103 030102 05210106 O 060101 08230221010a O 88010054 020102 030103 05210113 O 060101 0726 010102 02210104 O 88020092 010105 020102 0521011d O 07210101 O 08210102 O 07210103 O = Some((2, Node { imprint: Imprint { bytes: [1, 29, 0, 0, 0, 0, 0, 0, 0, 0, 0, 0, 0, 0, 0, 0, 0, 0, 0, 0, 0, 0, 0, 0, 0, 0, 0, 0, 0, 0, 0, 0, 0] }, level: 4 }))";

#[test]
fn accepts_the_second_of_the_sides(rt: HostRuntime) -> Result<(), Fail> {
    are_so(&rt, rt.alloc(), ACCEPTED)
}

const REFUSED: &str =
    "verify 06;5:26;88000146 88010054 020102 030103 030102 05210106 O 060101 08230221010a O 88010054 020102 030102 05210113 O 060101 0726 010102 02210104 O 88020092 010105 020102 0521011d O 07210101 O 08210102 O 07210103 O = Refused(IndexOrder { chain: 0, place: 0, lower: Some(3), higher: Some(2) })
verify 06;5:26;88000149 88010057 020102 030103 030102 05210106 O 060101 0826 0101fe 0221010a O 88010054 020102 030103 05210113 O 060101 0726 010102 02210104 O 88020092 010105 020102 0521011d O 07210101 O 08210102 O 07210103 O = Refused(Level { chain: 1, link: 0, level: 258 })
verify 06;5:26;88000146 88010054 020102 030103 030102 05210106 O 060101 08230221010a O 88010054 020103 030103 05210113 O 060101 0726 010102 02210104 O 88020092 010105 020102 0521011d O 07210101 O 08210102 O 07210103 O = Refused(AggregationTimes { chain: 1, first: 2, this: 3 })
verify 06;5:26;88000146 88010054 020102 030103 030102 05210106 O 060101 08230221010a O 88010054 020102 030103 05210113 O 060101 0726 010102 02210104 O 88020092 010105 020102 0521011d O 08210101 O 08210102 O 08210103 O = Refused(CalendarShape(TooMany(2)))
verify 06;5:26;88000100 88010054 020102 030103 030102 05210106 O 060101 08230221010a O 88010054 020102 030103 05210113 O 060101 0726 010102 02210104 O 8802004c 010105 020102 0521011d O 07210101 O = Refused(CalendarShape(TooFew(3)))
verify 06;;88000172 88010054 020102 030103 030102 05210106 O 060101 08230221010a O 88010054 020102 030103 05210113 O 060101 0726 010102 02210104 O 88020092 010105 020102 0521011d O 07210101 O 08210102 O 07210103 O 88030028 1026 020106 04210127 O = Refused(RecordDiffers(Time { record: 6, publication: 5 }))
verify 06;4:26;88000172 88010054 020102 030103 030102 05210106 O 060101 08230221010a O 88010054 020102 030103 05210113 O 060101 0726 010102 02210104 O 88020092 010105 020102 0521011d O 07210101 O 08210102 O 07210103 O 88030028 1026 020105 04210126 O = Refused(NoPublication { time: 5 })
verify 06;5:27,5:26;88000146 88010054 020102 030103 030102 05210106 O 060101 08230221010a O 88010054 020102 030103 05210113 O 060101 0726 010102 02210104 O 88020092 010105 020102 0521011d O 07210101 O 08210102 O 07210103 O = Refused(PublicationDiffers { time: 5, in_file: Imprint { bytes: [1, 39, 0, 0, 0, 0, 0, 0, 0, 0, 0, 0, 0, 0, 0, 0, 0, 0, 0, 0, 0, 0, 0, 0, 0, 0, 0, 0, 0, 0, 0, 0, 0] }, computed: Imprint { bytes: [1, 38, 0, 0, 0, 0, 0, 0, 0, 0, 0, 0, 0, 0, 0, 0, 0, 0, 0, 0, 0, 0, 0, 0, 0, 0, 0, 0, 0, 0, 0, 0, 0] } })";

#[test]
fn tells_the_first_check_that_fails(rt: HostRuntime) -> Result<(), Fail> {
    are_so(&rt, rt.alloc(), REFUSED)
}

// A signature of the only request of a core, by another implementation of SHA-256, and a shorter one.
const BYTES: &str =
    "bytes 0:A;8800005a 8801002b 0200 030101 052101 D 060101 88020027 0100 0200 052101 D = Accepted(0)
bytes 0:A; = Malformed(Tlv(0))
bytes 1700000000:570737a592f024019e838977a595140c41a115724cadca09b01a769fde3a85d3;88000263 88010032 02046553f100 030101 030101 052101 D 060101 8801002f 02046553f100 030101 052101 D 060101 880201f6 01046553f100 02046553f100 052101 D 08210145470adcfb1fd2672fd1eed61be90547130e76c1fd50fa980bf645fc75fb5d34 082101d1b916f8242c1c46b2e2d931d54c53295c5809d16b011b50b4e1e98e9cf344b4 082101177849736674c1409ad806c2b3895966555afd4d8dcb98281ed1afa00f0beff5 0821016c159ee9e1886d5aa9c468069a946cc159a62ed13d84e6a13dedec692ca8af42 08210108cdfefa631c5e2f5ca30667ff5abbc2dc09c69e258b00c4be68b122b2af859d 08210117e38264532474ef72812e1ba1170ff282f95998f159dd251d4abfdad9b7e517 0821015a6a0731ad751fd676ecb6e20b56c6ef0d5227cdb4cecc707591e86cef8bb337 0821015a9575e4f28f49791b75ceef627c8e280095f8b443c3bcb400fcc12e23f7848d 08210105422bb6fbd2f7fac333d7f1bf02a26caa4477b27700605573e88c62dc61cc75 082101729ed6dd9e7c24f1b77dfc5dabd5dd761c7bb1bd80e1aa942caf32e645dfc259 082101fc2fa611450e69beb144999b67c93c091be5454b5daaad0b4733de61b8f9559d 0821017597f70101c8e7d0ffb7d9d503c1533a8aeb1515caa6b2d958d59d5e08e025eb 082101a96ce76baacdcfdda647c4d70ce36d5dd0625c7e58a11da0fb64f07fcef3bfc7 = Accepted(1700000000)";

#[test]
fn bytes_are_checked(rt: HostRuntime) -> Result<(), Fail> {
    are_so(&rt, rt.alloc(), BYTES)
}
