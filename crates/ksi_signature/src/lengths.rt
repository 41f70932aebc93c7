//! How many bytes elements take as they are written, found without writing them. A size above 2^64 - 1 stands at that.

ghost use Rattle.std.specs.Prelude.{◌≡◌, ◌≤◌, ◌*◌, length, map};
ghost use Rattle.ksi_tlv.specs.Spelling.{plain, canonical};
ghost use Rattle.ksi_tlv.specs.Numerals.{numeral, without_zeros};
ghost use Rattle.ksi_tlv.specs.Writing.{texts};
ghost use Rattle.ksi_signature.specs.Lengths.{capped, size_of};
ghost use Rattle.ksi_signature.specs.Written.{calendar_link_element, calendar_elements, publishing_elements};
ghost use Rattle.ksi_tlv.specs.Published.{published_elements};

use crate::kinds::{
    AGGREGATION_TIME, INPUT_HASH, LEFT_LINK, PUBLICATION_TIME, PUBLISHED, REFERENCE, REPOSITORY,
};
use crate::signature::{CalendarChain, PublicationRecord};
use ksi_calendar::CalendarLink;
use ksi_imprint::{Bytes, Imprint};

/// An element with a body of this many bytes.
pub(crate) fn size_of(kind: u16, body: u64) -> u64
    ensures { result ≡ capped (size_of kind body) }
{
    if kind <= 0x1f && body <= 0xff {
        2 + body
    } else {
        body.saturating_add(4)
    }
}

/// An element with a number.
fn number_size(kind: u16, n: u64) -> u64
    ensures value { result ≡ length (canonical (plain kind (numeral n))) }
    ensures small { result ≤ 12 }
{
    size_of(kind, numeral_size(n))
}

/// A number in the fewest bytes.
#[tactic(auto, unfolding(ksi_tlv::specs::Numerals::numeral))]
fn numeral_size(n: u64) -> u64
    ensures value { result ≡ length (numeral n) }
    ensures small { result ≤ 8 }
{
    let bytes = n.to_be_bytes();
    significant_size(&bytes)
}

/// The bytes from the first that is not zero on.
fn significant_size(bytes: &[u8]) -> u64
    ensures value { result ≡ length (without_zeros bytes.now) }
    ensures small { result ≤ length bytes.now }
{
    let mut rest = bytes;
    while let [0, others @ ..] = rest {
        rest = others;
    }
    rest.len() as u64
}

/// An element with an imprint.
fn imprint_size(kind: u16, imprint: &Imprint) -> u64
    ensures value { result ≡ length (canonical (plain kind imprint.now)) }
    ensures small { result ≤ 37 }
{
    size_of(kind, imprint.bytes().len() as u64)
}

/// The body of a calendar chain.
pub(crate) fn calendar_size(chain: &CalendarChain) -> u64
    ensures value { result ≡ length (texts (calendar_elements chain.now)) }
    ensures small { result ≤ 2392 }
{
    let times = number_size(PUBLICATION_TIME, chain.publication)
        + number_size(AGGREGATION_TIME, chain.time);
    let input = imprint_size(INPUT_HASH, &chain.input);
    times + input + calendar_links_size(chain.links.as_slice())
}

/// Links of a calendar chain.
fn calendar_links_size(links: &[CalendarLink]) -> u64
    requires { length links.now ≤ 63 }
    ensures value { result ≡ length (texts (map calendar_link_element links.now)) }
    ensures small { result ≤ 2331 }
{
    let mut size = 0;
    for link in links {
        size += calendar_link_size(link);
    }
    size
}

fn calendar_link_size(link: &CalendarLink) -> u64
    ensures value { result ≡ length (canonical (calendar_link_element link.now)) }
    ensures small { result ≤ 37 }
{
    // A right link takes as many bytes.
    imprint_size(LEFT_LINK, &link.sibling)
}

/// The body of a publication record.
pub(crate) fn publishing_size(published: &PublicationRecord) -> u64
    ensures { result ≡ capped (length (texts (publishing_elements published.now))) }
{
    let data = published_size(published.time, &published.hash);
    let references = bodies_size(REFERENCE, published.references.as_slice());
    let repositories = bodies_size(REPOSITORY, published.repositories.as_slice());
    data.saturating_add(references.saturating_add(repositories))
}

/// Published data.
fn published_size(time: u64, hash: &Imprint) -> u64
    ensures value { result ≡ length (canonical (plain 16 (texts (published_elements time hash.now)))) }
    ensures small { result ≤ 53 }
{
    size_of(
        PUBLISHED,
        number_size(0x02, time) + imprint_size(0x04, hash),
    )
}

/// Elements of a kind with these bodies.
fn bodies_size(kind: u16, bodies: &[Bytes]) -> u64
    ensures { result ≡ capped (length (texts (map (plain kind) bodies.now))) }
{
    let mut size: u64 = 0;
    for body in bodies {
        size = size.saturating_add(size_of(kind, body.as_slice().len() as u64));
    }
    size
}
