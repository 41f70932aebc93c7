//! What an accepted chain is within. The functions without a result only tell it to the proofs.

ghost use Rattle.std.specs.Prelude.{◌≡◌, ◌<◌, ◌^◌, true, Ok};
ghost use Rattle.std.specs.List.{AllByRecursion};
ghost use Rattle.ksi_imprint.specs.Imprints.{IsImprint};
ghost use Rattle.ksi_tlv.specs.Spelling.{AreBytes};
ghost use Rattle.ksi_tlv.specs.Views.{view_placed};
ghost use Rattle.ksi_tlv.specs.Containing.{inner_verdict};
ghost use Rattle.ksi_tlv.specs.Valid.{MayStand};
ghost use Rattle.ksi_tlv.specs.Inside.{inner_elements};
ghost use Rattle.ksi_tlv.specs.Published.{record_table, recorded_in};
ghost use Rattle.ksi_signature.specs.Values.{AreLinks, AreChains};
ghost use Rattle.ksi_signature.specs.Tables.{link_table, chain_table, calendar_table, signature_table};
ghost use Rattle.ksi_signature.specs.Contents.{link_in, links_among, chain_in, calendar_in, signature_of};
ghost use Rattle.ksi_signature.specs.Heads.{parts_pass};
ghost use Rattle.ksi_signature.specs.Kept.{IsLink, IsLent, IsCalendar};

use ksi_imprint::Imprint;
use ksi_tlv::Placed;
use ksi_tlv::grammar::laws::inside_is_whole;
use ksi_tlv::grammar::recorded;

/// The parts of an accepted chain are within the limits of their types.
pub(crate) fn chain_is_limited(at: &Placed<'_>)
    requires { inner_verdict chain_table (view_placed at.now) ≡ Ok tt }
    ensures { IsLent (chain_in (view_placed at.now)) }
{
    inside_is_whole();
}

/// The elements of an accepted chain may stand in it, and its links are within the limits of their type.
pub(crate) fn links_are_limited(at: &Placed<'_>)
    requires { inner_verdict chain_table (view_placed at.now) ≡ Ok tt }
    ensures each { AllByRecursion (MayStand chain_table) (inner_elements (view_placed at.now)) }
    ensures limits { AreLinks (links_among (inner_elements (view_placed at.now))) }
{
    inside_is_whole();
}

/// The parts of an accepted link are within the limits of their types.
pub(crate) fn link_is_limited(at: &Placed<'_>)
    requires { inner_verdict link_table (view_placed at.now) ≡ Ok tt }
    ensures { IsLink (link_in (view_placed at.now)) }
{
    inside_is_whole();
}

/// The input hash of an accepted chain.
pub(crate) fn imprint_in_chain(at: &Placed<'_>, bytes: &[u8]) -> Imprint
    requires accepted { inner_verdict chain_table (view_placed at.now) ≡ Ok tt }
    requires input { bytes.now ≡ (chain_in (view_placed at.now)).input }
    ensures { result ≡ bytes.now }
{
    chain_is_limited(at);
    read_imprint(bytes)
}

/// The imprint that bytes are.
pub(crate) fn read_imprint(bytes: &[u8]) -> Imprint
    requires { IsImprint bytes.now }
    ensures { result ≡ bytes.now }
{
    match Imprint::read(bytes) {
        Ok(imprint) => imprint,
        Err(_) => unreachable!(),
    }
}

/// The parts of an accepted calendar chain are within the limits of their types.
pub(crate) fn calendar_is_limited(at: &Placed<'_>)
    requires { inner_verdict calendar_table (view_placed at.now) ≡ Ok tt }
    ensures { IsCalendar (calendar_in (view_placed at.now)) }
{
    inside_is_whole();
}

/// The input hash of an accepted calendar chain.
pub(crate) fn imprint_in_calendar(at: &Placed<'_>, bytes: &[u8]) -> Imprint
    requires accepted { inner_verdict calendar_table (view_placed at.now) ≡ Ok tt }
    requires input { bytes.now ≡ (calendar_in (view_placed at.now)).input }
    ensures { result ≡ bytes.now }
{
    calendar_is_limited(at);
    read_imprint(bytes)
}

/// The chains of an accepted signature are within their limits.
pub(crate) fn signature_is_limited(at: &Placed<'_>)
    requires { inner_verdict signature_table (view_placed at.now) ≡ Ok tt }
    ensures { AreChains (signature_of (inner_elements (view_placed at.now))).chains }
{
    inside_is_whole();
}

/// The index parts of an accepted chain are numbers.
pub(crate) fn parts_are_numbers(at: &Placed<'_>)
    requires { inner_verdict chain_table (view_placed at.now) ≡ Ok tt }
    ensures { parts_pass (inner_elements (view_placed at.now)) ≡ true }
{
    inside_is_whole();
}

/// What an accepted publication record publishes.
pub(crate) fn recorded_below(at: &Placed<'_>) -> (u64, Imprint)
    requires { inner_verdict record_table (view_placed at.now) ≡ Ok tt }
    ensures value { result ≡ recorded_in (view_placed at.now) }
    ensures below { result.0 < 2 ^ 63 }
{
    inside_is_whole();
    recorded(at)
}

/// The members of a slice of bytes are bytes.
pub(crate) fn are_bytes(bytes: &[u8])
    ensures { AreBytes bytes.now }
{}
