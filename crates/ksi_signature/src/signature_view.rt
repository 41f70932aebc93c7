ghost use Rattle.std.specs.Prelude.{◌≡◌, Ok};
ghost use Rattle.ksi_tlv.specs.Views.{view_placed};
ghost use Rattle.ksi_tlv.specs.Containing.{inner_verdict};
ghost use Rattle.ksi_tlv.specs.Inside.{inner_elements};
ghost use Rattle.ksi_signature.specs.Tables.{signature_table};
ghost use Rattle.ksi_signature.specs.Contents.{signature_of};
ghost use Rattle.ksi_signature.specs.File.{answer_of};
ghost use Rattle.ksi_signature.specs.Reading.{elements_in};

use crate::calendar_view::CalendarView;
use crate::chain_list::ChainList;
use crate::chain_view::ChainView;
use crate::containers::SignatureContent;
use crate::gathering::chains_in;
use crate::kinds::{CALENDAR, PUBLICATION};
use crate::record_view::RecordView;
use crate::within::signature_is_limited;
use ksi_tlv::Placed;
use ksi_tlv::grammar::first_inside;

/// A signature, lent from its bytes.
#[derive(Drop)]
pub struct SignatureView<'a> {
    pub(crate) bytes: &'a [u8],
    pub(crate) at: Placed<'a>,
    chains: ChainList<'a>,
    ghost is_whole: { answer_of bytes.now ≡ Ok tt },
    ghost elements_are: { elements_in bytes.now ≡ inner_elements (view_placed at) },
    ghost accepted: { inner_verdict signature_table (view_placed at) ≡ Ok tt },
    ghost chains_are: { chains ≡ (signature_of (inner_elements (view_placed at))).chains },
}

impl<'a> SignatureView<'a> {
    ghost use Rattle.std.specs.Prelude.{◌≡◌, ◌<◌, ◌≤◌, Ok, length, map, option_map};
    ghost use Rattle.ksi_tlv.specs.Views.{view_placed};
    ghost use Rattle.ksi_tlv.specs.Containing.{inner_verdict};
    ghost use Rattle.ksi_tlv.specs.Inside.{inner_elements};
    ghost use Rattle.ksi_signature.specs.Tables.{signature_table};
    ghost use Rattle.ksi_signature.specs.Values.{AreChains};
    ghost use Rattle.ksi_signature.specs.Contents.{signature_of};
    ghost use Rattle.ksi_signature.specs.File.{answer_of};
    ghost use Rattle.ksi_signature.specs.Reading.{elements_in};
    ghost use Rattle.ksi_signature.specs.PartsSeen.{chain_seen, calendar_seen, record_seen};
    ghost use Rattle.ksi_signature.specs.Seen.{seen, bytes_seen};

    /// The signature that bytes are, all of them one accepted element.
    #[tactic(auto, unfolding(crate::specs::Contents::signature_of))]
    pub(crate) fn new(bytes: &'a [u8], at: &Placed<'a>) -> Self
        requires accepted { inner_verdict signature_table (view_placed at.now) ≡ Ok tt }
        requires whole { answer_of bytes.now ≡ Ok tt }
        requires elements { elements_in bytes.now ≡ inner_elements (view_placed at.now) }
        ensures value { seen result ≡ signature_of (inner_elements (view_placed at.now)) }
        ensures bytes { bytes_seen result ≡ bytes.now }
    {
        let chains = chains_in(at);
        SignatureView {
            bytes,
            at: *at,
            chains,
        }
    }

    /// The aggregation chains by falling number of index parts, those of equal number in the order of the bytes.
    pub fn chains(&self) -> &[ChainView<'a>]
        ensures chains { map chain_seen result.now ≡ (seen self.now).chains }
        ensures some { 0 < length result.now }
        ensures count { length result.now ≤ 16 }
        ensures limits { AreChains (seen self.now).chains }
    {
        signature_is_limited(&self.at);
        self.chains.as_slice()
    }

    /// From the second's root to a root of the calendar.
    #[tactic(auto, unfolding(crate::specs::Contents::signature_of))]
    pub fn calendar(&self) -> Option<CalendarView<'a>>
        ensures { option_map calendar_seen result ≡ (seen self.now).calendar }
    {
        match first_inside::<SignatureContent>(&self.at, CALENDAR) {
            Some(part) => Some(CalendarView::new(&part)),
            None => None,
        }
    }

    /// Where that root was published.
    #[tactic(auto, unfolding(crate::specs::Contents::signature_of))]
    pub fn publication(&self) -> Option<RecordView<'a>>
        ensures { option_map record_seen result ≡ (seen self.now).publication }
    {
        match first_inside::<SignatureContent>(&self.at, PUBLICATION) {
            Some(part) => Some(RecordView::new(&part)),
            None => None,
        }
    }
}
