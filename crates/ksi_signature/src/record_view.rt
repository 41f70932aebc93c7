ghost use Rattle.std.specs.Prelude.{◌≡◌, Ok};
ghost use Rattle.ksi_tlv.specs.Views.{view_placed};
ghost use Rattle.ksi_tlv.specs.Containing.{inner_verdict};
ghost use Rattle.ksi_tlv.specs.Published.{record_table};

use crate::body_views::BodyViews;
use crate::kinds::{REFERENCE, REPOSITORY};
use crate::within::recorded_below;
use ksi_imprint::Imprint;
use ksi_tlv::Placed;

/// A publication record, lent from the bytes of its signature.
#[derive(Clone, Copy)]
pub struct RecordView<'a> {
    pub(crate) at: Placed<'a>,
    ghost accepted: { inner_verdict record_table (view_placed at) ≡ Ok tt },
}

impl<'a> RecordView<'a> {
    ghost use Rattle.std.specs.Prelude.{◌≡◌, ◌<◌, ◌^◌, Ok};
    ghost use Rattle.ksi_tlv.specs.Views.{view_placed};
    ghost use Rattle.ksi_tlv.specs.Containing.{inner_verdict};
    ghost use Rattle.ksi_tlv.specs.Published.{record_table};
    ghost use Rattle.ksi_signature.specs.Contents.{publishing_in};
    ghost use Rattle.ksi_signature.specs.PartsSeen.{record_seen};
    ghost use Rattle.ksi_signature.specs.BodiesLeft.{bodies_left};

    /// The record that an accepted element is.
    pub(crate) fn new(at: &Placed<'a>) -> Self
        requires { inner_verdict record_table (view_placed at.now) ≡ Ok tt }
        ensures { record_seen result ≡ publishing_in (view_placed at.now) }
    {
        RecordView { at: *at }
    }

    /// The published second.
    #[tactic(auto, unfolding(crate::specs::Contents::publishing_in))]
    pub fn time(&self) -> u64
        ensures value { result ≡ (record_seen self.now).time }
        ensures below { result < 2 ^ 63 }
    {
        let (time, _) = recorded_below(&self.at);
        time
    }

    /// The published root of the calendar tree to that second.
    #[tactic(auto, unfolding(crate::specs::Contents::publishing_in))]
    pub fn hash(&self) -> Imprint
        ensures { result ≡ (record_seen self.now).hash }
    {
        let (_, hash) = recorded_below(&self.at);
        hash
    }

    /// Where it was printed, each reference in turn.
    #[tactic(auto, unfolding(crate::specs::Contents::publishing_in))]
    pub fn references(&self) -> BodyViews<'a>
        ensures { bodies_left result ≡ (record_seen self.now).references }
    {
        BodyViews::new(&self.at, REFERENCE)
    }

    /// The addresses of repositories that have it, in turn.
    #[tactic(auto, unfolding(crate::specs::Contents::publishing_in))]
    pub fn repositories(&self) -> BodyViews<'a>
        ensures { bodies_left result ≡ (record_seen self.now).repositories }
    {
        BodyViews::new(&self.at, REPOSITORY)
    }
}
