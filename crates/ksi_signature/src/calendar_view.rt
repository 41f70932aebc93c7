ghost use Rattle.std.specs.Prelude.{◌≡◌, Ok};
ghost use Rattle.ksi_tlv.specs.Views.{view_placed};
ghost use Rattle.ksi_tlv.specs.Containing.{inner_verdict};
ghost use Rattle.ksi_signature.specs.Tables.{calendar_table};
ghost use Rattle.ksi_signature.specs.Contents.{calendar_in};

use crate::calendar_climbing::{climb_calendar_in, second_in};
use crate::calendar_link_views::CalendarLinkViews;
use crate::calendar_walking::{calendar_head_in, calendar_links_in};
use crate::within::{calendar_is_limited, imprint_in_calendar};
use ksi_imprint::{Compress, Imprint};
use ksi_split::ShapeFault;
use ksi_tlv::Placed;

/// A calendar chain, lent from the bytes of its signature.
#[derive(Clone, Copy)]
pub struct CalendarView<'a> {
    at: Placed<'a>,
    publication: u64,
    time: u64,
    input: &'a [u8],
    ghost accepted: { inner_verdict calendar_table (view_placed at) ≡ Ok tt },
    ghost publication_is: { publication ≡ (calendar_in (view_placed at)).publication },
    ghost time_is: { time ≡ (calendar_in (view_placed at)).time },
    ghost input_is: { input.now ≡ (calendar_in (view_placed at)).input },
}

impl<'a> CalendarView<'a> {
    ghost use Rattle.std.specs.Prelude.{◌≡◌, ◌<◌, ◌≤◌, ◌^◌, Ok, length};
    ghost use Rattle.ksi_split.specs.Parts.{second_at};
    ghost use Rattle.ksi_split.specs.Trees.{climb_links};
    ghost use Rattle.ksi_calendar.specs.Climbing.{calendar_join};
    ghost use Rattle.ksi_calendar.specs.Sides.{sides_from_top};
    ghost use Rattle.ksi_tlv.specs.Views.{view_placed};
    ghost use Rattle.ksi_tlv.specs.Containing.{inner_verdict};
    ghost use Rattle.ksi_signature.specs.Tables.{calendar_table};
    ghost use Rattle.ksi_signature.specs.Contents.{calendar_in};
    ghost use Rattle.ksi_signature.specs.PartsSeen.{calendar_seen};

    /// The chain that an accepted element is.
    pub(crate) fn new(at: &Placed<'a>) -> Self
        requires { inner_verdict calendar_table (view_placed at.now) ≡ Ok tt }
        ensures { calendar_seen result ≡ calendar_in (view_placed at.now) }
    {
        let head = calendar_head_in(at);
        let time = match head.time {
            Some(time) => time,
            None => head.publication,
        };
        CalendarView {
            at: *at,
            publication: head.publication,
            time,
            input: head.input,
        }
    }

    /// The last second of the tree that the links lead to the root of.
    pub fn publication(&self) -> u64
        ensures value { result ≡ (calendar_seen self.now).publication }
        ensures below { result < 2 ^ 63 }
    {
        calendar_is_limited(&self.at);
        self.publication
    }

    /// The second that the links lead from.
    pub fn time(&self) -> u64
        ensures value { result ≡ (calendar_seen self.now).time }
        ensures below { result < 2 ^ 63 }
    {
        calendar_is_limited(&self.at);
        self.time
    }

    /// What is stated as the root of that second.
    pub fn input(&self) -> Imprint
        ensures { result ≡ (calendar_seen self.now).input }
    {
        imprint_in_calendar(&self.at, self.input)
    }

    /// The links, the lowest first, copied into an array. It stays a call, so that what it copies through leaves the stack.
    #[inline(never)]
    #[tactic(auto, unfolding(crate::specs::Contents::calendar_in))]
    pub fn links(&self) -> CalendarLinkViews
        ensures links { result ≡ (calendar_seen self.now).links }
        ensures count { length result ≤ 63 }
    {
        calendar_is_limited(&self.at);
        calendar_links_in(&self.at)
    }

    /// The second that the links' sides name among those from 0 to the publication time.
    ///
    /// # Errors
    /// As [`ksi_calendar::second`] has them.
    #[tactic(auto, unfolding(crate::specs::Contents::calendar_in))]
    pub fn second(&self) -> Result<u64, ShapeFault>
        ensures { result ≡ second_at (calendar_seen self.now).publication (sides_from_top (calendar_seen self.now).links) }
    {
        second_in(&self.at, self.publication)
    }

    /// The imprint that the links lead to from the input hash. None of them is copied into an array.
    #[tactic(auto, unfolding(crate::specs::Contents::calendar_in))]
    pub fn climb<C: Compress>(&self) -> Imprint
        ensures { result ≡ climb_links (calendar_join C.image) (calendar_seen self.now).input (calendar_seen self.now).links }
    {
        climb_calendar_in::<C>(&self.at, self.input())
    }
}
