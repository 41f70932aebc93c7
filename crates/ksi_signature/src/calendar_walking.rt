//! Walks over the elements of an accepted calendar chain.

ghost use Rattle.std.specs.Prelude.{◌≡◌, Ok};
ghost use Rattle.ksi_tlv.specs.Views.{view_placed};
ghost use Rattle.ksi_tlv.specs.Containing.{inner_verdict};
ghost use Rattle.ksi_tlv.specs.Valid.{MayStand};
ghost use Rattle.ksi_tlv.specs.Inside.{inner_elements};
ghost use Rattle.ksi_signature.specs.Tables.{calendar_table};
ghost use Rattle.ksi_signature.specs.Contents.{calendar_in, calendar_links_among};
ghost use Rattle.ksi_signature.specs.Heads.{SaysCalendar, calendar_with};
ghost use Rattle.ksi_signature.specs.HeadViews.{view_calendar_head};

use crate::calendar_link_views::CalendarLinkViews;
use crate::contents::{imprint_of, is_link, side_of, time_of};
use crate::head::CalendarHead;
use crate::kinds::{AGGREGATION_TIME, INPUT_HASH, PUBLICATION_TIME};
use crate::within::calendar_is_limited;
use ksi_calendar::CalendarLink;
use ksi_tlv::grammar::laws::inside_is_whole;
use ksi_tlv::{Elements, Placed};

/// All of an accepted calendar chain but its links.
pub(crate) fn calendar_head_in<'a>(at: &Placed<'a>) -> CalendarHead<'a>
    requires { inner_verdict calendar_table (view_placed at.now) ≡ Ok tt }
    ensures { SaysCalendar (view_calendar_head result) (calendar_in (view_placed at.now)) }
{
    inside_is_whole();
    let mut head = CalendarHead {
        publication: 0,
        time: None,
        input: &[],
    };
    let mut elements = Elements::at(at.inside, at.element.body);
    while let Some(item) = elements.next() {
        if let Ok(part) = item {
            head.put(&part);
        }
    }
    head
}

impl<'a> CalendarHead<'a> {
    /// Takes what one element says.
    fn put(&mut self, part: &Placed<'a>)
        requires { MayStand calendar_table (view_placed part.now) }
        ensures { view_calendar_head self.new ≡ calendar_with (view_calendar_head self.old) (view_placed part.now) }
    {
        match part.element.kind {
            PUBLICATION_TIME => self.publication = time_of(part),
            AGGREGATION_TIME => self.time = Some(time_of(part)),
            INPUT_HASH => self.input = part.element.body,
            _ => (),
        }
    }
}

/// The links of an accepted calendar chain.
#[tactic(auto, unfolding(crate::specs::Contents::calendar_in))]
pub(crate) fn calendar_links_in(at: &Placed<'_>) -> CalendarLinkViews
    requires { inner_verdict calendar_table (view_placed at.now) ≡ Ok tt }
    ensures { result ≡ calendar_links_among (inner_elements (view_placed at.now)) }
{
    inside_is_whole();
    calendar_is_limited(at);
    let mut links = CalendarLinkViews::new();
    let mut elements = Elements::at(at.inside, at.element.body);
    while let Some(item) = elements.next() {
        if let Ok(part) = item {
            if is_link(&part) {
                links.push(CalendarLink {
                    side: side_of(&part),
                    sibling: imprint_of(&part),
                });
            }
        }
    }
    links
}
