ghost use Rattle.std.specs.Prelude.{◌≡◌, ℕ};
ghost use Rattle.ksi_split.specs.Trees.{climb_links};
ghost use Rattle.ksi_calendar.specs.Climbing.{ClimbsCalendar, calendar_join, calendar_element_text};

use crate::link::CalendarLink;
use ksi_imprint::{Compress, Imprint};
use ksi_split::Side;

/// The imprint that links lead to, the lowest first. Each join has the level byte 0xff.
pub fn climb_calendar<C: Compress>(start: Imprint, links: &[CalendarLink]) -> Imprint
    ensures climbs { ClimbsCalendar C.image start links.now result }
    ensures value { result ≡ climb_links (calendar_join C.image) start links.now }
{
    let mut imprint = start;
    for link in links {
        imprint = join_beside::<C>(&imprint, link);
    }
    imprint
}

/// The join of a node and its sibling, the node on the side that the link says.
fn join_beside<C: Compress>(node: &Imprint, link: &CalendarLink) -> Imprint
    ensures { result ≡ C.image (calendar_element_text node.now link.now) }
{
    match link.side {
        Side::Left => C::join(node.bytes(), link.sibling.bytes(), 0xff),
        Side::Right => C::join(link.sibling.bytes(), node.bytes(), 0xff),
    }
}
