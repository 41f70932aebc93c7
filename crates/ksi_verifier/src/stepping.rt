// The steps of a signature, found by their number.
ghost use Rattle.std.specs.Prelude.{◌≡◌, ◌<◌, ℕ, length, map, option_map, slice_get};
ghost use Rattle.ksi_aggtree.specs.Lent.{lent_links};
ghost use Rattle.ksi_aggtree.specs.Links.{side_text};
ghost use Rattle.ksi_verifier.specs.Lent.{calendar_of, lent_chain};
ghost use Rattle.ksi_verifier.specs.Steps.{calendar_steps, link_steps, step_seen, steps_from, steps_of_calendar};

use crate::CalendarPart;
use crate::step::Step;
use ksi_aggtree::chains::{ChainLink, HIGHEST_LEVEL, LinkView, Node, climb};
use ksi_calendar::{CalendarLink, climb_calendar};
use ksi_imprint::{Compress, Imprint};
use ksi_signature::ChainView;
use ksi_split::Side;

/// Step `number` of aggregation chains and the calendar chain above them, counted from 0, the lowest first; none if
/// there are no more links, or if a level passes 255.
pub fn find_step<'a, C: Compress>(
    chains: &[ChainView<'a>],
    calendar: &Option<CalendarPart<'a>>,
    number: usize,
) -> Option<Step<'a>>
    ensures { option_map step_seen result ≡
        slice_get (steps_from C.image 0 0 (map lent_chain chains.now) (option_map calendar_of calendar.now)) number }
{
    let mut rest = number;
    let mut level = 0;
    for (chain, view) in chains.iter().enumerate() {
        let start = Node {
            imprint: view.input(),
            level,
        };
        let links = view.links();
        let links = links.as_slice();
        if rest < links.len() {
            return step_along::<C>(chain, start, links, rest);
        }
        match view.climb::<C>(start) {
            Ok(top) => {
                level = top.level;
                rest -= links.len();
            }
            Err(_) => return None,
        }
    }
    step_of_calendar::<C>(calendar, rest)
}

/// The step of the link at a place of those that lead from a node; none where a level passes 255.
fn step_along<'a, C: Compress>(
    chain: usize,
    start: Node,
    links: &[LinkView<'a>],
    place: usize,
) -> Option<Step<'a>>
    requires { place < length links.now }
    ensures { option_map step_seen result ≡ slice_get (link_steps C.image chain 0 start (lent_links links.now)) place }
{
    let below = match climb::<C, LinkView<'_>>(start.imprint, start.level, &links[..place]) {
        Ok(below) => below,
        Err(_) => return None,
    };
    let link = &links[place];
    let level = below.level as u16 + link.correction() as u16 + 1;
    if level > HIGHEST_LEVEL as u16 {
        return None;
    }
    let level = level as u8;
    Some(Step {
        calendar: false,
        chain,
        place,
        side: link.side,
        level,
        node: below.imprint,
        sibling: link.sibling,
        raw: link.raw,
        join: join_beside::<C>(link.side, &below.imprint, link.sibling, level),
    })
}

/// The step of the calendar chain's link at a place; none where there is none.
fn step_of_calendar<'a, C: Compress>(
    calendar: &Option<CalendarPart<'a>>,
    place: usize,
) -> Option<Step<'a>>
    ensures { option_map step_seen result ≡ slice_get (steps_of_calendar C.image (option_map calendar_of calendar.now)) place }
{
    match calendar {
        Some(calendar) => calendar_step::<C>(calendar.input, calendar.links, place),
        None => None,
    }
}

fn calendar_step<'a, C: Compress>(
    input: Imprint,
    links: &'a [CalendarLink],
    place: usize,
) -> Option<Step<'a>>
    ensures { option_map step_seen result ≡ slice_get (calendar_steps C.image 0 input links.now) place }
{
    if place >= links.len() {
        return None;
    }
    let node = climb_calendar::<C>(input, &links[..place]);
    let link = &links[place];
    Some(Step {
        calendar: true,
        chain: 0,
        place,
        side: link.side,
        level: 0xff,
        node,
        sibling: link.sibling.bytes(),
        raw: false,
        join: join_beside::<C>(link.side, &node, link.sibling.bytes(), 0xff),
    })
}

/// The join of a node and what is beside it, the node on the side that is given.
fn join_beside<C: Compress>(side: Side, node: &Imprint, sibling: &[u8], level: u8) -> Imprint
    ensures { result ≡ C.image (side_text side node.now sibling.now level) }
{
    match side {
        Side::Left => C::join(node.bytes(), sibling, level),
        Side::Right => C::join(sibling, node.bytes(), level),
    }
}
