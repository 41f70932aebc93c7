// Which seconds the other part of a link of a calendar chain stands for.
use ksi_calendar::CalendarLink;
use ksi_split::{Side, split};

/// Seconds from the first to the last.
#[derive(Clone, Copy)]
pub(crate) struct Span {
    pub(crate) first: u64,
    pub(crate) last: u64,
}

/// The seconds beside the lowest of links to a root, as their sides from the top name them; none where they name no part.
pub(crate) fn span_beside(publication: u64, links: &[CalendarLink]) -> Option<Span> {
    let mut part = Span {
        first: 0,
        last: publication,
    };
    let mut other = None;
    for link in links.iter().rev() {
        let (below, beside) = cut(part, link.side)?;
        part = below;
        other = Some(beside);
    }
    other
}

/// The part on a side of a part, and the other one; none of one second.
fn cut(part: Span, side: Side) -> Option<(Span, Span)> {
    let count = part.last.checked_sub(part.first)?.checked_add(1)?;
    if count < 2 {
        return None;
    }
    let at = part.first.checked_add(split(count))?;
    let lower = Span {
        first: part.first,
        last: at.saturating_sub(1),
    };
    let upper = Span {
        first: at,
        last: part.last,
    };
    Some(match side {
        Side::Left => (lower, upper),
        Side::Right => (upper, lower),
    })
}
