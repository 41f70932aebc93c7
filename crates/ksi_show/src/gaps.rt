use ksi_journal::Second;

/// What kept seconds come to.
#[derive(Clone, Copy)]
pub(crate) struct Gaps {
    pub(crate) kept: u64,
    /// How many have the root of zeros.
    pub(crate) missed: u64,
    pub(crate) items: u64,
    pub(crate) first: u64,
    pub(crate) last: u64,
    /// How many are not kept between the start and the last.
    pub(crate) lacking: u64,
    /// The first of these.
    pub(crate) hole: Option<u64>,
}

/// Of seconds that rise from a start on.
pub(crate) fn gaps_of(start: u64, seconds: &[Second]) -> Gaps {
    let mut gaps = Gaps {
        kept: seconds.len() as u64,
        missed: 0,
        items: 0,
        first: match seconds.first() {
            Some(first) => first.second,
            None => start,
        },
        last: start,
        lacking: 0,
        hole: None,
    };
    let mut next = start;
    for second in seconds {
        gaps = with_second(gaps, next, second);
        next = second.second.saturating_add(1);
    }
    gaps
}

/// With one second more, where `next` is the one behind those before it.
fn with_second(gaps: Gaps, next: u64, second: &Second) -> Gaps {
    let lacking = second.second.saturating_sub(next);
    let missed = if second.root.is_zero() { 1 } else { 0 };
    Gaps {
        kept: gaps.kept,
        missed: gaps.missed.saturating_add(missed),
        items: gaps
            .items
            .saturating_add(second.items.as_slice().len() as u64),
        first: gaps.first,
        last: second.second,
        lacking: gaps.lacking.saturating_add(lacking),
        hole: first_hole(gaps.hole, next, lacking),
    }
}

fn first_hole(hole: Option<u64>, next: u64, lacking: u64) -> Option<u64> {
    match hole {
        Some(hole) => Some(hole),
        None => { if lacking > 0 { Some(next) } else { None } }
    }
}
