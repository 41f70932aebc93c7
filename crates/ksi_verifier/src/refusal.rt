use crate::difference::RecordDifference;
use ksi_imprint::Imprint;
use ksi_split::ShapeFault;

/// The first check that a signature fails, with its values. Chains, links and index parts are counted from 0, chains and
/// links from the lowest.
#[derive(Clone, Copy, PartialEq, Eq, Debug)]
pub enum Refusal {
    /// V1: the first chain's input hash is not the given one.
    WrongHash {
        in_signature: Imprint,
        given: Imprint,
    },
    /// V2: the index of the chain above this one is not this one's without its last part. At the first place where they
    /// differ, the part that this one's has and the part that the other one's has: none where it has ended.
    IndexOrder {
        chain: u64,
        place: u64,
        lower: Option<u64>,
        higher: Option<u64>,
    },
    /// V3: the last index part of a chain is not its shape.
    IndexShape {
        chain: u64,
        part: u64,
        shape: u64,
    },
    /// V4: the level of a link passes 255.
    Level {
        chain: u64,
        link: u64,
        level: u16,
    },
    /// V5: a chain's input hash is not what the chain below it leads to.
    ChainBreak {
        chain: u64,
        computed: Imprint,
        stated: Imprint,
    },
    /// V6: a chain's aggregation time is not the first chain's.
    AggregationTimes {
        chain: u64,
        first: u64,
        this: u64,
    },
    /// V15, which stands behind V6: the raw sibling of a right link begins with 0x01, as an imprint does.
    BareMetadata {
        chain: u64,
        link: u64,
    },
    /// V7: there is no calendar chain.
    NoCalendar,
    /// V8: the calendar chain's input hash is not what the last chain leads to.
    CalendarInput {
        computed: Imprint,
        stated: Imprint,
    },
    /// V9: that input hash is the zero imprint.
    MissedSecond,
    /// V10: the sides of the calendar links name no second.
    CalendarShape(ShapeFault),
    /// V11: the calendar chain's time, or else the first chain's, is not the second that the sides name.
    TimeField {
        field: u64,
        second: u64,
    },
    /// V12: the publication record is not of the calendar chain's publication time and root.
    RecordDiffers(RecordDifference),
    /// V13: the publications file has no record of the publication time.
    NoPublication {
        time: u64,
    },
    /// V14: the first record of the publication time has another hash than the root.
    PublicationDiffers {
        time: u64,
        in_file: Imprint,
        computed: Imprint,
    },
}
