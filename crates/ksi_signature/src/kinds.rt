//! The kinds of the elements of a signature.

pub(crate) const SIGNATURE: u16 = 0x800;

// Of a signature.

pub(crate) const CHAIN: u16 = 0x801;

pub(crate) const CALENDAR: u16 = 0x802;

pub(crate) const PUBLICATION: u16 = 0x803;

// Of a chain of either sort. The aggregation time is that of the calendar chain too.

pub(crate) const PUBLICATION_TIME: u16 = 0x01;

pub(crate) const AGGREGATION_TIME: u16 = 0x02;

pub(crate) const INDEX_PART: u16 = 0x03;

pub(crate) const INPUT_DATA: u16 = 0x04;

pub(crate) const INPUT_HASH: u16 = 0x05;

pub(crate) const ALGORITHM: u16 = 0x06;

pub(crate) const LEFT_LINK: u16 = 0x07;

pub(crate) const RIGHT_LINK: u16 = 0x08;

// Of a link of an aggregation chain.

pub(crate) const CORRECTION: u16 = 0x01;

pub(crate) const IMPRINT: u16 = 0x02;

pub(crate) const LEGACY: u16 = 0x03;

pub(crate) const METADATA: u16 = 0x04;

// Of a publication record.

pub(crate) const REFERENCE: u16 = 0x09;

pub(crate) const REPOSITORY: u16 = 0x0a;

pub(crate) const PUBLISHED: u16 = 0x10;
