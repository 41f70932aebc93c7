use ksi_imprint::Imprint;
use ksi_split::TreeLink;

/// A link of a calendar hash chain: the side of the node in its join, and the imprint of the other part.
pub type CalendarLink = TreeLink<Imprint>;
