use ksi_journal::JournalFault;

/// Why bytes are no mirror: the faults of a journal's file, J1 to J3 and J5 to J9. J4 and J10 never come, by the law
/// [`no_tree_and_no_voters`](crate::laws::no_tree_and_no_voters): no tree of a mirror is computed, and it has no voters.
pub type MirrorFault = JournalFault;
