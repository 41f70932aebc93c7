//! A plan that ends at a second: no root of a later second is ever held, if a majority of its voters retired.
//!
//! A core retires at a second if, at some moment, it has cast no vote on a later second, and from then on no event asks it about
//! one (`specs/Retired`). A core that never gets an event about a later second is one of these. So is a core whose file has no
//! fact of a later second at the moment from which its host gives it no event about one ([`laws::cores_retire`]).
//!
//! The layers above may rely on this. A root is held for a second only if more than half of its voters cast a vote in one ballot,
//! and any two majorities share a voter. So once a majority of a second's voters retired before it, no core holds a root for it,
//! whatever the other cores do and whichever messages are delivered ([`laws::a_retired_majority_decides_nothing`]). It holds over
//! histories, and over nodes that crash and forget. That a host keeps to it is not proved here. Nothing here runs.
#![tactic(auto)]

pub mod laws;
