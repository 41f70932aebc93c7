ghost use Rattle.std.specs.Prelude.{◌≡◌};
ghost use Rattle.ksi_verifier.specs.ChainChecks.{aggregated};

use crate::chains::check_chains;
use crate::refusal::Refusal;
use ksi_aggtree::chains::Node;
use ksi_imprint::Compress;
use ksi_signature::{AggregationChain, Signature};

/// What the aggregation chains of a signature come to.
#[derive(Clone, Copy, PartialEq, Eq)]
pub struct Aggregated {
    /// The second that each chain states.
    pub time: u64,
    /// The node that the chains lead to, from the first one's input hash at level 0.
    pub node: Node,
}

/// What the aggregation chains of a signature come to.
///
/// # Errors
/// The first of the checks V2 to V6 and V15 that fails.
pub fn aggregate<C: Compress>(signature: &Signature) -> Result<Aggregated, Refusal>
    ensures { result ≡ aggregated C.image signature.now }
{
    check_chains::<C, AggregationChain>(signature.chains.as_slice())
}
