ghost use Rattle.ksi_aggtree.specs.Rounds.{capped_join};

use crate::chains::Node;
use ksi_imprint::Compress;
use ksi_split::Joins;
use std::marker::PhantomData;

/// How two parts of a round are joined: one level above the greater of their levels.
pub(crate) struct AggregationJoin<C: Compress>(PhantomData<C>);

impl<C: Compress> Joins<Node> for AggregationJoin<C> {
    ghost joined = { capped_join C.image };

    fn join(left: &Node, right: &Node) -> Node {
        let level = left.level.max(right.level).saturating_add(1);
        let imprint = C::join(left.imprint.bytes(), right.imprint.bytes(), level);
        Node { imprint, level }
    }
}
