//! SHA-256 (FIPS 180-4) of a message that comes in pieces, in a state that C may hold. After the kit's `sha2`, whose
//! definitions it cites: only the state is another, since that one's has no layout for C.
mod block256;
mod consts;

ghost use Rattle.std.specs.Prelude.{◌≡◌, ◌++◌, ℕ, List, []};
ghost use Rattle.sha2.specs.Sha256.{initial_hash_256, sha256};
ghost use Rattle.ksi_imprint.specs.Held.{Holds};

pub use crate::stream::block256::Core256;
use crate::stream::consts::H256_256;

/// A state of no bytes.
pub fn start() -> Core256
    ensures { Holds initial_hash_256 result [] }
{
    Core256::new(H256_256)
}

/// Takes in a piece.
pub fn more(state: &mut Core256, bytes: &[u8])
    ensures { (message : List ℕ) → Holds initial_hash_256 state.old message → Holds initial_hash_256 state.new (message ++ bytes.now) }
{
    state.update(bytes);
}

/// The digest of all pieces.
#[tactic(auto, unfolding(sha2::specs::Sha256::sha256))]
pub fn end(state: &Core256) -> [u8; 32]
    ensures { (message : List ℕ) → Holds initial_hash_256 state.now message → result ≡ sha256 message }
{
    let state = *state;
    state.finalize()
}
