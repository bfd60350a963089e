//! How deep a tree hangs.
ghost use Rattle.std.specs.Prelude.{◌≡◌};
ghost use Rattle.ax_stitch.specs.Levels.{levels_below, AreFormed};

use ax_base::TreeId;
use ax_tree::Grove;

/// How many trees may hang in one another.
pub const LEVELS: usize = 8;

/// How many levels of trees are shown below a tree, where `levels` are shown from it on at most; none where it doesn't
/// hang, by that many trees, in the first one.
#[tactic(auto, using(crate::proofs::Sound::sound_formed))]
pub fn levels_below<G: Grove>(g: &G, t: TreeId, levels: usize) -> Option<usize>
    ensures level { result ≡ levels_below levels (G.forest g.now) t }
    ensures formed { AreFormed levels (G.forest g.now) t }
{
    if levels == 0 {
        return None;
    }
    // Asked for what it says: the forest is sound.
    let _ = g.tree(t);
    match g.host_of(t) {
        Some(host) => levels_below(g, host.tree, levels - 1),
        None => {
            if t == g.first() {
                Some(levels - 1)
            } else {
                None
            }
        }
    }
}
