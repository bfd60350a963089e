//! Why a call at a tree was refused.
ghost use Rattle.std.specs.Prelude.{◌≡◌, IfErr};
ghost use Rattle.ax_forest.specs.Fates.{IsNoRefusal};
ghost use Rattle.ax_hub.specs.BrowserCalls.{forest_err, in_forest};

use ax_base::TreeId;
use ax_forest::ForestErr;
use thiserror::Error;

/// Why a call of the browser's seat was refused.
#[derive(Clone, Copy, Debug, PartialEq, Eq, Error)]
pub enum HubErr {
    #[error("no tree has the id {}", .0.get())]
    NoTree(TreeId),
    #[error("the tree {} had ended", .0.get())]
    AlreadyGone(TreeId),
    #[error("no memory")]
    NoMemory,
}

fn hub_err(e: ForestErr) -> HubErr
    requires { IsNoRefusal e }
    ensures { forest_err result ≡ e }
{
    match e {
        ForestErr::NoTree(t) => HubErr::NoTree(t),
        ForestErr::AlreadyGone(t) => HubErr::AlreadyGone(t),
        ForestErr::NoMemory => HubErr::NoMemory,
        ForestErr::Refused(_) => unreachable!(),
    }
}

/// The same answer by the hub's names. Only a packet is refused for its bundle.
pub(crate) fn named<A>(answer: Result<A, ForestErr>) -> Result<A, HubErr>
    requires { IfErr answer IsNoRefusal }
    ensures { in_forest result ≡ answer }
{
    match answer {
        Ok(a) => Ok(a),
        Err(e) => Err(hub_err(e)),
    }
}
