//! What a run asks: the desk of a frame, of the browser and of a reader.
//!
//! A desk keeps the list of its answered calls with their lines. Each call that gives a line appends itself with that
//! line, and no other call changes the list. A desk is short once a call of it had no memory.

use crate::{BrowserOp, FrameOp, Line, Query};
use ax_base::{NoMemory, Token, TreeId};
use std::sync::Wait;

/// The desk of a frame, which stands for one tree.
pub trait FrameDesk {
    ghost use Rattle.std.specs.Prelude.{◌≡◌, ◌∷◌, ◌++◌, ◌||◌, [], ℕ, Bool, List, IfOk, OnErr, is_err};
    ghost use Rattle.ax_ask.specs.declared.op.FrameOp.{FrameOp};
    ghost use Rattle.ax_ask.specs.declared.line.Line.{Line};
    ghost use Rattle.ax_ask.specs.Calls.{IsLeafOp};

    ghost tree: { Self → ℕ };

    ghost calls: { Self → List (FrameOp × Line) };

    ghost short: { Self → Bool };

    /// Does the operation, and tells what became of it.
    fn op<R: Wait>(&mut self, rt: &R, op: &FrameOp) -> Result<Line, NoMemory>
        requires { IsLeafOp op.now }
        ensures tree { tree self.new ≡ tree self.old }
        ensures line { IfOk result (λ line. calls self.new ≡ calls self.old ++ (op.now, line) ∷ []) }
        ensures memory { OnErr result (calls self.new ≡ calls self.old) }
        ensures short { short self.new ≡ (short self.old || is_err result) };
}

/// The desk of the browser, which stands for a list of trees.
pub trait BrowserDesk {
    ghost use Rattle.std.specs.Prelude.{◌≡◌, ◌∷◌, ◌++◌, ◌||◌, ◌≤◌, [], ℕ, Bool, List, IfOk, OnErr, MatchOption, Contains, is_err};
    ghost use Rattle.ax_ask.specs.declared.line.Line.{Line};
    ghost use Rattle.ax_ask.specs.Calls.{BrowserCall, Receive, Do, Deliver, Rose, tree_of};

    ghost trees: { Self → List ℕ };

    ghost calls: { Self → List (BrowserCall × Line) };

    ghost lulls: { Self → ℕ };

    ghost short: { Self → Bool };

    /// Receives the oldest packet that waits. None came only where `lulls` rose.
    fn receive<R: Wait>(&mut self, rt: &R) -> Result<Option<Line>, NoMemory>
        ensures trees { trees self.new ≡ trees self.old }
        ensures line { IfOk result (λ o. MatchOption o ((calls self.new ≡ calls self.old) × Rose (lulls self.old) (lulls self.new)) (λ line. calls self.new ≡ calls self.old ++ (Receive, line) ∷ [])) }
        ensures memory { OnErr result (calls self.new ≡ calls self.old) }
        ensures lulls { lulls self.old ≤ lulls self.new }
        ensures short { short self.new ≡ (short self.old || is_err result) };

    /// Does the operation, and tells what became of it.
    fn op<R: Wait>(&mut self, rt: &R, op: &BrowserOp) -> Result<Line, NoMemory>
        requires { Contains (trees self.old) (tree_of op.now) }
        ensures trees { trees self.new ≡ trees self.old }
        ensures line { IfOk result (λ line. calls self.new ≡ calls self.old ++ (Do op.now, line) ∷ []) }
        ensures memory { OnErr result (calls self.new ≡ calls self.old) }
        ensures lulls { lulls self.old ≤ lulls self.new }
        ensures short { short self.new ≡ (short self.old || is_err result) };

    /// Tells the tree's frame the token.
    fn deliver<R: Wait>(&mut self, rt: &R, t: TreeId, n: Token) -> Result<Line, NoMemory>
        requires { Contains (trees self.old) t }
        ensures trees { trees self.new ≡ trees self.old }
        ensures line { IfOk result (λ line. calls self.new ≡ calls self.old ++ (Deliver t n.0, line) ∷ []) }
        ensures memory { OnErr result (calls self.new ≡ calls self.old) }
        ensures lulls { lulls self.old ≤ lulls self.new }
        ensures short { short self.new ≡ (short self.old || is_err result) };
}

/// The desk of a reader, which has a number.
pub trait ReaderDesk {
    ghost use Rattle.std.specs.Prelude.{◌≡◌, ◌∷◌, ◌++◌, ◌||◌, ◌≤◌, [], ℕ, Bool, List, Option, Some, IsSome, IfSome, IfOk, OnErr, is_err};
    ghost use Rattle.ax_ask.specs.declared.query.Query.{Query};
    ghost use Rattle.ax_ask.specs.declared.line.Line.{Line};
    ghost use Rattle.ax_ask.specs.Calls.{Rose};

    ghost number: { Self → ℕ };

    /// What the last look gave.
    ghost seen: { Self → Option ℕ };

    /// Each query with the number that the last look before it gave.
    ghost calls: { Self → List (Query × Option ℕ × Line) };

    ghost looks: { Self → ℕ };

    ghost short: { Self → Bool };

    /// Looks at the forest, and gives how many packets were received. It gives a number only where `looks` rose.
    fn look<R: Wait>(&mut self, rt: &R) -> Result<u64, NoMemory>
        ensures number { number self.new ≡ number self.old }
        ensures seen { IfOk result (λ n. (seen self.new ≡ Some n) × Rose (looks self.old) (looks self.new)) }
        ensures memory { OnErr result (seen self.new ≡ seen self.old) }
        ensures calls { calls self.new ≡ calls self.old }
        ensures looks { looks self.old ≤ looks self.new }
        ensures short { short self.new ≡ (short self.old || is_err result) };

    /// Answers the query, by what the last look saw.
    fn ask(&mut self, q: &Query) -> Result<Line, NoMemory>
        requires { IsSome (seen self.old) }
        ensures number { number self.new ≡ number self.old }
        ensures seen { seen self.new ≡ seen self.old }
        ensures line { IfOk result (λ line. calls self.new ≡ calls self.old ++ (q.now, seen self.old, line) ∷ []) }
        ensures memory { OnErr result (calls self.new ≡ calls self.old) }
        ensures looks { looks self.old ≤ looks self.new }
        ensures short { short self.new ≡ (short self.old || is_err result) };
}
