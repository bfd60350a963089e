//! The words of operations, queries, actions and affinities: how scripts name them, and how lines print them.
ghost use Rattle.std.specs.Prelude.{◌≡◌, find, bytes_eq};
ghost use Rattle.ax_ask.specs.Words.{affinity_name, affinity_named, browser_op_name, browser_op_named, do_name, do_named, frame_op_name, frame_op_named, op_name, query_name, query_named};

use crate::{BrowserOpName, DoName, FrameOpName, OpName, QueryName};
use ax_attrs::Version;
use ax_base::Affinity;

const FRAME_OPS: [FrameOpName; 9] = [
    FrameOpName::Edit(OpName::Root),
    FrameOpName::Edit(OpName::Insert),
    FrameOpName::Edit(OpName::Remove),
    FrameOpName::Edit(OpName::Move),
    FrameOpName::Edit(OpName::Set),
    FrameOpName::Data,
    FrameOpName::Touch,
    FrameOpName::TouchBelow,
    FrameOpName::Pass,
];

const BROWSER_OPS: [BrowserOpName; 3] = [
    BrowserOpName::Ask,
    BrowserOpName::Destroy,
    BrowserOpName::Probe,
];

/// The queries of version 1.
const OLD_QUERIES: [QueryName; 13] = [
    QueryName::Node,
    QueryName::Parent,
    QueryName::Children,
    QueryName::Next,
    QueryName::Prev,
    QueryName::Hit,
    QueryName::Focus,
    QueryName::Offset,
    QueryName::Leaf,
    QueryName::Up,
    QueryName::Compare,
    QueryName::Text,
    QueryName::Move,
];

/// The queries of version 2, which added the last six.
const QUERIES: [QueryName; 19] = [
    QueryName::Node,
    QueryName::Parent,
    QueryName::Children,
    QueryName::Next,
    QueryName::Prev,
    QueryName::Hit,
    QueryName::Focus,
    QueryName::Offset,
    QueryName::Leaf,
    QueryName::Up,
    QueryName::Compare,
    QueryName::Text,
    QueryName::Move,
    QueryName::Bounds,
    QueryName::UParent,
    QueryName::UChildren,
    QueryName::UNext,
    QueryName::UPrev,
    QueryName::UText,
];

const AFFINITIES: [Affinity; 2] = [Affinity::Up, Affinity::Down];

const ACTIONS: [DoName; 3] = [DoName::Focus, DoName::SetValue, DoName::Scroll];

/// What has a word.
trait Named: Copy {
    ghost use Rattle.std.specs.Prelude.{◌≡◌, ℕ, List};

    ghost word: { Self → List ℕ };

    fn word(self) -> &'static str
        ensures { result.now ≡ word self };
}

/// The first of the things that has the word.
fn first_named<T: Named>(things: &[T], word: &str) -> Option<T>
    ensures { result ≡ find (λ x. bytes_eq (T.word x) word.now) things.now }
{
    for thing in things {
        if thing.word() == word {
            return Some(*thing);
        }
    }
    None
}

impl OpName {
    /// The edit's word.
    pub fn name(self) -> &'static str
        ensures { result.now ≡ op_name self }
    {
        match self {
            OpName::Root => "root",
            OpName::Insert => "insert",
            OpName::Remove => "remove",
            OpName::Move => "move",
            OpName::Set => "set",
        }
    }
}

impl FrameOpName {
    /// The operation's word.
    pub fn name(self) -> &'static str
        ensures { result.now ≡ frame_op_name self }
    {
        match self {
            FrameOpName::Edit(edit) => edit.name(),
            FrameOpName::Data => "data",
            FrameOpName::Touch => "touch",
            FrameOpName::TouchBelow => "touch_below",
            FrameOpName::Pass => "pass",
        }
    }

    /// The operation of this word.
    #[tactic(auto, unfolding(crate::specs::Words::frame_op_named))]
    pub fn named(word: &str) -> Option<FrameOpName>
        ensures { result ≡ frame_op_named word.now }
    {
        first_named(&FRAME_OPS, word)
    }
}

impl BrowserOpName {
    /// The operation's word.
    pub fn name(self) -> &'static str
        ensures { result.now ≡ browser_op_name self }
    {
        match self {
            BrowserOpName::Ask => "ask",
            BrowserOpName::Destroy => "destroy",
            BrowserOpName::Probe => "probe",
        }
    }

    /// The operation of this word.
    #[tactic(auto, unfolding(crate::specs::Words::browser_op_named))]
    pub fn named(word: &str) -> Option<BrowserOpName>
        ensures { result ≡ browser_op_named word.now }
    {
        first_named(&BROWSER_OPS, word)
    }
}

impl DoName {
    /// The action's word.
    pub fn name(self) -> &'static str
        ensures { result.now ≡ do_name self }
    {
        match self {
            DoName::Focus => "focus",
            DoName::SetValue => "set_value",
            DoName::Scroll => "scroll",
        }
    }

    /// The action of this word.
    #[tactic(auto, unfolding(crate::specs::Words::do_named))]
    pub fn named(word: &str) -> Option<DoName>
        ensures { result ≡ do_named word.now }
    {
        first_named(&ACTIONS, word)
    }
}

impl QueryName {
    /// The query's word.
    pub fn name(self) -> &'static str
        ensures { result.now ≡ query_name self }
    {
        match self {
            QueryName::Node => "node",
            QueryName::Parent => "parent",
            QueryName::Children => "children",
            QueryName::Next => "next",
            QueryName::Prev => "prev",
            QueryName::Bounds => "bounds",
            QueryName::UParent => "u_parent",
            QueryName::UChildren => "u_children",
            QueryName::UNext => "u_next",
            QueryName::UPrev => "u_prev",
            QueryName::UText => "u_text",
            QueryName::Hit => "hit",
            QueryName::Focus => "focus",
            QueryName::Offset => "offset",
            QueryName::Leaf => "leaf",
            QueryName::Up => "up",
            QueryName::Compare => "compare",
            QueryName::Text => "text",
            QueryName::Move => "move",
        }
    }

    /// The version's query of this word.
    #[tactic(auto, unfolding(crate::specs::Words::query_named))]
    pub fn named(version: Version, word: &str) -> Option<QueryName>
        ensures { result ≡ query_named version word.now }
    {
        match version {
            Version::One => first_named(&OLD_QUERIES, word),
            Version::Two => first_named(&QUERIES, word),
        }
    }
}

/// The affinity's word.
pub fn affinity_name(affinity: Affinity) -> &'static str
    ensures { result.now ≡ affinity_name affinity }
{
    match affinity {
        Affinity::Up => "up",
        Affinity::Down => "down",
    }
}

/// The affinity of this word.
#[tactic(auto, unfolding(crate::specs::Words::affinity_named))]
pub fn affinity_named(word: &str) -> Option<Affinity>
    ensures { result ≡ affinity_named word.now }
{
    first_named(&AFFINITIES, word)
}

impl Named for FrameOpName {
    ghost word = { frame_op_name };

    fn word(self) -> &'static str {
        self.name()
    }
}

impl Named for BrowserOpName {
    ghost word = { browser_op_name };

    fn word(self) -> &'static str {
        self.name()
    }
}

impl Named for DoName {
    ghost word = { do_name };

    fn word(self) -> &'static str {
        self.name()
    }
}

impl Named for QueryName {
    ghost word = { query_name };

    fn word(self) -> &'static str {
        self.name()
    }
}

impl Named for Affinity {
    ghost word = { affinity_name };

    fn word(self) -> &'static str {
        affinity_name(self)
    }
}
