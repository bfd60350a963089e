//! Rows and tables.
/// What the values of an attribute are.
#[derive(Clone, Copy, Debug, PartialEq, Eq)]
pub enum Kind {
    /// A text.
    Text,
    /// An `i32`.
    Int,
    /// True or false.
    Flag,
    /// The id of a node of the same tree.
    Node,
    /// The id of a tree.
    Tree,
}

/// Which change of a state makes its event.
#[derive(Clone, Copy, Debug, PartialEq, Eq)]
pub enum When {
    /// The node gets the state.
    Gained,
    /// The node gets the state or loses it.
    Either,
    /// The node loses the state.
    Lost,
}

/// The version of a script.
#[derive(Clone, Copy, Debug, PartialEq, Eq)]
pub enum Version {
    One,
    Two,
}

/// A row of a table: an attribute has a kind, and a state or an attribute may have an event, by its number.
#[derive(Clone, Copy)]
pub struct Row {
    pub number: u16,
    pub name: &'static str,
    pub kind: Option<Kind>,
    pub event: Option<(u16, When)>,
}

/// A table of `N` rows, which stand in the order of their numbers.
#[derive(Clone, Copy)]
pub struct Table<const N: usize> {
    pub rows: &'static [Row; N],
}
