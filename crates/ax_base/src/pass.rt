//! Numbers of passes and tokens.
/// The number of a pass of a frame, from 0, where 0 stands before the first pass.
#[derive(Clone, Copy, Debug, PartialEq, Eq, PartialOrd, Ord, Hash)]
pub struct PassNo(pub u64);

/// The number by which the browser asks a frame for its whole tree again, from 0, where 0 stands before it has asked.
#[derive(Clone, Copy, Debug, PartialEq, Eq, PartialOrd, Ord, Hash)]
pub struct Token(pub u64);
