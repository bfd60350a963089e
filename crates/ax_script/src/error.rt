//! Why bytes are no script.
use ax_base::Text;
use thiserror::Error;

/// Why bytes are no script. Each text is the path to the place, from `$`.
#[derive(Debug, Drop, Error)]
pub enum ScriptErr {
    /// There are more bytes than may be; the number is the least that are too many.
    #[error("{0} bytes are too many")]
    TooBig(usize),
    #[error("the bytes are no JSON")]
    NotJson,
    #[error("an unknown member in {}", .0.as_str())]
    UnknownMember(Text),
    #[error("{} is missing", .0.as_str())]
    Missing(Text),
    #[error("{} has another type", .0.as_str())]
    BadType(Text),
    #[error("{} has too few or too many items", .0.as_str())]
    BadCount(Text),
    #[error("the number at {} is not whole or is out of range", .0.as_str())]
    BadNumber(Text),
    #[error("the name at {} is unknown", .0.as_str())]
    BadName(Text),
    /// How many operations, queries and actions there are.
    #[error("{0} operations are too many")]
    TooManyOps(usize),
    /// Which item of the order, from 1.
    #[error("item {0} of the order is none")]
    BadOrder(usize),
    /// A form that the program can't run yet.
    #[error("{} is not built yet", .0.as_str())]
    NotBuilt(Text),
    #[error("no memory")]
    NoMemory,
}
