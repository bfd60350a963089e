//! Which query it is.
ghost use Rattle.std.specs.Prelude.{◌≡◌};
ghost use Rattle.ax_run_rules.specs.Steps.{name_of};

use ax_ask::{Query, QueryName};

/// Which query it is, for the line that answers it.
pub fn query_name(query: &Query) -> QueryName
    ensures { result ≡ name_of query.now }
{
    match query {
        Query::Node(_) => QueryName::Node,
        Query::Parent(_) => QueryName::Parent,
        Query::Children(_) => QueryName::Children,
        Query::Next(_) => QueryName::Next,
        Query::Prev(_) => QueryName::Prev,
        Query::Bounds(_) => QueryName::Bounds,
        Query::UParent(_) => QueryName::UParent,
        Query::UChildren(_) => QueryName::UChildren,
        Query::UNext(_) => QueryName::UNext,
        Query::UPrev(_) => QueryName::UPrev,
        Query::UText(_) => QueryName::UText,
        Query::Hit(_) => QueryName::Hit,
        Query::Focus => QueryName::Focus,
        Query::Offset(_) => QueryName::Offset,
        Query::Leaf(_) => QueryName::Leaf,
        Query::Up(_) => QueryName::Up,
        Query::Compare(_, _) => QueryName::Compare,
        Query::Text(_, _) => QueryName::Text,
        Query::Move(_, _, _) => QueryName::Move,
    }
}
