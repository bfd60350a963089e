//! The queries of readers, and their lines.
ghost use Rattle.std.specs.Prelude.{◌≡◌, IfOk, OnErr};
ghost use Rattle.ax_ask.specs.declared.line.Line.TheVariants as lines;
ghost use Rattle.ax_run_rules.specs.Steps.{name_of};
ghost use Rattle.ax_run_rules.specs.Replies.{answer_of};
ghost use Rattle.ax_forest.specs.Past.{forest_of};
ghost use Rattle.ax_core.specs.Receipts.{QueryDone};

use crate::queue::Queue;
use ax_ask::{Line, Query, TimedQuery};
use ax_base::NoMemory;
use ax_forest::Forest;
use ax_query::{answer, query_name};
use std::alloc::Global;

/// What is left of the queries of a reader.
pub(crate) type Reader = Queue<TimedQuery>;

/// Answers a query of a reader, and gives the line.
pub(crate) fn ask_query(
    alloc: Global,
    forest: &Forest,
    reader: usize,
    query: &Query,
) -> Result<Line, NoMemory>
    ensures { IfOk result (λ line. line ≡ lines.Answered reader (name_of query.now) (answer_of (forest_of forest.now) query.now)) }
{
    let reply = answer(alloc, forest, query)?;
    Ok(Line::Answered {
        reader,
        query: query_name(query),
        reply,
    })
}

/// Answers the next query of a reader, and gives the line, or none where no query is left.
pub(crate) fn ask_next(
    alloc: Global,
    forest: &Forest,
    number: usize,
    reader: &mut Reader,
) -> Result<Option<Line>, NoMemory>
    ensures done { IfOk result (λ line. QueryDone forest.now number reader.old reader.new line) }
    ensures err { OnErr result (reader.new ≡ reader.old) }
{
    let Some(next) = reader.first() else {
        return Ok(None);
    };
    let line = ask_query(alloc, forest, number, &next.query)?;
    reader.drop_first();
    Ok(Some(line))
}
