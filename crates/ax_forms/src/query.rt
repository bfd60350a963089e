//! Queries.
ghost use Rattle.std.specs.Prelude.{◌≡◌, Result, option_map};
ghost use Rattle.serde_json.specs.Data.{Data};
ghost use Rattle.serde_json.specs.View.{view};
ghost use Rattle.ax_json.specs.Refused.{Refusal, Gives};
ghost use Rattle.ax_forms.specs.Queries.{after_of, asked, asked_at, asked_between, focus_query, hit_query, move_query, pair_query, place_query, position_query, query_as, query_of, subject_of, unit_of, way_of};

use crate::place::PositionForm;
use ax_ask::{Query, QueryName, TimedQuery};
use ax_attrs::Version;
use ax_base::{Place, Point, Pos, Unit, Way};
use ax_json::{
    Fault, Form, Node, Signed, Tree, WalkErr, Whole, fields2, fields3, fields4, fields5, in_member,
    optional, refuse, required, str_of, tag,
};
use serde_json::Value;
use std::alloc::Global;

/// How many packets are to be received before.
#[tactic(auto, unfolding(crate::specs::Queries::after_of))]
pub fn after_of(alloc: Global, found: Option<Value>) -> Result<u64, WalkErr>
    ensures { Gives (λ x. x) result (after_of (option_map view found)) }
{
    let form = Whole {
        low: 0,
        high: 1_000_000,
    };
    let after = optional(alloc, &form, "after", found)?;
    Ok(after.unwrap_or(0))
}

/// The queries that are asked of a place.
#[derive(Clone, Copy)]
pub enum PlaceQuery {
    Node,
    Parent,
    Children,
    Next,
    Prev,
    Bounds,
    UParent,
    UChildren,
    UNext,
    UPrev,
    UText,
}

/// The queries that are asked of a position.
#[derive(Clone, Copy)]
pub enum PositionQuery {
    Offset,
    Leaf,
    Up,
}

/// The queries that are asked of two positions.
#[derive(Clone, Copy)]
pub enum PairQuery {
    Compare,
    Text,
}

fn asked(name: PlaceQuery, place: Place) -> Query
    ensures { result ≡ asked name place }
{
    match name {
        PlaceQuery::Node => Query::Node(place),
        PlaceQuery::Parent => Query::Parent(place),
        PlaceQuery::Children => Query::Children(place),
        PlaceQuery::Next => Query::Next(place),
        PlaceQuery::Prev => Query::Prev(place),
        PlaceQuery::Bounds => Query::Bounds(place),
        PlaceQuery::UParent => Query::UParent(place),
        PlaceQuery::UChildren => Query::UChildren(place),
        PlaceQuery::UNext => Query::UNext(place),
        PlaceQuery::UPrev => Query::UPrev(place),
        PlaceQuery::UText => Query::UText(place),
    }
}

fn asked_at(name: PositionQuery, at: Pos) -> Query
    ensures { result ≡ asked_at name at }
{
    match name {
        PositionQuery::Offset => Query::Offset(at),
        PositionQuery::Leaf => Query::Leaf(at),
        PositionQuery::Up => Query::Up(at),
    }
}

fn asked_between(name: PairQuery, at: Pos, to: Pos) -> Query
    ensures { result ≡ asked_between name at to }
{
    match name {
        PairQuery::Compare => Query::Compare(at, to),
        PairQuery::Text => Query::Text(at, to),
    }
}

#[tactic(auto, unfolding(crate::specs::Queries::place_query))]
fn place_query(alloc: Global, name: PlaceQuery, v: Value) -> Result<TimedQuery, WalkErr>
    ensures { Gives (λ x. x) result (place_query name (view v)) }
{
    let (_, after, tree, node) = fields4(alloc, v, "q", "after", "tree", "node")?;
    let after = after_of(alloc, after)?;
    let tree = required(alloc, &Tree, "tree", tree)?;
    let node = required(alloc, &Node, "node", node)?;
    Ok(TimedQuery {
        after,
        query: asked(name, Place { tree, node }),
    })
}

#[tactic(auto, unfolding(crate::specs::Queries::hit_query))]
fn hit_query(alloc: Global, v: Value) -> Result<TimedQuery, WalkErr>
    ensures { Gives (λ x. x) result (hit_query (view v)) }
{
    let (_, after, x, y) = fields4(alloc, v, "q", "after", "x", "y")?;
    let after = after_of(alloc, after)?;
    let x = required(alloc, &Signed, "x", x)?;
    let y = required(alloc, &Signed, "y", y)?;
    Ok(TimedQuery {
        after,
        query: Query::Hit(Point { x, y }),
    })
}

#[tactic(auto, unfolding(crate::specs::Queries::focus_query))]
fn focus_query(alloc: Global, v: Value) -> Result<TimedQuery, WalkErr>
    ensures { Gives (λ x. x) result (focus_query (view v)) }
{
    let (_, after) = fields2(alloc, v, "q", "after")?;
    let after = after_of(alloc, after)?;
    Ok(TimedQuery {
        after,
        query: Query::Focus,
    })
}

#[tactic(auto, unfolding(crate::specs::Queries::position_query))]
fn position_query(alloc: Global, name: PositionQuery, v: Value) -> Result<TimedQuery, WalkErr>
    ensures { Gives (λ x. x) result (position_query name (view v)) }
{
    let (_, after, at) = fields3(alloc, v, "q", "after", "at")?;
    let after = after_of(alloc, after)?;
    let at = required(alloc, &PositionForm, "at", at)?;
    Ok(TimedQuery {
        after,
        query: asked_at(name, at),
    })
}

#[tactic(auto, unfolding(crate::specs::Queries::pair_query))]
fn pair_query(alloc: Global, name: PairQuery, v: Value) -> Result<TimedQuery, WalkErr>
    ensures { Gives (λ x. x) result (pair_query name (view v)) }
{
    let (_, after, at, to) = fields4(alloc, v, "q", "after", "at", "to")?;
    let after = after_of(alloc, after)?;
    let at = required(alloc, &PositionForm, "at", at)?;
    let to = required(alloc, &PositionForm, "to", to)?;
    Ok(TimedQuery {
        after,
        query: asked_between(name, at, to),
    })
}

#[derive(Clone, Copy)]
struct UnitForm;

impl Form for UnitForm {
    type Item = Unit;

    ghost reads = { λ _. unit_of };

    #[tactic(auto, unfolding(crate::specs::Queries::unit_of))]
    fn read(&self, alloc: Global, v: Value) -> Result<Unit, WalkErr> {
        let name = str_of(alloc, &v)?;
        if name == "char" {
            return Ok(Unit::Char);
        }
        if name == "word" {
            return Ok(Unit::Word);
        }
        if name == "leaf" {
            return Ok(Unit::Leaf);
        }
        Err(refuse(alloc, Fault::BadName))
    }
}

#[derive(Clone, Copy)]
struct WayForm;

impl Form for WayForm {
    type Item = Way;

    ghost reads = { λ _. way_of };

    #[tactic(auto, unfolding(crate::specs::Queries::way_of))]
    fn read(&self, alloc: Global, v: Value) -> Result<Way, WalkErr> {
        let name = str_of(alloc, &v)?;
        if name == "next" {
            return Ok(Way::Next);
        }
        if name == "prev" {
            return Ok(Way::Prev);
        }
        Err(refuse(alloc, Fault::BadName))
    }
}

#[tactic(auto, unfolding(crate::specs::Queries::move_query))]
fn move_query(alloc: Global, v: Value) -> Result<TimedQuery, WalkErr>
    ensures { Gives (λ x. x) result (move_query (view v)) }
{
    let (_, after, at, unit, way) = fields5(alloc, v, "q", "after", "at", "unit", "way")?;
    let after = after_of(alloc, after)?;
    let at = required(alloc, &PositionForm, "at", at)?;
    let unit = required(alloc, &UnitForm, "unit", unit)?;
    let way = required(alloc, &WayForm, "way", way)?;
    Ok(TimedQuery {
        after,
        query: Query::Move(at, unit, way),
    })
}

/// The queries, by what is asked of.
#[derive(Clone, Copy)]
pub enum Sought {
    Place(PlaceQuery),
    Hit,
    Focus,
    Position(PositionQuery),
    Pair(PairQuery),
    Move,
}

/// What a query is asked of.
fn subject_of(name: QueryName) -> Sought
    ensures { result ≡ subject_of name }
{
    match name {
        QueryName::Node => Sought::Place(PlaceQuery::Node),
        QueryName::Parent => Sought::Place(PlaceQuery::Parent),
        QueryName::Children => Sought::Place(PlaceQuery::Children),
        QueryName::Next => Sought::Place(PlaceQuery::Next),
        QueryName::Prev => Sought::Place(PlaceQuery::Prev),
        QueryName::Bounds => Sought::Place(PlaceQuery::Bounds),
        QueryName::UParent => Sought::Place(PlaceQuery::UParent),
        QueryName::UChildren => Sought::Place(PlaceQuery::UChildren),
        QueryName::UNext => Sought::Place(PlaceQuery::UNext),
        QueryName::UPrev => Sought::Place(PlaceQuery::UPrev),
        QueryName::UText => Sought::Place(PlaceQuery::UText),
        QueryName::Hit => Sought::Hit,
        QueryName::Focus => Sought::Focus,
        QueryName::Offset => Sought::Position(PositionQuery::Offset),
        QueryName::Leaf => Sought::Position(PositionQuery::Leaf),
        QueryName::Up => Sought::Position(PositionQuery::Up),
        QueryName::Compare => Sought::Pair(PairQuery::Compare),
        QueryName::Text => Sought::Pair(PairQuery::Text),
        QueryName::Move => Sought::Move,
    }
}

#[tactic(auto, unfolding(crate::specs::Queries::query_as))]
fn query_as(alloc: Global, asked: Sought, v: Value) -> Result<TimedQuery, WalkErr>
    ensures { Gives (λ x. x) result (query_as asked (view v)) }
{
    match asked {
        Sought::Place(name) => place_query(alloc, name, v),
        Sought::Hit => hit_query(alloc, v),
        Sought::Focus => focus_query(alloc, v),
        Sought::Position(name) => position_query(alloc, name, v),
        Sought::Pair(name) => pair_query(alloc, name, v),
        Sought::Move => move_query(alloc, v),
    }
}

/// A query of a script of this version.
#[derive(Clone, Copy)]
pub struct QueryForm {
    pub version: Version,
}

impl Form for QueryForm {
    type Item = TimedQuery;

    ghost reads = { λ f. query_of f.version };

    #[tactic(auto, unfolding(crate::specs::Queries::query_of), using(crate::proofs::Under::under_gives))]
    fn read(&self, alloc: Global, v: Value) -> Result<TimedQuery, WalkErr> {
        let name = tag(alloc, &v, "q")?;
        let Some(query) = QueryName::named(self.version, name) else {
            return Err(in_member(alloc, "q", refuse(alloc, Fault::BadName)));
        };
        query_as(alloc, subject_of(query), v)
    }
}
