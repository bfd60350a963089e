//! Tree data, of which any may be absent.
ghost use Rattle.std.specs.Prelude.{◌≡◌, Result, option_map};
ghost use Rattle.serde_json.specs.Data.{Data};
ghost use Rattle.serde_json.specs.View.{view};
ghost use Rattle.ax_json.specs.Refused.{Refusal, Gives};
ghost use Rattle.ax_forms.specs.TreeNews.{data_op, data_with, news_from, update_data};

use crate::place::{Selection, SelectionEnd, SelectionForm};
use ax_base::{Text, TreeId};
use ax_json::{Flag, Form, NodeOrNone, TreeOrNone, WalkErr, Words, fields7, fields8, optional};
use ax_node::TreeData;
use ax_tree::SetTree;
use serde_json::Value;
use std::alloc::Global;

/// The members of tree data, as they are found.
#[derive(Drop)]
struct Found {
    parent: Option<Value>,
    focused: Option<Value>,
    loaded: Option<Value>,
    focus: Option<Value>,
    sel: Option<Value>,
    title: Option<Value>,
    url: Option<Value>,
}

/// Both ends of a selection, where it is given.
fn ends_of(sel: Option<Selection>) -> (Option<SelectionEnd>, Option<SelectionEnd>)
    ensures anchor { result.0 ≡ option_map (λ s. s.anchor) sel }
    ensures end { result.1 ≡ option_map (λ s. s.end) sel }
{
    match sel {
        Some(Selection { anchor, end }) => (Some(anchor), Some(end)),
        None => (None, None),
    }
}

#[tactic(auto, unfolding(crate::specs::TreeNews::news_from))]
fn news_from(alloc: Global, found: Found) -> Result<SetTree, WalkErr>
    ensures { Gives (λ x. x) result (news_from (option_map view found.parent) (option_map view found.focused) (option_map view found.loaded) (option_map view found.focus) (option_map view found.sel) (option_map view found.title) (option_map view found.url)) }
{
    let Found {
        parent,
        focused,
        loaded,
        focus,
        sel,
        title,
        url,
    } = found;
    let parent = optional(alloc, &TreeOrNone, "parent", parent)?;
    let focused = optional(alloc, &TreeOrNone, "focused", focused)?;
    let loaded = optional(alloc, &Flag, "loaded", loaded)?;
    let focus = optional(alloc, &NodeOrNone, "focus", focus)?;
    let sel = optional(alloc, &SelectionForm, "sel", sel)?;
    let (anchor, end) = ends_of(sel);
    let title = optional(alloc, &Words, "title", title)?;
    let url = optional(alloc, &Words, "url", url)?;
    Ok(SetTree {
        parent,
        focused,
        loaded,
        focus,
        anchor,
        end,
        title,
        url,
    })
}

/// The op `data`, which leaves what it doesn't give.
#[derive(Clone, Copy)]
pub struct NewsForm;

impl Form for NewsForm {
    type Item = SetTree;

    ghost reads = { λ _. data_op };

    #[tactic(auto, unfolding(crate::specs::TreeNews::data_op))]
    fn read(&self, alloc: Global, v: Value) -> Result<SetTree, WalkErr> {
        let (_, parent, focused, loaded, focus, sel, title, url) = fields8(
            alloc, v, "op", "parent", "focused", "loaded", "focus", "sel", "title", "url",
        )?;
        news_from(
            alloc,
            Found {
                parent,
                focused,
                loaded,
                focus,
                sel,
                title,
                url,
            },
        )
    }
}

/// The tree data where all that isn't given is blank.
fn data_with(alloc: Global, tree: TreeId, news: SetTree) -> TreeData
    ensures { result ≡ data_with tree news }
{
    let SetTree {
        parent,
        focused,
        loaded,
        focus,
        anchor,
        end,
        title,
        url,
    } = news;
    TreeData {
        tree,
        parent: parent.unwrap_or(None),
        focused: focused.unwrap_or(None),
        loaded: loaded.unwrap_or(false),
        focus: focus.unwrap_or(None),
        anchor: anchor.unwrap_or(None),
        end: end.unwrap_or(None),
        title: title.unwrap_or(Text::new(alloc)),
        url: url.unwrap_or(Text::new(alloc)),
    }
}

/// The tree data of an update of this tree.
#[derive(Clone, Copy)]
pub struct UpdateDataForm {
    pub tree: TreeId,
}

impl Form for UpdateDataForm {
    type Item = TreeData;

    ghost reads = { λ f. update_data f.tree };

    #[tactic(auto, unfolding(crate::specs::TreeNews::update_data))]
    fn read(&self, alloc: Global, v: Value) -> Result<TreeData, WalkErr> {
        let (parent, focused, loaded, focus, sel, title, url) = fields7(
            alloc, v, "parent", "focused", "loaded", "focus", "sel", "title", "url",
        )?;
        let news = news_from(
            alloc,
            Found {
                parent,
                focused,
                loaded,
                focus,
                sel,
                title,
                url,
            },
        )?;
        Ok(data_with(alloc, self.tree, news))
    }
}
