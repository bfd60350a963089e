//! A script whose order is still a text.
ghost use Rattle.std.specs.Prelude.{◌≡◌, Result, option_map};
ghost use Rattle.serde_json.specs.Data.{Data};
ghost use Rattle.serde_json.specs.View.{view};
ghost use Rattle.ax_json.specs.Refused.{Refusal, Gives};
ghost use Rattle.ax_json.specs.Walk.{str_of};
ghost use Rattle.ax_script.specs.Drafts.{draft_from, draft_of, draft_one, draft_two, is_version_one, version_of};

use crate::action::ActionForm;
use crate::browser::BrowserForm;
use crate::frame::FramesForm;
use crate::reader::ReadersForm;
use crate::trees::trees_of;
use crate::{FrameScripts, ReaderScripts};
use ax_ask::{Actions, TimedOps};
use ax_attrs::Version;
use ax_base::Seq;
use ax_json::{
    Fault, Form, ListOf, WalkErr, fields5, fields6, number_in, optional, refuse, required,
};
use serde_json::Value;
use std::alloc::Global;

/// A script whose order is still the bytes of a text.
#[derive(Drop)]
pub struct Draft {
    pub version: Version,
    pub frames: FrameScripts,
    pub browser: TimedOps,
    pub readers: ReaderScripts,
    pub order: Seq<u8>,
    pub actions: Actions,
}

#[derive(Clone, Copy)]
struct VersionForm;

impl Form for VersionForm {
    type Item = Version;

    ghost reads = { λ _. version_of };

    #[tactic(auto, unfolding(crate::specs::Drafts::version_of))]
    fn read(&self, alloc: Global, v: Value) -> Result<Version, WalkErr> {
        let number = number_in(alloc, &v, 1, 2)?;
        if number == 1 {
            Ok(Version::One)
        } else {
            Ok(Version::Two)
        }
    }
}

/// The bytes of a text, which is moved.
#[derive(Clone, Copy)]
struct BytesForm;

impl Form for BytesForm {
    type Item = Seq<u8>;

    ghost reads = { λ _. str_of };

    #[tactic(auto, unfolding(ax_json::specs::Walk::str_of))]
    fn read(&self, alloc: Global, v: Value) -> Result<Seq<u8>, WalkErr> {
        match v {
            Value::String(text) => Ok(Seq::from_vec(text.into_bytes())),
            _ => Err(refuse(alloc, Fault::BadType)),
        }
    }
}

/// The members of a script, as they are found.
#[derive(Drop)]
struct Found {
    version: Option<Value>,
    frames: Option<Value>,
    browser: Option<Value>,
    readers: Option<Value>,
    order: Option<Value>,
    actions: Option<Value>,
}

#[tactic(auto, unfolding(crate::specs::Drafts::draft_from))]
fn draft_from(alloc: Global, found: Found) -> Result<Draft, WalkErr>
    ensures { Gives (λ x. x) result (draft_from (option_map view found.version) (option_map view found.frames) (option_map view found.browser) (option_map view found.readers) (option_map view found.order) (option_map view found.actions)) }
{
    let Found {
        version,
        frames,
        browser,
        readers,
        order,
        actions,
    } = found;
    let version = required(alloc, &VersionForm, "version", version)?;
    let frames = required(alloc, &FramesForm { version }, "frames", frames)?;
    let trees = trees_of(alloc, frames.as_slice())?;
    let form = ListOf {
        form: BrowserForm {
            version,
            trees: &trees,
        },
    };
    let browser = optional(alloc, &form, "browser", browser)?;
    let readers = optional(alloc, &ReadersForm { version }, "readers", readers)?;
    let order = optional(alloc, &BytesForm, "order", order)?;
    let form = ListOf {
        form: ActionForm { trees: &trees },
    };
    let actions = optional(alloc, &form, "actions", actions)?;
    Ok(Draft {
        version,
        frames,
        browser: browser.unwrap_or(TimedOps::new(alloc)),
        readers: readers.unwrap_or(ReaderScripts::new(alloc)),
        order: order.unwrap_or(Seq::new(alloc)),
        actions: actions.unwrap_or(Actions::new(alloc)),
    })
}

/// Whether the member `version` is the number 1.
fn is_version_one(v: &Value) -> bool
    ensures { result ≡ is_version_one (view v.now) }
{
    match v.get("version") {
        None => false,
        Some(version) => match version.as_u64() {
            Some(number) => number == 1,
            None => false,
        },
    }
}

#[tactic(auto, unfolding(crate::specs::Drafts::draft_one, ax_json::specs::Walk::known))]
fn draft_one(alloc: Global, v: Value) -> Result<Draft, WalkErr>
    ensures { Gives (λ x. x) result (draft_one (view v)) }
{
    let (version, frames, browser, readers, order) = fields5(
        alloc, v, "version", "frames", "browser", "readers", "order",
    )?;
    draft_from(
        alloc,
        Found {
            version,
            frames,
            browser,
            readers,
            order,
            actions: None,
        },
    )
}

#[tactic(auto, unfolding(crate::specs::Drafts::draft_two, ax_json::specs::Walk::known))]
fn draft_two(alloc: Global, v: Value) -> Result<Draft, WalkErr>
    ensures { Gives (λ x. x) result (draft_two (view v)) }
{
    let (version, frames, browser, readers, order, actions) = fields6(
        alloc, v, "version", "frames", "browser", "readers", "order", "actions",
    )?;
    draft_from(
        alloc,
        Found {
            version,
            frames,
            browser,
            readers,
            order,
            actions,
        },
    )
}

#[tactic(auto, unfolding(crate::specs::Drafts::draft_of))]
pub(crate) fn draft_of(alloc: Global, v: Value) -> Result<Draft, WalkErr>
    ensures { Gives (λ x. x) result (draft_of (view v)) }
{
    if is_version_one(&v) {
        draft_one(alloc, v)
    } else {
        draft_two(alloc, v)
    }
}
