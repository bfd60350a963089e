//! The readers' queries.
ghost use Rattle.std.specs.Prelude.{◌≡◌, Result};
ghost use Rattle.serde_json.specs.Data.{Data};
ghost use Rattle.serde_json.specs.View.{view};
ghost use Rattle.ax_json.specs.Refused.{Refusal, Gives};
ghost use Rattle.ax_script.specs.Readers.{readers_of};

use crate::ReaderScripts;
use ax_attrs::Version;
use ax_forms::QueryForm;
use ax_json::{Fault, Form, ListOf, WalkErr, array_of, each, refuse};
use serde_json::Value;
use std::alloc::Global;

/// The queries of at most 16 readers.
#[derive(Clone, Copy)]
pub(crate) struct ReadersForm {
    pub version: Version,
}

impl Form for ReadersForm {
    type Item = ReaderScripts;

    ghost reads = { λ f. readers_of f.version };

    #[tactic(auto, unfolding(crate::specs::Readers::readers_of), using(ax_forms::proofs::Under::items_len_view))]
    fn read(&self, alloc: Global, v: Value) -> Result<ReaderScripts, WalkErr> {
        let items = array_of(alloc, v)?;
        if items.len() > 16 {
            return Err(refuse(alloc, Fault::BadCount));
        }
        let form = ListOf {
            form: QueryForm {
                version: self.version,
            },
        };
        each(alloc, &form, items)
    }
}
