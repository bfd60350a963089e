//! Scripts: what a run is asked for, and how it is read from bytes.
//!
//! `read_script` gives exactly what the definition `script` of `specs/Script.antt` says: the script that the bytes are, or
//! the first refusal with its place. What is read is sound, as `specs/Sound.antt` says. `script_error_text` appends the line
//! of a refusal. Reading costs the size of the bytes. The JSON value is taken apart as it is read, so a
//! part of it is freed once its part of the script stands.
#![tactic(auto)]

mod action;
mod browser;
mod draft;
mod error;
mod error_text;
mod frame;
mod order;
mod read;
mod reader;
mod script;
mod trees;

pub use error::ScriptErr;
pub use error_text::script_error_text;
pub use read::read_script;
pub use script::{FrameScript, FrameScripts, ReaderScripts, Script};
