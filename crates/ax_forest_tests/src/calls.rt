//! Calls of a forest, each with what `Debug` shows of its answer.

use crate::given::{Head, Update, forest, packet, update_of};
use ax_base::{NodeId, TreeId};
use ax_forest::{Forest, ReceiveErr};
use ax_tree::{Grove, Packet, TreeView, Verdict};
use std::alloc::Global;
use std::fmt::Debug;

pub enum Call {
    /// A receipt that has a verdict.
    Receive(Head, Update),
    /// A receipt that is refused. The text is the reason, and the packet comes back as it was.
    Return(Head, Update),
    Ask,
    Destroy,
    Probe(Update),
    At,
    Token,
    /// The root and the count of a live tree.
    Tree,
    Host,
    /// How many entries the history has.
    History,
}

/// The tree at which is called, the call, and its answer.
pub type Step = (u32, Call, &'static str);

fn shows<T: Debug>(alloc: Global, value: &T, wanted: &str) -> bool {
    match format!(in alloc; "{value:?}") {
        Ok(text) => text.as_str() == wanted,
        Err(_) => false,
    }
}

fn made(alloc: Global, tree: TreeId, head: &Head, wanted: &Update) -> Option<Packet> {
    let update = update_of(alloc, tree, wanted)?;
    packet(alloc, tree, head, update)
}

fn receives(alloc: Global, forest: &mut Forest, packet: Option<Packet>, wanted: &str) -> bool {
    match packet {
        Some(packet) => {
            let answer = forest.receive(packet);
            shows(alloc, &answer, wanted)
        }
        None => false,
    }
}

fn is_returned(alloc: Global, answer: &Result<Verdict, ReceiveErr>, sent: &str, why: &str) -> bool {
    match answer {
        Ok(_) => false,
        Err(refused) => shows(alloc, &refused.packet, sent) && shows(alloc, &refused.why, why),
    }
}

fn is_refused(alloc: Global, forest: &mut Forest, packet: Packet, why: &str) -> bool {
    match format!(in alloc; "{packet:?}") {
        Ok(sent) => {
            let answer = forest.receive(packet);
            is_returned(alloc, &answer, sent.as_str(), why)
        }
        Err(_) => false,
    }
}

fn returns(alloc: Global, forest: &mut Forest, packet: Option<Packet>, why: &str) -> bool {
    match packet {
        Some(packet) => is_refused(alloc, forest, packet, why),
        None => false,
    }
}

fn probes(alloc: Global, forest: &mut Forest, tree: TreeId, tried: &Update, wanted: &str) -> bool {
    match update_of(alloc, tree, tried) {
        Some(update) => {
            let answer = forest.probe(tree, &update);
            shows(alloc, &answer, wanted)
        }
        None => false,
    }
}

fn shown(forest: &Forest, tree: TreeId) -> Option<(Option<NodeId>, usize)> {
    match forest.tree(tree) {
        Some(mirror) => Some((mirror.root(), mirror.count())),
        None => None,
    }
}

fn is_answered(
    alloc: Global,
    forest: &mut Forest,
    tree: TreeId,
    call: &Call,
    wanted: &str,
) -> bool {
    match call {
        Call::Receive(head, update) => {
            receives(alloc, forest, made(alloc, tree, head, update), wanted)
        }
        Call::Return(head, update) => {
            returns(alloc, forest, made(alloc, tree, head, update), wanted)
        }
        Call::Probe(update) => probes(alloc, forest, tree, update, wanted),
        Call::Ask => shows(alloc, &forest.ask(tree), wanted),
        Call::Destroy => shows(alloc, &forest.destroy(tree), wanted),
        Call::At => shows(alloc, &forest.at(tree), wanted),
        Call::Token => shows(alloc, &forest.token(tree), wanted),
        Call::Tree => shows(alloc, &shown(forest, tree), wanted),
        Call::Host => shows(alloc, &forest.host_of(tree), wanted),
        Call::History => shows(alloc, &forest.history().len(), wanted),
    }
}

fn is_done(alloc: Global, forest: &mut Forest, step: &Step) -> bool {
    match TreeId::new(step.0) {
        Some(tree) => is_answered(alloc, forest, tree, &step.1, step.2),
        None => false,
    }
}

pub fn all_done(alloc: Global, forest: &mut Forest, steps: &[Step]) -> bool {
    for step in steps {
        if !is_done(alloc, forest, step) {
            return false;
        }
    }
    true
}

/// Whether each call in turn has its answer, at a forest of the trees 1 and 2.
pub fn are_answered(alloc: Global, steps: &[Step]) -> bool {
    match forest(alloc) {
        Some(mut forest) => all_done(alloc, &mut forest, steps),
        None => false,
    }
}
