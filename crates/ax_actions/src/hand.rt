//! What is posted, and what the ends of an inbox know.
use ax_ask::Action;
use std::collections::LinkedList;

/// What is posted: an action, or that no further one comes.
#[derive(Debug, Drop)]
pub enum Letter {
    Do(Action),
    End,
}

/// What an end of an inbox knows, as the rule speaks of it: whether it posts, whether it takes, and what it has posted
/// and taken. It exists in the proofs alone.
pub struct Hand {
    pub posts: bool,
    pub takes: bool,
    pub posted: LinkedList<Letter>,
    pub taken: LinkedList<Letter>,
}
