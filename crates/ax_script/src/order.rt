//! The order of a script: items, with one space between.
ghost use Rattle.std.specs.Prelude.{◌≡◌, ◌==◌, ◌<◌, ◌≤◌, Some, IfSome, length, position};
ghost use Rattle.ax_script.specs.Order.{GivesOrder, delivery, delivery_at, digits_to, item_of, number_to, order_of, reader_named, token_after, token_named, tree_named};
ghost use Rattle.ax_script.specs.Trees.{knows};

use ax_ask::{Item, Items};
use ax_base::{NoMemory, Token, TreeId};
use std::alloc::Global;
use std::collections::BTreeSet;

/// Why a text is no order: the number of the first item that is none, from 1, or want of memory.
pub(crate) enum OrderErr {
    BadItem(usize),
    NoMemory,
}

/// The number that digits stand for after those of `start`, where it is at most `high`.
fn digits_from(high: u64, start: u64, digits: &[u8]) -> Option<u64>
    requires low { high ≤ 1000000 }
    requires first { start ≤ 9 }
    ensures value { result ≡ digits_to high start digits.now }
    ensures above { IfSome result (λ n. start ≤ n) }
    ensures within { IfSome result (λ n. n ≤ high) }
{
    let mut number = start;
    for digit in digits {
        if 48 <= *digit && *digit <= 57 && number <= high {
            number = number * 10 + (*digit - 48) as u64;
        } else {
            return None;
        }
    }
    if number <= high { Some(number) } else { None }
}

/// A number from 1 to `high`, whose digits begin with no zero.
fn number_to(high: u64, digits: &[u8]) -> Option<u64>
    requires { high ≤ 1000000 }
    ensures value { result ≡ number_to high digits.now }
    ensures above { IfSome result (λ n. 1 ≤ n) }
    ensures within { IfSome result (λ n. n ≤ high) }
{
    match digits {
        [] => None,
        [first, rest @ ..] => {
            if 49 <= *first && *first <= 57 {
                digits_from(high, (*first - 48) as u64, rest)
            } else {
                None
            }
        }
    }
}

/// A tree that a frame has.
#[tactic(auto, unfolding(crate::specs::Trees::knows))]
fn tree_named(trees: &BTreeSet<u32>, digits: &[u8]) -> Option<TreeId>
    ensures { result ≡ tree_named (knows trees.now) digits.now }
{
    let number = number_to(1000, digits)? as u32;
    if !trees.contains(&number) {
        return None;
    }
    TreeId::new(number)
}

fn token_named(digits: &[u8]) -> Option<Token>
    ensures { result ≡ token_named digits.now }
{
    match number_to(1_000_000, digits) {
        Some(number) => Some(Token(number)),
        None => None,
    }
}

/// Where the first colon is.
fn colon_in(text: &[u8]) -> Option<usize>
    ensures value { result ≡ position (λ c. c == 58) text.now }
    ensures within { IfSome result (λ i. i < length text.now) }
{
    text.iter().position(|c| *c == 58)
}

/// A tree, a colon and a token.
fn token_after(tree: TreeId, rest: &[u8]) -> Option<Item>
    ensures { result ≡ token_after tree rest.now }
{
    match rest {
        [] => None,
        [_, digits @ ..] => {
            let token = token_named(digits)?;
            Some(Item::Deliver(tree, token))
        }
    }
}

/// A tree and a token with a colon between, which is at `i`.
fn delivery_at(trees: &BTreeSet<u32>, text: &[u8], i: usize) -> Option<Item>
    requires { i < length text.now }
    ensures { result ≡ delivery_at (knows trees.now) text.now (Some i) }
{
    let (before, rest) = text.split_at(i);
    let tree = tree_named(trees, before)?;
    token_after(tree, rest)
}

/// A tree and a token with a colon between.
fn delivery(trees: &BTreeSet<u32>, text: &[u8]) -> Option<Item>
    ensures { result ≡ delivery (knows trees.now) text.now }
{
    match colon_in(text) {
        None => None,
        Some(i) => delivery_at(trees, text, i),
    }
}

/// One of the script's readers, of which there are 16 at most.
fn reader_named(readers: usize, digits: &[u8]) -> Option<Item>
    ensures { result ≡ reader_named readers digits.now }
{
    let number = number_to(16, digits)? as usize;
    if number <= readers {
        Some(Item::Reader(number))
    } else {
        None
    }
}

/// The item that a text is.
fn item_of(trees: &BTreeSet<u32>, readers: usize, text: &[u8]) -> Option<Item>
    ensures { result ≡ item_of (knows trees.now) readers text.now }
{
    let (first, rest) = match text {
        [] => return None,
        [first, rest @ ..] => (*first, rest),
    };
    if first == 98 {
        return if rest.is_empty() {
            Some(Item::Browser)
        } else {
            None
        };
    }
    if first == 102 {
        return Some(Item::Frame(tree_named(trees, rest)?));
    }
    if first == 97 {
        return Some(Item::Receive(tree_named(trees, rest)?));
    }
    if first == 100 {
        return delivery(trees, rest);
    }
    if first == 114 {
        return reader_named(readers, rest);
    }
    None
}

impl From<NoMemory> for OrderErr {
    ghost use Rattle.ax_script.specs.declared.order.OrderErr.TheVariants.{NoMemory as OutOfMemory};

    ghost from_gives = { λ _ e. e ≡ OutOfMemory };

    fn from(_e: NoMemory) -> OrderErr {
        OrderErr::NoMemory
    }
}

/// The items of an order.
pub(crate) fn order_of(
    alloc: Global,
    trees: &BTreeSet<u32>,
    readers: usize,
    text: &[u8],
) -> Result<Items, OrderErr>
    ensures { GivesOrder result (order_of (knows trees.now) readers text.now) }
{
    let mut found = Items::new(alloc);
    if text.is_empty() {
        return Ok(found);
    }
    let mut word = Vec::new(alloc);
    for c in text {
        if *c == 32 {
            let Some(item) = item_of(trees, readers, word.as_slice()) else {
                return Err(OrderErr::BadItem(found.len() + 1));
            };
            found.push(item)?;
            word.clear();
        } else if word.push(*c).is_err() {
            return Err(OrderErr::NoMemory);
        }
    }
    let Some(item) = item_of(trees, readers, word.as_slice()) else {
        return Err(OrderErr::BadItem(found.len() + 1));
    };
    found.push(item)?;
    Ok(found)
}
