//! What is left of a list.
ghost use Rattle.std.specs.Prelude.{◌≡◌, ◌∷◌, [], drop, length, MatchOption};

use ax_base::Seq;
use std::collections::VecDeque;
use std::marker::Model;

/// What is left of a list that is taken from its front. Each call takes constant time.
#[derive(Drop)]
pub(crate) struct Queue<T> {
    items: VecDeque<T>,
}

impl<T> Model for Queue<T> {
    ghost use Rattle.std.specs.Prelude.{List};
    ghost use Rattle.std.specs.Coded.{coded_list};

    ghost Value = { List T };

    ghost coded = { coded_list T.code };

    ghost view = { λ q. q.items.items };
}

impl<T> Queue<T> {
    /// The whole list, of which nothing moves.
    pub fn of(items: Seq<T>) -> Queue<T>
        ensures { result ≡ items }
    {
        Queue {
            items: VecDeque::from_vec(items.into_vec()),
        }
    }

    pub fn len(&self) -> usize
        ensures { result ≡ length self.now }
    {
        self.items.len()
    }

    /// The next item.
    pub fn first(&self) -> Option<&T>
        ensures { MatchOption result (self.now ≡ []) (λ x. self.now ≡ x.now ∷ drop 1 self.now) }
    {
        self.items.front()
    }
}

impl<T: Drop> Queue<T> {
    /// The next item is done. With the last one the memory of the list goes.
    pub fn drop_first(&mut self)
        ensures { self.new ≡ drop 1 self.old }
    {
        let _done = self.items.pop_front();
        if self.items.is_empty() {
            self.items.shrink_to_fit();
        }
    }

    /// So many items are done. Linear in them.
    pub fn skip(&mut self, count: u64)
        ensures { self.new ≡ drop count self.old }
    {
        for _at in 0..count {
            self.drop_first();
        }
    }
}
