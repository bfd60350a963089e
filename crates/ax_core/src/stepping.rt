//! The steps of a run.
ghost use Rattle.std.specs.Prelude.{◌≡◌, ◌⊎◌, IfOk, IfErr, OnErr, OnOk};
ghost use Rattle.ax_ask.specs.declared.op.Item.TheVariants as items;
ghost use Rattle.ax_core.specs.Standing.{IsWhole};
ghost use Rattle.ax_core.specs.Items.{Steps, Answers, IsRefused, IsCut};

use crate::browsing::browse;
use crate::reading::ask_next;
use crate::{Core, CoreErr};
use ax_ask::{Item, Line};
use ax_base::{NoMemory, Token, TreeId};

impl Core {
    /// Does the item, and gives its line. Beside what the item's own call costs it takes constant time.
    pub fn step(&mut self, item: &Item) -> Result<Line, CoreErr>
        ensures done { IfOk result (λ line. Steps self.old item.now self.new line) }
        ensures refused { IfErr result (λ e. IsRefused self.old item.now self.new e) }
        ensures whole { OnOk result (IsWhole self.old → IsWhole self.new) }
    {
        match self.answer(item)? {
            Some(line) => Ok(line),
            None => Err(CoreErr::NotThere(*item)),
        }
    }

    /// Does the item, and gives its line, or none where it isn't there.
    fn answer(&mut self, item: &Item) -> Result<Option<Line>, NoMemory>
        ensures done { IfOk result (λ line. Answers self.old item.now self.new line) }
        ensures err { OnErr result ((self.new ≡ self.old) ⊎ IsCut self.old item.now self.new) }
    {
        match item {
            Item::Frame(tree) => self.next_operation(*tree),
            Item::Receive(tree) => self.next_receipt(*tree),
            Item::Browser => self.next_browser(),
            Item::Deliver(tree, token) => self.delivery(*tree, *token),
            Item::Reader(number) => self.next_query(*number),
        }
    }

    fn next_operation(&mut self, tree: TreeId) -> Result<Option<Line>, NoMemory>
        ensures done { IfOk result (λ line. Answers self.old (items.Frame tree) self.new line) }
        ensures err { OnErr result ((self.new ≡ self.old) ⊎ IsCut self.old (items.Frame tree) self.new) }
    {
        match self.places.find(tree) {
            Some(at) => self.seats[at].next(),
            None => Ok(None),
        }
    }

    fn next_receipt(&mut self, tree: TreeId) -> Result<Option<Line>, NoMemory>
        ensures done { IfOk result (λ line. Answers self.old (items.Receive tree) self.new line) }
        ensures err { OnErr result (self.new ≡ self.old) }
    {
        match self.places.find(tree) {
            Some(at) => self.seats[at].receive(&mut self.forest),
            None => Ok(None),
        }
    }

    pub(crate) fn next_browser(&mut self) -> Result<Option<Line>, NoMemory>
        ensures done { IfOk result (λ line. Answers self.old items.Browser self.new line) }
        ensures err { OnErr result (self.new ≡ self.old) }
    {
        let Some(next) = self.browser.first() else {
            return Ok(None);
        };
        let line = browse(&mut self.forest, &next.op)?;
        self.browser.drop_first();
        Ok(Some(line))
    }

    pub(crate) fn delivery(&mut self, tree: TreeId, token: Token) -> Result<Option<Line>, NoMemory>
        ensures done { IfOk result (λ line. Answers self.old (items.Deliver tree token) self.new line) }
        ensures err { OnErr result (self.new ≡ self.old) }
    {
        match self.places.find(tree) {
            Some(at) => Ok(Some(self.seats[at].deliver(token)?)),
            None => Ok(None),
        }
    }

    fn next_query(&mut self, number: usize) -> Result<Option<Line>, NoMemory>
        ensures done { IfOk result (λ line. Answers self.old (items.Reader number) self.new line) }
        ensures err { OnErr result (self.new ≡ self.old) }
    {
        let Some(at) = number.checked_sub(1) else {
            return Ok(None);
        };
        if at >= self.readers.len() {
            return Ok(None);
        }
        ask_next(self.alloc, &self.forest, number, &mut self.readers[at])
    }
}
