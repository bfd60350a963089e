//! The finale: all that is left is done, and each live tree catches up with its frame.
ghost use Rattle.std.specs.Prelude.{◌≡◌, ◌<◌, ◌+◌, ◌&&◌, ◌||◌, false, List, length, replicate, slice_get, is_ok, option_to_list, Some, IfOk, OnErr, OnOk};
ghost use Rattle.ax_rules.specs.Histories.{is_gone};
ghost use Rattle.ax_ask.specs.declared.op.BrowserOp.TheVariants as browsers;
ghost use Rattle.ax_run_rules.specs.States.{FrameRun, trees_of};
ghost use Rattle.ax_run_rules.specs.Finale.{ops_left, packets_left, queries_left, delivery_of, is_behind};
ghost use Rattle.ax_trees.specs.Lists.{NoneTwice};
ghost use Rattle.ax_ask.specs.declared.op.Item.TheVariants as items;
ghost use Rattle.ax_ask.specs.declared.query.TimedQuery.{TimedQuery};
ghost use Rattle.ax_core.specs.Standing.{IsWhole};
ghost use Rattle.ax_core.specs.Finishing.{turns_of, frame_turn, receive_turn, ops_of, waits_of, ForEach, Told, Turns, Serves, Asks, Passes, Refreshes, CatchesUp, IsFinished, IsWithin, IsFinale, delivery_in};
ghost use Rattle.ax_core.specs.Hearing.{Hears, HearsFinale, AtFrame, AtReader, AtNext};

use crate::browsing::ask;
use crate::{Core, Listener};
use ax_ask::{Item, Line, Lines};
use ax_base::{NoMemory, TreeId};
use ax_tree::{Grove, TreeView};

impl Core {
    /// Does all that is left: the frames' operations, the receipts, the browser's operations with the delivery of each token,
    /// the catching up of each live tree that is behind its frame, and the queries. Gives the lines in order. Where there is
    /// no memory, the run stands at a point of its finale. Beside what its items cost it is linear in them.
    pub fn finale(&mut self) -> Result<Lines, NoMemory>
        ensures done { IfOk result (λ lines. IsFinished self.old self.new lines) }
        ensures ruled { IfOk result (λ lines. IsWhole self.old → IsFinale self.old self.new lines) }
        ensures whole { OnOk result (IsWhole self.old → IsWhole self.new) }
        ensures stopped { OnErr result (IsWithin self.old self.new) }
    {
        let mut lines = Lines::new(self.alloc);
        self.tell_finale(&mut lines)?;
        Ok(lines)
    }

    /// Does the finale, and lets the listener hear each line as it comes. Where there is no memory, the run stands at a point
    /// of its finale. Beside what its items and the listener cost it is linear in them, and it keeps no line.
    pub fn tell_finale<A: Listener>(&mut self, listener: &mut A) -> Result<(), NoMemory>
        ensures done { OnOk result (HearsFinale A.heard self.old self.new listener.old listener.new) }
        ensures whole { OnOk result (IsWhole self.old → IsWhole self.new) }
        ensures stopped { OnErr result (IsWithin self.old self.new) }
    {
        self.do_operations(listener)?;
        self.receive_packets(listener)?;
        self.serve(listener)?;
        self.catch_up(listener)?;
        self.answer_queries(listener)?;
        Ok(())
    }

    /// Does an item, and tells its line. Each item of a finale is there, so it is refused only for want of memory.
    fn tell<A: Listener>(&mut self, item: &Item, listener: &mut A) -> Result<(), NoMemory>
        ensures { Hears A.heard (Told item.now) (is_ok result) self.old self.new listener.old listener.new }
    {
        match self.step(item) {
            Ok(line) => listener.hear(line),
            Err(_) => Err(NoMemory),
        }
    }

    /// Does an item so many times.
    fn tell_times<A: Listener>(
        &mut self,
        item: &Item,
        times: usize,
        listener: &mut A,
    ) -> Result<(), NoMemory>
        ensures { Hears A.heard (Turns (replicate times item.now)) (is_ok result) self.old self.new listener.old listener.new }
    {
        for _at in 0..times {
            self.tell(item, listener)?;
        }
        Ok(())
    }

    /// Does an item, if there is one.
    fn tell_if<A: Listener>(&mut self, item: Option<Item>, listener: &mut A) -> Result<(), NoMemory>
        ensures { Hears A.heard (Turns (option_to_list item)) (is_ok result) self.old self.new listener.old listener.new }
    {
        match item {
            Some(item) => self.tell(&item, listener),
            None => Ok(()),
        }
    }

    fn do_operations<A: Listener>(&mut self, listener: &mut A) -> Result<(), NoMemory>
        ensures { Hears A.heard (Turns (ops_left self.old)) (is_ok result) self.old self.new listener.old listener.new }
    {
        for at in 0..self.frame_count() {
            self.do_operations_at(at, listener)?;
        }
        Ok(())
    }

    /// Does all that is left of a frame's operations.
    fn do_operations_at<A: Listener>(&mut self, at: usize, listener: &mut A) -> Result<(), NoMemory>
        requires { at < length self.old.frames }
        ensures { Hears A.heard (AtFrame at (λ f. Turns (turns_of frame_turn ops_of f))) (is_ok result) self.old self.new listener.old listener.new }
    {
        let (item, times) = self.operations_at(at);
        self.tell_times(&item, times, listener)
    }

    fn receive_packets<A: Listener>(&mut self, listener: &mut A) -> Result<(), NoMemory>
        ensures { Hears A.heard (Turns (packets_left self.old)) (is_ok result) self.old self.new listener.old listener.new }
    {
        for at in 0..self.frame_count() {
            self.receive_packets_at(at, listener)?;
        }
        Ok(())
    }

    /// Receives all packets of a frame.
    fn receive_packets_at<A: Listener>(
        &mut self,
        at: usize,
        listener: &mut A,
    ) -> Result<(), NoMemory>
        requires { at < length self.old.frames }
        ensures { Hears A.heard (AtFrame at (λ f. Turns (turns_of receive_turn waits_of f))) (is_ok result) self.old self.new listener.old listener.new }
    {
        let (item, times) = self.packets_at(at);
        self.tell_times(&item, times, listener)
    }

    fn serve<A: Listener>(&mut self, listener: &mut A) -> Result<(), NoMemory>
        ensures { Hears A.heard (ForEach Serves self.old.browser) (is_ok result) self.old self.new listener.old listener.new }
    {
        for _at in 0..self.browser_count() {
            self.serve_next(listener)?;
        }
        Ok(())
    }

    /// Does the browser's next operation, and delivers its token.
    fn serve_next<A: Listener>(&mut self, listener: &mut A) -> Result<(), NoMemory>
        ensures { Hears A.heard (AtNext Serves) (is_ok result) self.old self.new listener.old listener.new }
    {
        let Ok(line) = self.step(&Item::Browser) else {
            return Err(NoMemory);
        };
        let delivery = delivery_in(&line);
        listener.hear(line)?;
        self.tell_if(delivery, listener)
    }

    fn catch_up<A: Listener>(&mut self, listener: &mut A) -> Result<(), NoMemory>
        ensures { Hears A.heard (ForEach CatchesUp (trees_of self.old)) (is_ok result) self.old self.new listener.old listener.new }
    {
        for at in 0..self.frame_count() {
            self.catch_up_at(at, listener)?;
        }
        Ok(())
    }

    /// Refreshes a tree that is behind its frame.
    fn catch_up_at<A: Listener>(&mut self, at: usize, listener: &mut A) -> Result<(), NoMemory>
        requires { at < length self.old.frames }
        ensures { Hears A.heard (AtFrame at (λ f. CatchesUp f.tree)) (is_ok result) self.old self.new listener.old listener.new }
    {
        if self.is_behind(at) {
            self.refresh(at, listener)
        } else {
            Ok(())
        }
    }

    /// Asks, delivers, passes and receives.
    fn refresh<A: Listener>(&mut self, at: usize, listener: &mut A) -> Result<(), NoMemory>
        requires place { at < length self.old.frames }
        requires live { (f : FrameRun) → slice_get self.old.frames at ≡ Some f → is_gone self.old.history f.tree ≡ false }
        ensures { Hears A.heard (AtFrame at (λ f. Refreshes f.tree)) (is_ok result) self.old self.new listener.old listener.new }
    {
        let tree = self.tree_at(at);
        let delivery = self.ask(at, listener)?;
        self.tell_if(delivery, listener)?;
        self.pass(at, listener)?;
        self.tell(&Item::Receive(tree), listener)
    }

    /// Asks for the tree of a frame, and gives the delivery of its token.
    fn ask<A: Listener>(&mut self, at: usize, listener: &mut A) -> Result<Option<Item>, NoMemory>
        requires { at < length self.old.frames }
        ensures asked { Hears A.heard (AtFrame at (λ f. Asks f.tree)) (is_ok result) self.old self.new listener.old listener.new }
        ensures delivery { IfOk result (λ item. (f : FrameRun) → slice_get self.old.frames at ≡ Some f → option_to_list item ≡ delivery_of self.old (browsers.Ask f.tree)) }
    {
        let tree = self.seats[at].frame().tree();
        let line = ask(&mut self.forest, tree)?;
        let delivery = delivery_in(&line);
        listener.hear(line)?;
        Ok(delivery)
    }

    /// The frame passes, whatever is left of its operations.
    fn pass<A: Listener>(&mut self, at: usize, listener: &mut A) -> Result<(), NoMemory>
        requires { at < length self.old.frames }
        ensures { Hears A.heard (AtFrame at (λ f. Passes f.tree)) (is_ok result) self.old self.new listener.old listener.new }
    {
        let line = self.seats[at].pass()?;
        listener.hear(line)
    }

    fn answer_queries<A: Listener>(&mut self, listener: &mut A) -> Result<(), NoMemory>
        ensures { Hears A.heard (Turns (queries_left self.old)) (is_ok result) self.old self.new listener.old listener.new }
    {
        for at in 0..self.reader_count() {
            self.answer_queries_at(at, listener)?;
        }
        Ok(())
    }

    /// Answers all queries of the reader at a place, from 0.
    fn answer_queries_at<A: Listener>(
        &mut self,
        at: usize,
        listener: &mut A,
    ) -> Result<(), NoMemory>
        requires { at < length self.old.readers }
        ensures { Hears A.heard (AtReader at (λ q. Turns (replicate (length q) (items.Reader (at + 1))))) (is_ok result) self.old self.new listener.old listener.new }
    {
        let (item, times) = self.queries_at(at);
        self.tell_times(&item, times, listener)
    }
}

/// How much is left.
impl Core {
    fn frame_count(&self) -> usize
        ensures count { result ≡ length self.now.frames }
        ensures apart { NoneTwice (trees_of self.now) }
    {
        self.seats.len()
    }

    fn browser_count(&self) -> usize
        ensures { result ≡ length self.now.browser }
    {
        self.browser.len()
    }

    fn reader_count(&self) -> usize
        ensures { result ≡ length self.now.readers }
    {
        self.readers.len()
    }

    fn tree_at(&self, at: usize) -> TreeId
        requires { at < length self.now.frames }
        ensures { (f : FrameRun) → slice_get self.now.frames at ≡ Some f → result ≡ f.tree }
    {
        self.seats[at].frame().tree()
    }

    /// The item of a frame's next operation, and how many operations are left.
    fn operations_at(&self, at: usize) -> (Item, usize)
        requires { at < length self.now.frames }
        ensures { (f : FrameRun) → slice_get self.now.frames at ≡ Some f → (result.0 ≡ items.Frame f.tree) × (result.1 ≡ length f.left) }
    {
        let seat = &self.seats[at];
        (Item::Frame(seat.frame().tree()), seat.left())
    }

    /// The item of the receipt of a frame's oldest packet, and how many packets wait.
    fn packets_at(&self, at: usize) -> (Item, usize)
        requires { at < length self.now.frames }
        ensures { (f : FrameRun) → slice_get self.now.frames at ≡ Some f → (result.0 ≡ items.Receive f.tree) × (result.1 ≡ length f.waiting) }
    {
        let seat = &self.seats[at];
        (Item::Receive(seat.frame().tree()), seat.waits())
    }

    /// The item of a reader's next query, and how many queries are left.
    fn queries_at(&self, at: usize) -> (Item, usize)
        requires { at < length self.now.readers }
        ensures { (q : List TimedQuery) → slice_get self.now.readers at ≡ Some q → (result.0 ≡ items.Reader (at + 1)) × (result.1 ≡ length q) }
    {
        let reader = &self.readers[at];
        (Item::Reader(at + 1), reader.len())
    }

    /// Whether a live tree, whose frame has a root, may not be the source.
    fn is_behind(&self, at: usize) -> bool
        requires { at < length self.now.frames }
        ensures behind { (f : FrameRun) → slice_get self.now.frames at ≡ Some f → result ≡ is_behind self.now f }
        ensures apart { NoneTwice (trees_of self.now) }
    {
        let frame = self.seats[at].frame();
        let tree = frame.tree();
        let live = self.forest.live(tree);
        let rooted = frame.source().root().is_some();
        let differs = self.forest.at(tree) != frame.passes();
        let pends = frame.pending();
        is_due(live, rooted, differs, pends)
    }
}

/// Whether a tree is refreshed: it is live, its frame has a root, and the frame has passed on or has something to send.
fn is_due(live: bool, rooted: bool, differs: bool, pends: bool) -> bool
    ensures { result ≡ (live && (rooted && (differs || pends))) }
{
    live && rooted && (differs || pends)
}

/// The delivery of the token that the line tells.
fn delivery_in(line: &Line) -> Option<Item>
    ensures { result ≡ delivery_in line.now }
{
    match line {
        Line::Asked {
            tree,
            token: Some(token),
        } => Some(Item::Deliver(*tree, *token)),
        _ => None,
    }
}
