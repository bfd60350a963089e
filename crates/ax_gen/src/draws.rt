//! The draws of a generator.
ghost use Rattle.std.specs.Prelude.{◌≡◌, ◌+◌, ◌<◌, ◌^◌, ◌/◌, ◌%◌};
ghost use Rattle.ax_gen.specs.Draws.{next_word, high_of};

use ax_base::NodeId;

const FACTOR: u64 = 6_364_136_223_846_793_005;

const STEP: u64 = 1_442_695_040_888_963_407;
// A draw is the word without its low 33 bits.
const LOW: u64 = 8_589_934_592;

/// A generator of draws.
#[derive(Debug, Drop)]
pub(crate) struct Draws {
    pub word: u64,
}

impl Draws {
    pub fn next(&mut self) -> u64
        ensures word { self.new.word ≡ next_word self.old.word }
        ensures draw { result ≡ high_of self.new.word }
    {
        self.word = self.word.wrapping_mul(FACTOR).wrapping_add(STEP);
        self.word / LOW
    }

    /// One of the nodes 1 to `nodes`.
    pub fn pick(&mut self, nodes: u32) -> NodeId
        requires some { 0 < nodes }
        requires below { nodes < 2 ^ 31 }
        ensures word { self.new.word ≡ next_word self.old.word }
        ensures node { result ≡ high_of self.new.word % nodes + 1 }
    {
        let number = (self.next() % nodes as u64) as u32 + 1;
        match NodeId::new(number) {
            Some(node) => node,
            None => unreachable!(),
        }
    }
}
