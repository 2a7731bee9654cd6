ghost use Rattle.std.specs.Prelude.{◌≡◌, ◌+◌, ◌*◌, ◌<◌, ◌≤◌, [], ◌∷◌, length};
ghost use Rattle.std.specs.List.{zip, flat_map};
ghost use Rattle.words.specs.Format.{arc_word, state_words, edge_words};

use crate::arc::arc_word;
use picture::Arc;
use std::marker::PhantomData;
use weight::Written;

/// Writes words in place, and keeps its position.
// It writes into lent memory (no heap), so it holds a slice and a position.
#[derive(Drop)]
pub(crate) struct Writer<'a, W: Written> {
    pub out: &'a mut [u32],
    pub position: usize,
    pub kind: PhantomData<W>,
    ghost narrow: { W.writing.width < 9 },
}

impl<W: Written> Writer<'_, W> {
    ghost use Rattle.words.specs.Inner.{Put};

    /// Writes a word.
    pub(crate) fn word(&mut self, word: u32)
        requires { self.old.position < length self.old.out.now }
        ensures { Put (word ∷ []) self.old self.new }
    {
        self.out[self.position] = word;
        self.position += 1;
    }

    /// Writes the words of a weight.
    fn weight(&mut self, value: W)
        requires room { self.old.position + W.writing.width ≤ length self.old.out.now }
        ensures { Put (W.writing.words value) self.old self.new }
    {
        // A kind gives the words of a value one at a time, by their index.
        for i in 0..W::width() {
            self.word(value.word(i));
        }
    }

    /// Writes the words of states, by their first and last weights.
    // `both` is a fact of two slices, and of no one type.
    pub(crate) fn states(&mut self, firsts: &[W], lasts: &[W])
        requires both { length lasts.now ≡ length firsts.now }
        requires room { self.old.position + length firsts.now * (2 * W.writing.width) ≤ length self.old.out.now }
        ensures { Put (flat_map (state_words W.writing) (zip firsts.now lasts.now)) self.old self.new }
    {
        for (first, last) in firsts.iter().zip(lasts) {
            self.weight(*first);
            self.weight(*last);
        }
    }

    /// Writes the words of arcs and their weights.
    pub(crate) fn arcs(&mut self, arcs: &[Arc], weights: &[W])
        requires both { length weights.now ≡ length arcs.now }
        requires room { self.old.position + length arcs.now * (1 + W.writing.width) ≤ length self.old.out.now }
        ensures { Put (flat_map (edge_words W.writing) (zip arcs.now weights.now)) self.old self.new }
    {
        for (arc, weight) in arcs.iter().zip(weights) {
            self.word(arc_word(*arc));
            self.weight(*weight);
        }
    }
}
