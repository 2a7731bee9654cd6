ghost use Rattle.std.specs.Prelude.{◌≡◌, ◌+◌, ◌^◌, ◌<◌, ◌≤◌, [], ◌∷◌, ◌++◌, length, MatchResult};
ghost use Rattle.std.specs.List.{zip, flat_map, AllByRecursion};
ghost use Rattle.picture.specs.Bodies.{Within};
ghost use Rattle.words.specs.Format.{arc_word, state_words, edge_words};
ghost use Rattle.words.specs.Wrong.{state_pieces, arc_pieces, NoWeight, NoArc, FirstWrong};
ghost use Rattle.words.specs.declared.fault.PieceFault.TheVariants.{WrongWeight};

use crate::arc::read_arc;
use crate::fault::{ArcFault, PieceFault, WeightFault, WordFault};
use crate::head::Counts;
use picture::{ARC_WEIGHTS, Arc, LAST_WEIGHTS, MAX_ARCS, NO_ARC, Record};
use std::marker::PhantomData;
use weight::Written;

/// Reads words in place, and keeps its position, which cannot wrap.
#[derive(Drop)]
pub(crate) struct Reader<'a, W: Written> {
    pub rest: &'a [u32],
    pub position: usize,
    pub kind: PhantomData<W>,
    ghost fits: { position + length rest.now < 2 ^ 64 },
    ghost narrow: { W.writing.width < 9 },
}

impl<W: Written> Reader<'_, W> {
    ghost use Rattle.words.specs.Inner.{Took, Passed, ReadBody};

    /// The next word.
    fn word(&mut self) -> Result<u32, WordFault>
        ensures { MatchResult result (λ w. Took (w ∷ []) self.old self.new) (λ f. (f.index ≡ self.old.position) × (self.old.rest.now ≡ [])) }
    {
        let [word, rest @ ..] = self.rest else {
            return Err(WordFault {
                index: self.position,
            });
        };
        self.rest = rest;
        self.position += 1;
        Ok(*word)
    }

    /// The next arc, with ends below n.
    fn arc(&mut self, n: u8) -> Result<Arc, ArcFault>
        ensures { MatchResult result (λ a. Within n a × Took (arc_word a ∷ []) self.old self.new) (λ f. (f.word.index ≡ self.old.position) × NoArc n self.old.rest.now) }
    {
        let index = self.position;
        let word = self.word()?;
        read_arc(word, n).ok_or(ArcFault {
            word: WordFault { index },
        })
    }

    /// The next weight.
    fn weight(&mut self) -> Result<W, WeightFault>
        ensures { MatchResult result (λ v. Took (W.writing.words v) self.old self.new) (λ f. (f.word.index ≡ self.old.position) × NoWeight {W = W} W.writing self.old.rest.now) }
    {
        let wrong = WeightFault {
            word: WordFault {
                index: self.position,
            },
        };
        let c = W::width();
        let (front, back) = self.rest.split_at_checked(c).ok_or(wrong)?;
        let v = W::read(front).ok_or(wrong)?;
        self.rest = back;
        self.position += c;
        Ok(v)
    }

    /// The first and last weights of states.
    // `both` is a fact of two slices, and of no one type.
    fn states(&mut self, firsts: &mut [W], lasts: &mut [W]) -> Result<(), WeightFault>
        requires both { length lasts.old ≡ length firsts.old }
        ensures { MatchResult result (λ _. Took (flat_map (state_words W.writing) (zip firsts.new lasts.new)) self.old self.new × Passed {W = W} W.writing (length firsts.old) (state_pieces (length firsts.old)) self.old self.new) (λ f. FirstWrong {W = W} W.writing (length firsts.old) (state_pieces (length firsts.old)) self.old.rest.now self.old.position (WrongWeight f)) }
    {
        // By index: once an `iter_mut` inside a `zip` is done, a proof knows nothing of what was written.
        for (q, first) in firsts.iter_mut().enumerate() {
            *first = self.weight()?;
            lasts[q] = self.weight()?;
        }
        Ok(())
    }

    /// Arcs with ends below n, and their weights.
    fn arcs(&mut self, n: u8, arcs: &mut [Arc], weights: &mut [W]) -> Result<(), PieceFault>
        requires both { length arcs.old ≡ length weights.old }
        ensures { MatchResult result (λ _. AllByRecursion (Within n) arcs.new × Took (flat_map (edge_words W.writing) (zip arcs.new weights.new)) self.old self.new) (FirstWrong {W = W} W.writing n (arc_pieces (length weights.old)) self.old.rest.now self.old.position) }
    {
        // By index: once an `iter_mut` inside a `zip` is done, a proof knows nothing of what was written.
        for (k, arc) in arcs.iter_mut().enumerate() {
            *arc = self.arc(n)?;
            weights[k] = self.weight()?;
        }
        Ok(())
    }

    /// What stands behind a head.
    // The length is a clause, and no array type: memory is lent as one slice and cut while the program runs.
    pub(crate) fn body(&mut self, counts: Counts, weights: &mut [W]) -> Result<Record, PieceFault>
        requires room { length weights.old ≡ 640 }
        ensures { MatchResult result (ReadBody W.writing counts weights.new self.old self.new) (FirstWrong {W = W} W.writing counts.states (state_pieces counts.states ++ arc_pieces counts.arcs) self.old.rest.now self.old.position) }
    {
        let n = counts.states as usize;
        let (firsts, others) = weights.split_at_mut(LAST_WEIGHTS);
        self.states(&mut firsts[0..n], &mut others[0..n])?;
        let m = counts.arcs as usize;
        let mut arcs = [NO_ARC; MAX_ARCS];
        let all = &mut arcs[..];
        let own = &mut weights[ARC_WEIGHTS..ARC_WEIGHTS + m];
        self.arcs(counts.states, &mut all[0..m], own)?;
        Ok(Record {
            states: counts.states,
            count: counts.arcs,
            arcs,
        })
    }
}
