// A segment of lengths: each place adds its cost at its dates, a bitmap of two levels marks them, and the marked lengths are taken in
// rising order.
ghost use Rattle.std.specs.Prelude.{◌≡◌, ℕ, ◌+◌, ◌≤◌, IfOk, length, get_or};
ghost use Rattle.places.specs.Dates.{most_bound};
ghost use Rattle.exact_test.specs.Segments.{ticks, most_next, IsWord, Added, Fit, at_date, dated, Addable, Full, Zero, sweep_of, total};

use model::{Element, Verdict};
use places::dates::{NONE_LEFT, Place, place_of};
use std::marker::Model;

// The ticks of a segment, and the words that have a bit for each.
pub(crate) const TICKS: usize = 4096;

pub(crate) const WORDS: usize = 64;

// What is due at each tick; the bits of the ticks where something is, and of the words that have such a bit.
#[derive(Drop)]
pub(crate) struct Segment {
    pub(crate) due: [u64; TICKS],
    pub(crate) marks: [u64; WORDS],
    pub(crate) seen: u64,
}

impl Model for Segment {
    ghost use Rattle.std.specs.Prelude.{ℕ, List};
    ghost use Rattle.exact_test.specs.Segments.{Marked};

    ghost Value = { List ℕ };

    ghost view = { λ s. s.due };

    ghost invariant = { λ s. Marked s.due s.marks s.seen };
}

// The demand at the last length compared, and how many are.
#[derive(Clone, Copy)]
pub(crate) struct Compared {
    pub(crate) demand: u64,
    pub(crate) count: u64,
}

impl Segment {
    // Adds a place's cost at its dates below base + len; gives its next date.
    fn add_dates(&mut self, place: Place, base: u64, len: u64) -> u64
        requires fit { Fit place base }
        requires len_fits { (len ≤ ticks) × (base + len ≤ most_bound) }
        requires sums_fit { (y : ℕ) → IsWord (get_or self.old y 0 + place.cost) }
        ensures { Added self.old self.new place (at_date place result) base len }
    {
        let mut j = place.next - base;
        let mut seen = self.seen;
        while j < len {
            let tick = j as usize;
            self.due[tick] += place.cost;
            let word = tick / 64;
            self.marks[word] |= 1 << (tick % 64);
            seen |= 1 << word;
            j += place.step;
        }
        self.seen = seen;
        base + j
    }

    // Adds the elements' dates below base + len, from the next of each on, and moves these on; gives the least of them.
    pub(crate) fn fill(
        &mut self,
        elements: &[Element],
        next: &mut [u64],
        base: u64,
        len: u64,
    ) -> u64
        requires nothing_due { Zero self.old }
        requires long { length next.old ≡ length elements.now }
        requires addable { Addable (dated elements.now next.old) base }
        requires len_fits { (len ≤ ticks) × (base + len ≤ most_bound) }
        ensures { Full (dated elements.now next.old) (dated elements.now next.new) self.new base len result }
    {
        let mut low = NONE_LEFT;
        for (i, e) in elements.iter().enumerate() {
            if next[i] < base + len {
                let place = Place {
                    next: next[i],
                    ..place_of(*e)
                };
                next[i] = self.add_dates(place, base, len);
            }
            low = low.min(next[i]);
        }
        low
    }

    // Takes the marked lengths in rising order; where there is no overrun, nothing is left.
    pub(crate) fn sweep(&mut self, base: u64, mut compared: Compared) -> Result<Compared, Verdict>
        requires sums_fit { IsWord (compared.demand + total self.old) × IsWord (compared.count + total self.old) }
        requires base_small { base ≤ most_next }
        ensures value { result ≡ sweep_of self.old base compared }
        ensures left { IfOk result (λ _. Zero self.new) }
    {
        let mut words = self.seen;
        while words != 0 {
            let k = words.trailing_zeros() as usize;
            words &= words - 1;
            let mut w = self.marks[k];
            self.marks[k] = 0;
            while w != 0 {
                let tick = k * 64 + w.trailing_zeros() as usize;
                compared.demand += self.due[tick];
                self.due[tick] = 0;
                compared.count += 1;
                let at = base + tick as u64;
                if at < compared.demand {
                    self.marks[k] = w & (w - 1);
                    return Err(Verdict::Overrun {
                        interval: at,
                        demand: compared.demand,
                        count: compared.count,
                    });
                }
                w &= w - 1;
            }
        }
        self.seen = 0;
        Ok(compared)
    }
}
