// A call with every tuple of operands from the lists, the first operand slowest.
use crate::answer::{Answer, with_answer};
use crate::boxes::{Ends, each_box};
use crate::calls::{make, make_of_box, make_of_boxes, make_of_sets};
use crate::names::{Call, CallOfDoubles, CallOfSets};
use arrayvec::ArrayVec;
use replay_text::digest::Digest;
use replay_text::words::List;
use std::fmt;

// The most intervals that boxes are made of.
pub const MOST_INTERVALS: usize = 6;

// The most boxes that the intervals make.
const MOST_BOXES: usize = MOST_INTERVALS
    * MOST_INTERVALS
    * (MOST_INTERVALS + 1)
    * (MOST_INTERVALS + 1);

// A sweep ends after so many calls, the most that two boxes make.
const MOST_CALLS: usize = MOST_BOXES * MOST_BOXES;

// What the operands are taken from, at first nothing.
#[derive(Default, Drop)]
pub struct Lists {
    pub values: List<f64>,
    pub intervals: ArrayVec<Ends, MOST_INTERVALS>,
    pub sets: List<u32>,
}

impl Lists {
    // Makes the calls.
    pub fn sweep(&self, call: Call) -> Swept {
        let values = self.values.as_slice();
        let intervals = self.intervals.as_slice();
        let mut swept = Swept::default();
        match call {
            Call::Doubles(call) => swept.sweep_doubles(call, values),
            Call::OneBox(call) => each_box(intervals, |b| swept.add(make_of_box(call, b))),
            Call::ExpandBox => each_box(intervals, |b| {
                for distance in values {
                    swept.add(b.expand_by(*distance).into());
                }
            }),
            Call::TwoBoxes(call) => each_box(intervals, |b| {
                each_box(intervals, |other| swept.add(make_of_boxes(call, b, other)))
            }),
            Call::Sets(call) => swept.sweep_sets(call, self.sets.as_slice()),
        }
        swept
    }
}

// How many calls were made, and the digest of their answers.
#[derive(Clone, Copy, Default)]
pub struct Swept {
    count: usize,
    digest: Digest,
}

impl Swept {
    // Adds the answer of a call more, where the sweep has not ended.
    fn add(&mut self, answer: Answer) {
        if self.count < MOST_CALLS {
            self.count += 1;
            self.digest = with_answer(self.digest, answer);
        }
    }

    // Adds the calls that take doubles.
    fn sweep_doubles(&mut self, call: CallOfDoubles, values: &[f64]) {
        let count = call.operands();
        for a in taken(values, &[0.0], count > 0) {
            for b in taken(values, &[0.0], count > 1) {
                for c in taken(values, &[0.0], count > 2) {
                    for d in taken(values, &[0.0], count > 3) {
                        self.add(make(call, [*a, *b, *c, *d]));
                    }
                }
            }
        }
    }

    // Adds the calls that take type sets.
    fn sweep_sets(&mut self, call: CallOfSets, sets: &[u32]) {
        let count = call.operands();
        for a in taken(sets, &[0], count > 0) {
            for b in taken(sets, &[0], count > 1) {
                self.add(make_of_sets(call, [*a, *b]));
            }
        }
    }
}

impl fmt::Display for Swept {
    fn fmt<W: fmt::Write>(&self, f: &mut fmt::Formatter<W>) -> fmt::Result {
        write!(f, "{} {}", self.count, self.digest)
    }
}

// The list of an operand that is taken; 0 alone where none is.
fn taken<'a, T>(list: &'a [T], zero: &'a [T; 1], is_taken: bool) -> &'a [T] {
    if is_taken { list } else { zero }
}
