//! A memory by the rules alone, which plain_memory is held against.
use crate::memory_steps::{Outcome, Step, WORDS};
use line_memory::{Chance, Stopped};
use std::alloc::{AllocError, Global};

/// What all steps of the script answer and leave by the rules alone.
pub fn run_naively<C: Chance>(
    alloc: Global,
    chance: C,
    budget: u64,
    script: &[Step],
) -> Result<Outcome, AllocError> {
    let mut naive = Naive::new(alloc);
    let answers = naive.answer_all(alloc, chance, budget, script)?;
    naive.finish(answers)
}

/// A memory by the rules alone: whole arrays, and no list of lines.
#[derive(Drop)]
struct Naive {
    volatile: [u64; WORDS],
    durable: [u64; WORDS],
    pending: [bool; WORDS],
    stores: Vec<u64>,
    drawn: u64,
    stopped: Option<Stopped>,
}

impl Naive {
    fn new(alloc: Global) -> Naive {
        Naive {
            volatile: [0; WORDS],
            durable: [0; WORDS],
            pending: [false; WORDS],
            stores: Vec::new(alloc),
            drawn: 0,
            stopped: None,
        }
    }

    /// What is left, with these answers.
    fn finish(self, answers: Vec<Result<u64, Stopped>>) -> Result<Outcome, AllocError> {
        let alloc = *self.stores.allocator();
        Ok(Outcome {
            answers,
            volatile: Vec::from_slice(alloc, &self.volatile)?,
            durable: Vec::from_slice(alloc, &self.durable)?,
        })
    }

    /// What each step of the script answers.
    fn answer_all<C: Chance>(
        &mut self,
        alloc: Global,
        mut chance: C,
        budget: u64,
        script: &[Step],
    ) -> Result<Vec<Result<u64, Stopped>>, AllocError> {
        let mut answers = Vec::new(alloc);
        for step in script {
            answers.push(self.answer(&mut chance, budget, *step)?)?;
        }
        Ok(answers)
    }

    /// Draws a ticket, unless one was refused, and takes the step.
    fn answer<C: Chance>(
        &mut self,
        chance: &mut C,
        budget: u64,
        step: Step,
    ) -> Result<Result<u64, Stopped>, AllocError> {
        if self.stopped.is_none() {
            self.write_back_early(chance.draw());
            self.draw(budget);
        }
        match self.stopped {
            None => Ok(Ok(self.take(step)?)),
            Some(stopped) => Ok(Err(stopped)),
        }
    }

    fn write_back_early(&mut self, number: u64) {
        let nth = (number / 2 % 16) as usize;
        if number % 2 == 1 && nth < self.stores.len() {
            let word = self.stores[self.stores.len() - 1 - nth] as usize;
            if word < WORDS {
                self.durable[word] = self.volatile[word];
            }
        }
    }

    fn draw(&mut self, budget: u64) {
        if self.drawn >= budget {
            self.stopped = Some(Stopped { step: self.drawn });
        }
        self.drawn = self.drawn.wrapping_add(1);
    }

    fn take(&mut self, step: Step) -> Result<u64, AllocError> {
        match step {
            Step::Load(word) if word < 20 => return Ok(self.volatile[word as usize]),
            Step::Store(word, value) if word < 20 => {
                self.stores.push(word)?;
                self.volatile[word as usize] = value;
                self.pending[word as usize] = false;
            }
            Step::WriteBack(line) => self.mark(line),
            Step::Fence => self.complete(),
            _ => {}
        }
        Ok(0)
    }

    fn mark(&mut self, line: u64) {
        for word in 0..WORDS {
            if word as u64 / 8 == line {
                self.pending[word] = true;
            }
        }
    }

    fn complete(&mut self) {
        for word in 0..WORDS {
            if self.pending[word] {
                self.durable[word] = self.volatile[word];
                self.pending[word] = false;
            }
        }
    }
}
