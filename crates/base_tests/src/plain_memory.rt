//! The rules of the memory against a naive recomputation, and cases told by hand.
ghost use Rattle.std.specs.Prelude.{◌≡◌, IfOk};
ghost use Rattle.line_memory.specs.Plain.{view_of};
ghost use Rattle.line_memory.specs.View.{word_count};

use crate::asserts::{count_of, must_hold, three_columns};
use crate::images::two_numbers;
use crate::memory_steps::{Outcome, Step, WORDS, steps};
use crate::naive_memory::run_naively;
use line_memory::{Chance, ConstantChance, LineMemory, PlainMemory, Stopped, persist};
use std::alloc::{AllocError, Global};
use std::process::Abort;
use std::test::Fail;
use test_images::number;

/// Counts up, so that each of the recent stores has its turn.
#[derive(Clone, Copy, Drop)]
struct Counted {
    next: u64,
}

impl Chance for Counted {
    fn draw(&mut self) -> u64 {
        self.next = self.next.wrapping_add(1);
        self.next
    }
}

/// Takes the step, and gives what a load saw, or else 0.
fn take<M: LineMemory>(memory: &mut M, step: Step) -> Result<u64, Stopped>
    requires { word_count (M.view memory.old) ≡ 20 }
    ensures { word_count (M.view memory.new) ≡ 20 }
{
    match step {
        Step::Load(word) if word < 20 => return memory.load(word),
        Step::Store(word, value) if word < 20 => memory.store(word, value)?,
        Step::WriteBack(line) if line < 3 => memory.write_back(line)?,
        Step::Fence => memory.fence()?,
        _ => {}
    }
    Ok(0)
}

/// A memory of zeros.
fn zeros<C: Chance>(alloc: Global, chance: C, budget: u64) -> Result<PlainMemory<C>, AllocError>
    ensures { IfOk result (λ memory. word_count (view_of memory) ≡ 20) }
{
    PlainMemory::new(alloc, vec![in alloc; 0; WORDS]?, budget, chance)
}

/// Takes all steps of the script, and gives what each answers.
fn take_all<C: Chance>(
    alloc: Global,
    memory: &mut PlainMemory<C>,
    script: &[Step],
) -> Result<Vec<Result<u64, Stopped>>, AllocError>
    requires { word_count (view_of memory.old) ≡ 20 }
{
    let mut answers = Vec::new(alloc);
    for step in script {
        answers.push(take(memory, *step))?;
    }
    Ok(answers)
}

/// What all steps of the script answer and leave, on a memory of zeros.
fn run<C: Chance>(
    alloc: Global,
    chance: C,
    budget: u64,
    script: &[Step],
) -> Result<Outcome, AllocError> {
    let mut memory = zeros(alloc, chance, budget)?;
    let answers = take_all(alloc, &mut memory, script)?;
    let closed = memory.finish();
    Ok(Outcome {
        answers,
        volatile: closed.now,
        durable: closed.kept,
    })
}

/// Twenty steps: stores in each line, some again after the write-back, and two fences.
const SCRIPT: &str = "store 3 31, store 4 41, store 3 32, write-back 0, store 3 33, store 9 91, \
    fence, load 3, write-back 0, write-back 1, store 9 92, store 19 191, write-back 2, \
    store 18 181, write-back 1, store 4 42, fence, load 9, store 4 43, fence";

/// Asserts that a run with so many steps answers and leaves what the rules say.
fn must_agree<C: Chance + Copy>(
    rt: &(impl Abort + AllocGlobal),
    chance: C,
    budget: u64,
    script: &[Step],
) -> Result<(), AllocError> {
    let real = run(rt.alloc(), chance, budget, script)?;
    let naive = run_naively(rt.alloc(), chance, budget, script)?;
    must_be_same(rt, &real, &naive);
    Ok(())
}

/// Asserts that the outcome is this one.
fn must_be_same(rt: &impl Abort, outcome: &Outcome, wanted: &Outcome) {
    let (answers, volatile, durable) = (&wanted.answers, &wanted.volatile, &wanted.durable);
    must_hold(
        rt,
        outcome.answers.as_slice() == answers.as_slice(),
        "the answers",
    );
    must_hold(
        rt,
        outcome.volatile.as_slice() == volatile.as_slice(),
        "the volatile words",
    );
    must_hold(
        rt,
        outcome.durable.as_slice() == durable.as_slice(),
        "the durable words",
    );
}

/// The same with nothing written back early, all that can be, and from each of 32 numbers on.
fn must_agree_by_each_chance(
    rt: &(impl Abort + AllocGlobal),
    budget: u64,
    script: &[Step],
) -> Result<(), AllocError> {
    must_agree(rt, ConstantChance(0), budget, script)?;
    must_agree(rt, ConstantChance(1), budget, script)?;
    for next in 0..32 {
        must_agree(rt, Counted { next }, budget, script)?;
    }
    Ok(())
}

#[test]
fn each_stop_of_twenty_steps_leaves_what_the_rules_say(rt: HostRuntime) -> Result<(), Fail> {
    let script = steps(rt.alloc(), SCRIPT)?;
    for budget in 0..22 {
        must_agree_by_each_chance(&rt, budget, &script)?;
    }
    Ok(())
}

/// How many steps a script may take, and the values of durable words then, with nothing written
/// back early.
const LEFT: &str = "
# A store after the write-back waits for the next.
4 | store 3 1, store 3 2, write-back 0, store 3 5, fence, write-back 0, fence | 3 0, 4 0, 9 0
5 | store 3 1, store 3 2, write-back 0, store 3 5, fence, write-back 0, fence | 3 0, 4 0, 9 0
7 | store 3 1, store 3 2, write-back 0, store 3 5, fence, write-back 0, fence | 3 5, 4 0, 9 0
# A line is written back whole, and no other.
4 | store 3 1, store 4 2, store 9 7, write-back 0, fence | 3 0, 4 0, 9 0
5 | store 3 1, store 4 2, store 9 7, write-back 0, fence | 3 1, 4 2, 9 0
";

/// The word that is told, or the greatest behind the end.
fn word(words: &[u64], at: usize) -> u64 {
    words.get(at).copied().unwrap_or(u64::MAX)
}

/// What a run that may take so many steps leaves durable, with nothing written back early.
fn durable_after(alloc: Global, budget: &str, script: &str) -> Result<Vec<u64>, Fail> {
    let script = steps(alloc, script)?;
    let outcome = run(alloc, ConstantChance(0), number(budget)?, &script)?;
    Ok(outcome.durable)
}

/// Asserts what a row tells.
fn must_leave(rt: &(impl Abort + AllocGlobal), row: &str) -> Result<(), Fail> {
    let (budget, script, wanted) = three_columns(row)?;
    let durable = durable_after(rt.alloc(), budget, script)?;
    must_have(rt, &durable, wanted, row)
}

/// Asserts that the words have the values told.
fn must_have(rt: &impl Abort, words: &[u64], told: &str, row: &str) -> Result<(), Fail> {
    for pair in told.split(", ") {
        let (at, value) = two_numbers(pair, ' ')?;
        must_hold(rt, word(words, at as usize) == value, row);
    }
    Ok(())
}

#[test]
fn what_was_written_back_before_a_fence_is_durable(rt: HostRuntime) -> Result<(), Fail> {
    for line in LEFT.trim().split('\n') {
        if !line.starts_with('#') {
            must_leave(&rt, line)?;
        }
    }
    Ok(())
}

/// Whether twenty answers are given, and the steps are refused from the budget on.
fn stop_at(answers: &[Result<u64, Stopped>], budget: u64) -> bool {
    for (step, answer) in answers.iter().enumerate() {
        let is_right = if (step as u64) < budget {
            answer.is_ok()
        } else {
            *answer == Err(Stopped { step: budget })
        };
        if !is_right {
            return false;
        }
    }
    answers.len() == 20
}

#[test]
fn a_memory_stops_at_its_budget_and_stays_so(rt: HostRuntime) -> Result<(), Fail> {
    let script = steps(rt.alloc(), SCRIPT)?;
    for budget in 0..4 {
        let outcome = run(rt.alloc(), ConstantChance(0), budget, &script)?;
        must_hold(&rt, stop_at(&outcome.answers, budget), "it stops");
    }
    Ok(())
}

/// What is durable after 17 stores of 9 to words of their own.
fn written_back_early(alloc: Global, number: u64) -> Result<Vec<u64>, AllocError> {
    let mut script = Vec::new(alloc);
    for word in 0..17 {
        script.push(Step::Store(word, 9))?;
    }
    Ok(run(alloc, ConstantChance(number), 17, &script)?.durable)
}

/// Asserts that so many of these words are durable, the first among them where one is.
fn must_write_back(
    rt: &(impl Abort + AllocGlobal),
    number: u64,
    count: usize,
) -> Result<(), AllocError> {
    let durable = written_back_early(rt.alloc(), number)?;
    must_hold(rt, count_of(&durable, 9) == count, "how many");
    must_hold(rt, (word(&durable, 0) == 9) == (count != 0), "the first");
    Ok(())
}

/// Numbers that are drawn 17 times, and how many stores each has written back. The last draw is the
/// only one after which there are sixteen stores.
const WRITTEN_BACK: [(u64, usize); 8] = [
    (0, 0),
    (1, 16),
    (2, 0),
    (3, 15),
    (29, 2),
    (31, 1),
    (33, 16),
    (63, 1),
];

#[test]
fn an_odd_number_names_one_of_the_last_sixteen_stores(rt: HostRuntime) -> Result<(), Fail> {
    for (number, count) in WRITTEN_BACK {
        must_write_back(&rt, number, count)?;
    }
    Ok(())
}

#[test]
fn a_word_that_is_persisted_is_durable(rt: HostRuntime) -> Result<(), Fail> {
    let mut memory = zeros(rt.alloc(), ConstantChance(0), 3)?;
    let first = persist(&mut memory, 17, 5);
    must_hold(&rt, first == Ok(()), "the first");
    let second = persist(&mut memory, 18, 6);
    must_hold(&rt, second == Err(Stopped { step: 3 }), "the second");
    let closed = memory.finish();
    must_hold(&rt, word(&closed.kept, 17) == 5, "it is durable");
    must_hold(&rt, word(&closed.now, 18) == 0, "it was not stored");
    Ok(())
}
