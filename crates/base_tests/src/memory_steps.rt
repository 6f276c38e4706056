//! Scripts of steps over a memory of twenty words, as a test tells them.
use line_memory::Stopped;
use std::alloc::Global;
use std::test::Fail;
use test_images::number;

/// The memory of each test: three lines, the last with four words.
pub const WORDS: usize = 20;

/// A step of a script.
#[derive(Clone, Copy)]
pub enum Step {
    Load(u64),
    Store(u64, u64),
    WriteBack(u64),
    Fence,
}

/// The step told as `load 3`, `store 3 31`, `write-back 0` or `fence`.
fn read_step(text: &str) -> Result<Step, Fail> {
    let (kind, numbers) = text.split_once(' ').unwrap_or((text, "0"));
    let (at, value) = operands(numbers)?;
    step_of(kind, at, value)
}

/// One number or two; 0 stands for the second.
fn operands(text: &str) -> Result<(u64, u64), Fail> {
    let (at, value) = text.split_once(' ').unwrap_or((text, "0"));
    Ok((number(at)?, number(value)?))
}

/// The step of this kind.
fn step_of(kind: &str, at: u64, value: u64) -> Result<Step, Fail> {
    match kind {
        "load" => Ok(Step::Load(at)),
        "store" => Ok(Step::Store(at, value)),
        "write-back" => Ok(Step::WriteBack(at)),
        "fence" => Ok(Step::Fence),
        _ => Err("no step".into()),
    }
}

/// The steps of a script.
pub fn steps(alloc: Global, script: &str) -> Result<Vec<Step>, Fail> {
    let mut steps = Vec::new(alloc);
    for text in script.split(", ") {
        steps.push(read_step(text)?)?;
    }
    Ok(steps)
}

/// What a run answered and left.
#[derive(Drop)]
pub struct Outcome {
    pub answers: Vec<Result<u64, Stopped>>,
    pub volatile: Vec<u64>,
    pub durable: Vec<u64>,
}
