//! The answers of a schedule's steps, as the tool prints them.
ghost use Rattle.std.specs.Prelude.{◌≡◌, ◌++◌, IfOk, OnOk};
ghost use Rattle.std.specs.String.{string_bytes};
ghost use Rattle.trace_text.specs.Answered.{answer_line, answers_text_of, tickets_line_of};

use core_model::StepAnswer;
use region_header::Bytes;
use std::alloc::{AllocError, Global};

/// The answers in their order, one a line: `done`, or `not now` for each that was not done.
pub fn answers_text(alloc: Global, answers: &[StepAnswer]) -> Result<Bytes, AllocError>
    ensures ok { IfOk result (λ text. text ≡ answers_text_of answers.now) }
{
    let mut text = String::new(alloc);
    for answer in answers {
        write_answer(&mut text, *answer)?;
    }
    Ok(Bytes::from_vec(text.into_bytes()))
}

fn write_answer(text: &mut String, answer: StepAnswer) -> Result<(), AllocError>
    ensures ok { OnOk result
        (string_bytes text.new ≡ string_bytes text.old ++ answer_line answer) }
{
    match answer {
        StepAnswer::Done => text.push_str("done\n"),
        StepAnswer::Stopped { .. } | StepAnswer::NotNow => text.push_str("not now\n"),
    }
}

/// The line that tells how many tickets were drawn.
pub fn tickets_line(alloc: Global, tickets: u64) -> Result<Bytes, AllocError>
    ensures ok { IfOk result (λ text. text ≡ tickets_line_of tickets) }
{
    let line = format!(in alloc; "tickets {tickets}\n")?;
    Ok(Bytes::from_vec(line.into_bytes()))
}
