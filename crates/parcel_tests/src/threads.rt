//! Two senders and one that takes, each in a thread of its own.

ghost use Rattle.std.specs.Prelude.{◌≡◌, ◌<◌, All, IfErr, IfOk};
ghost use Rattle.parcel_queue.specs.Account.{all_parts, unused};
ghost use Rattle.parcel_tests.specs.Sending.{IsFreshPassOf, IsPassOf, IsSenderOf};

use crate::letters::{Letter, Line, Run};
use parcel_queue::Pass;
use std::alloc::{AllocError, Global};
use std::marker::Brand;
use std::process::Abort;
use std::sync::Wait;
use std::test::*;
use std::thread;
use std::thread::Threads;

/// How many letters each sender sends.
pub const LETTERS: u64 = 2_000;

/// How many letters there are in all.
pub const ALL: usize = 4_000;

/// Room for far fewer letters than are sent.
const ROOM: usize = 8;

/// How often a thread looks into a queue, at most.
pub const MOST_LOOKS: u64 = 100_000_000;

/// What a thread begins with: it sends letters from this number on, or it takes.
#[derive(Drop)]
struct Job {
    pass: Pass<Letter>,
    first: u64,
    takes: bool,
}

/// What it ends with: the letters that it has.
#[derive(Drop)]
struct Worked {
    pass: Pass<Letter>,
    letters: Vec<Letter>,
}

/// Puts a letter, or gives it back after many looks.
fn put_one<J: Run>(line: &Line<J>, pass: &mut Pass<Letter>, letter: Letter) -> Result<(), Letter>
    requires pass { IsSenderOf line.now pass.old }
    requires day { letter.day ≡ J.day }
    ensures pass { IsSenderOf line.now pass.new }
    ensures day { IfErr result (λ back. back.day ≡ J.day) }
{
    let mut left = letter;
    for _ in 0..MOST_LOOKS {
        match line.try_put(pass, left) {
            Ok(()) => return Ok(()),
            Err(back) => left = back,
        }
        thread::yield_now();
    }
    Err(left)
}

/// Puts all letters of a sender; those for which there was no room stay.
pub fn send<J: Run>(
    line: &Line<J>,
    pass: &mut Pass<Letter>,
    first: u64,
    day: u64,
    letters: &mut Vec<Letter>,
) -> Result<(), AllocError>
    requires pass { IsSenderOf line.now pass.old }
    requires day { J.day ≡ day }
    requires first { first < 10000 }
    requires letters { All (λ letter. letter.day ≡ J.day) letters.old.items }
    ensures pass { IsSenderOf line.now pass.new }
    ensures letters { All (λ letter. letter.day ≡ J.day) letters.new.items }
{
    for number in first..first + LETTERS {
        letters.reserve(1)?;
        if let Err(letter) = put_one(line, pass, Letter { number, day }) {
            letters.push_reserved(letter);
        }
    }
    Ok(())
}

/// Takes letters until all are there, or after many looks.
fn receive<J: Run, R: Wait>(
    rt: &R,
    line: &Line<J>,
    pass: &mut Pass<Letter>,
    letters: &mut Vec<Letter>,
) -> Result<(), AllocError>
    requires pass { IsPassOf line.now pass.old }
    requires letters { All (λ letter. letter.day ≡ J.day) letters.old.items }
    ensures pass { IsPassOf line.now pass.new }
    ensures letters { All (λ letter. letter.day ≡ J.day) letters.new.items }
{
    for _ in 0..MOST_LOOKS {
        if letters.len() >= ALL {
            return Ok(());
        }
        letters.reserve(1)?;
        match line.take(rt, pass) {
            Some(letter) => letters.push_reserved(letter),
            None => thread::yield_now(),
        }
    }
    Ok(())
}

/// The work of one thread.
fn work<J: Run, R: Wait>(
    rt: &R,
    alloc: Global,
    line: &Line<J>,
    job: Job,
    day: u64,
) -> Result<Worked, AllocError>
    requires job { IsFreshPassOf line.now job.pass × (job.first < 10000) }
    requires day { J.day ≡ day }
    ensures pass { IfOk result (λ w. IsPassOf line.now w.pass) }
    ensures letters { IfOk result (λ w. All (λ letter. letter.day ≡ J.day) w.letters.items) }
{
    let Job {
        mut pass,
        first,
        takes,
    } = job;
    let mut letters = Vec::new(alloc);
    if takes {
        receive(rt, line, &mut pass, &mut letters)?;
    } else {
        send(line, &mut pass, first, day, &mut letters)?;
    }
    Ok(Worked { pass, letters })
}

/// All threads work.
fn work_together<J: Run + Sync, R: Threads + Wait + Sync>(
    rt: &R,
    alloc: Global,
    line: &Line<J>,
    jobs: Vec<Job>,
    day: u64,
) -> Result<Vec<Result<Worked, AllocError>>, AllocError>
    requires jobs { All (λ job. IsFreshPassOf line.now job.pass × (job.first < 10000)) jobs.items }
    requires day { J.day ≡ day }
    ensures passes { IfOk result (λ all. All (λ one. IfOk one (λ w. IsPassOf line.now w.pass × All (λ letter. letter.day ≡ J.day) w.letters.items)) all.items) }
{
    let worked = thread::map_vec(
        rt,
        jobs,
        &|job: Job| -> Result<Worked, AllocError>
            requires { (J.day ≡ day) × IsFreshPassOf line.now job.pass × (job.first < 10000) }
            ensures { IfOk result (λ w. IsPassOf line.entry.now w.pass × All (λ letter. letter.day ≡ J.day) w.letters.items) }
        { work::<J, R>(rt, alloc, line, job, day) },
    )?;
    Ok(worked)
}

/// The jobs of two senders, and of one that takes.
fn deal<J: Run>(
    alloc: Global,
    line: &Line<J>,
    owner: &mut Pass<Letter>,
) -> Result<Vec<Job>, AllocError>
    requires owner { (owner.old.queue ≡ line.now.queue) × (owner.old.account ≡ unused all_parts) }
    ensures owner { IfOk result (λ jobs. (owner.new.queue ≡ line.now.queue) × (0 < owner.new.account.parts)) }
    ensures jobs { IfOk result (λ jobs. All (λ job. IsFreshPassOf line.now job.pass × (job.first < 10000)) jobs.items) }
{
    let taker = Job {
        pass: line.another(owner),
        first: 0,
        takes: true,
    };
    let one = Job {
        pass: line.another(owner),
        first: 0,
        takes: false,
    };
    let other = Job {
        pass: line.another(owner),
        first: LETTERS,
        takes: false,
    };
    Ok(vec![in alloc; taker, one, other]?)
}

/// What all threads leave.
#[derive(Drop)]
struct Gathered {
    passes: Vec<Pass<Letter>>,
    letters: Vec<Letter>,
}

/// The passes and the letters of all threads.
fn gather<J: Run>(
    alloc: Global,
    _line: &Line<J>,
    mut worked: Vec<Result<Worked, AllocError>>,
) -> Result<Gathered, AllocError>
    requires { All (λ one. IfOk one (λ w. IsPassOf _line.now w.pass × All (λ letter. letter.day ≡ J.day) w.letters.items)) worked.items }
    ensures passes { IfOk result (λ g. All (λ pass. pass.queue ≡ _line.now.queue) g.passes.items) }
    ensures letters { IfOk result (λ g. All (λ letter. letter.day ≡ J.day) g.letters.items) }
{
    let mut passes = Vec::with_capacity(alloc, worked.len())?;
    let mut letters = Vec::new(alloc);
    while let Some(one) = worked.pop() {
        let Worked {
            pass,
            letters: mut more,
        } = one?;
        passes.push(pass)?;
        letters.append(&mut more)?;
    }
    Ok(Gathered { passes, letters })
}

/// The threads send and take letters of one day; the owner takes those that are left.
fn run<J: Run + Sync, R: Threads + Wait + Sync>(
    rt: &R,
    alloc: Global,
    day: u64,
) -> Result<Vec<Letter>, AllocError>
    requires { J.day ≡ day }
    ensures { IfOk result (λ letters. All (λ letter. letter.day ≡ day) letters.items) }
{
    let (line, mut owner) = Line::<J>::new(alloc, ROOM)?;
    let jobs = deal(alloc, &line, &mut owner)?;
    let worked = work_together::<J, R>(rt, alloc, &line, jobs, day)?;
    let Gathered {
        passes,
        mut letters,
    } = gather(alloc, &line, worked)?;
    line.absorb_all(&mut owner, passes);
    line.take_all(rt, &mut owner, &mut letters)?;
    Ok(letters)
}

/// The same on a day that is a number of the program.
fn run_on<R: Threads + Wait + Sync>(
    rt: &R,
    alloc: Global,
    day: u64,
) -> Result<Vec<Letter>, AllocError>
    ensures { IfOk result (λ letters. All (λ letter. letter.day ≡ day) letters.items) }
{
    run::<Brand, R>(rt, alloc, day)
}

/// Whether each number below so many is that of one letter, and no other number is.
pub fn are_all(alloc: Global, letters: &[Letter]) -> Result<bool, AllocError> {
    let mut seen = vec![in alloc; false; ALL]?;
    for letter in letters {
        let number = letter.number as usize;
        if number >= ALL || seen[number] {
            return Ok(false);
        }
        seen[number] = true;
    }
    Ok(letters.len() == ALL)
}

#[test]
fn letters_go_between_threads(rt: HostRuntime) -> Result<(), Fail> {
    let letters = run_on(&rt, rt.alloc(), 3)?;
    assert!(rt; are_all(rt.alloc(), &letters)?);
    Ok(())
}
