//! Two workers that send each other letters, and then take what came for them.

ghost use Rattle.std.specs.Prelude.{◌≡◌, ◌<◌, [], ◌∷◌, All, IfOk, OnOk, length};
ghost use Rattle.parcel_queue.specs.Account.{all_parts, unused};
ghost use Rattle.parcel_queue.specs.Row.{ArePassesOf, ArePassesWith};

use crate::letters::{Letter, Line, OfRun, Run};
use crate::threads::{ALL, LETTERS, MOST_LOOKS, are_all};
use parcel_queue::{
    Pass, Senders, a_pass_to_each, absorb_each, each_pass_of_a_row_is_to_its_queue,
};
use std::alloc::{AllocError, Global};
use std::marker::Brand;
use std::process::Abort;
use std::sync::Wait;
use std::test::*;
use std::thread;
use std::thread::Threads;

/// What a worker begins with: its passes, and the number of its first letter.
#[derive(Drop)]
struct Job {
    passes: Vec<Pass<Letter>>,
    first: u64,
}

/// What it ends with: its passes, and whether there was room for all its letters.
#[derive(Drop)]
struct Worked {
    passes: Vec<Pass<Letter>>,
    all: bool,
}

/// Puts a letter into one of two queues, and tells whether it could; it tries many times.
fn put_one<J: Run>(senders: &mut Senders<'_, Letter, OfRun<J>>, number: u64, day: u64) -> bool
    requires queues { length senders.old.queues ≡ 2 }
    requires day { J.day ≡ day }
    ensures { senders.new.queues ≡ senders.old.queues }
{
    let to = (number % 2) as usize;
    for _ in 0..MOST_LOOKS {
        if senders.try_put(to, Letter { number, day }).is_ok() {
            return true;
        }
        thread::yield_now();
    }
    false
}

/// The work of one worker.
fn work<J: Run>(queues: &[Line<J>], job: Job, day: u64) -> Worked
    requires passes { ArePassesOf queues.now job.passes.items }
    requires queues { length queues.now ≡ 2 }
    requires first { job.first < 10000 }
    requires day { J.day ≡ day }
    ensures { ArePassesOf queues.now result.passes.items }
{
    let Job { passes, first } = job;
    let mut senders = Senders::new(queues, passes);
    let mut all = true;
    for number in first..first + LETTERS {
        all = put_one(&mut senders, number, day) && all;
    }
    Worked {
        passes: senders.into_passes(),
        all,
    }
}

/// Both workers work.
fn work_together<J: Run + Sync, R: Threads + Sync>(
    rt: &R,
    queues: &[Line<J>],
    jobs: Vec<Job>,
    day: u64,
) -> Result<Vec<Worked>, AllocError>
    requires jobs { All (λ job. ArePassesOf queues.now job.passes.items × (job.first < 10000)) jobs.items }
    requires queues { length queues.now ≡ 2 }
    requires day { J.day ≡ day }
    ensures { IfOk result (λ all. All (λ one. ArePassesOf queues.now one.passes.items) all.items) }
{
    let worked = thread::map_vec(
        rt,
        jobs,
        &|job: Job| -> Worked
            requires { (J.day ≡ day) × (length queues.now ≡ 2) × ArePassesOf queues.now job.passes.items
                × (job.first < 10000) }
            ensures { ArePassesOf queues.entry.now result.passes.items }
        { work::<J>(queues, job, day) },
    )?;
    Ok(worked)
}

/// The jobs of both workers.
fn deal<J: Run>(
    alloc: Global,
    queues: &[Line<J>],
    owners: &mut Vec<Pass<Letter>>,
) -> Result<Vec<Job>, AllocError>
    requires { ArePassesWith 2 queues.now owners.old.items }
    ensures owners { IfOk result (λ jobs. ArePassesOf queues.now owners.new.items) }
    ensures jobs { IfOk result (λ jobs. All (λ job. ArePassesOf queues.now job.passes.items × (job.first < 10000)) jobs.items) }
{
    each_pass_of_a_row_is_to_its_queue::<Letter>();
    let one = a_pass_to_each(alloc, queues, owners)?;
    let other = a_pass_to_each(alloc, queues, owners)?;
    let first = Job {
        passes: one,
        first: 0,
    };
    let second = Job {
        passes: other,
        first: LETTERS,
    };
    Ok(vec![in alloc; first, second]?)
}

/// The owners take in all passes.
fn gather<J: Run>(
    queues: &[Line<J>],
    owners: &mut Vec<Pass<Letter>>,
    mut worked: Vec<Worked>,
) -> bool
    requires owners { ArePassesOf queues.now owners.old.items }
    requires worked { All (λ one. ArePassesOf queues.now one.passes.items) worked.items }
    ensures { ArePassesOf queues.now owners.new.items }
{
    let mut all = true;
    while let Some(one) = worked.pop() {
        all = all && one.all;
        absorb_each(queues, owners, one.passes);
    }
    all
}

/// What came for the owner of one of the queues.
fn collect<J: Run, R: Wait>(
    rt: &R,
    queues: &[Line<J>],
    owners: &mut Vec<Pass<Letter>>,
    at: usize,
    letters: &mut Vec<Letter>,
) -> Result<(), AllocError>
    requires owners { ArePassesOf queues.now owners.old.items }
    requires at { at < length queues.now }
    requires letters { All (λ letter. letter.day ≡ J.day) letters.old.items }
    ensures owners { ArePassesOf queues.now owners.new.items }
    ensures letters { All (λ letter. letter.day ≡ J.day) letters.new.items }
{
    each_pass_of_a_row_is_to_its_queue::<Letter>();
    queues[at].take_all(rt, &mut owners[at], letters)
}

/// Both queues, and the pass of each one's owner.
#[derive(Drop)]
struct Opened<J: Run> {
    queues: Vec<Line<J>>,
    owners: Vec<Pass<Letter>>,
}

/// Two queues with room for all letters.
fn open<J: Run>(alloc: Global) -> Result<Opened<J>, AllocError>
    ensures queues { IfOk result (λ o. length o.queues.items ≡ 2) }
    ensures owners { IfOk result (λ o. ArePassesWith 2 o.queues.items o.owners.items) }
{
    let (one, first) = Line::<J>::new(alloc, ALL)?;
    let (other, second) = Line::<J>::new(alloc, ALL)?;
    let queues = vec![in alloc; one, other]?;
    let owners = vec![in alloc; first, second]?;
    Ok(Opened { queues, owners })
}

/// What came for each of the two, and whether there was room for all.
#[derive(Drop)]
struct Back {
    first: Vec<Letter>,
    second: Vec<Letter>,
    all: bool,
}

/// Both send all their letters, and then take what came.
fn run<J: Run + Sync, R: Threads + Wait + Sync>(
    rt: &R,
    alloc: Global,
    day: u64,
) -> Result<Back, AllocError>
    requires { J.day ≡ day }
{
    let Opened { queues, mut owners } = open::<J>(alloc)?;
    let jobs = deal(alloc, &queues, &mut owners)?;
    let worked = work_together::<J, R>(rt, &queues, jobs, day)?;
    let all = gather(&queues, &mut owners, worked);
    let mut first = Vec::new(alloc);
    let mut second = Vec::new(alloc);
    collect(rt, &queues, &mut owners, 0, &mut first)?;
    collect(rt, &queues, &mut owners, 1, &mut second)?;
    Ok(Back { first, second, all })
}

/// The same on a day that is a number of the program.
fn run_on<R: Threads + Wait + Sync>(rt: &R, alloc: Global, day: u64) -> Result<Back, AllocError> {
    run::<Brand, R>(rt, alloc, day)
}

#[test]
fn workers_send_each_other_letters(rt: HostRuntime) -> Result<(), Fail> {
    let Back {
        mut first,
        mut second,
        all,
    } = run_on(&rt, rt.alloc(), 3)?;
    assert!(rt; all);
    assert!(rt; first.iter().all(|letter| letter.number % 2 == 0));
    assert!(rt; second.iter().all(|letter| letter.number % 2 == 1));
    first.append(&mut second)?;
    assert!(rt; are_all(rt.alloc(), &first)?);
    Ok(())
}
