//! What the words of a command line ask for, and what clap's matches of them are.
ghost use Rattle.std.specs.Prelude.{◌≡◌, ℕ, List};
ghost use Rattle.tool_command.specs.Command.{Asks, image_name};
ghost use Rattle.tool_command.specs.CommandLine.{format_app, show_app, drain_app, gen_app, run_app, rebuild_app, replay_app, conservative_app, count_app, IsTaken, IsMatchedBy};
ghost use Rattle.tool_command.specs.Invocations.{command_of};

use crate::command_line::{has_flag, number_of, number_or, text_of};
use crate::trace_plan::TracePlan;
use clap::ArgMatches;
use image_run::{MOST_BUDGET, RunOptions};
use size_table::SizeClass;
use super_block::Geometry;

/// What the words ask for.
#[derive(Clone, Copy)]
pub enum Invocation<'a> {
    Format {
        image: &'a str,
        layout: Geometry,
    },
    Show {
        image: &'a str,
        with_map: bool,
        in_parallel: bool,
    },
    Drain {
        image: &'a str,
        class: SizeClass,
    },
    Gen {
        plan: TracePlan,
    },
    Run {
        image: &'a str,
        options: RunOptions,
    },
    Rebuild {
        image: &'a str,
        budget: u64,
        seed: u64,
    },
    Replay {
        image: &'a str,
        seed: u64,
    },
    Conservative {
        image: &'a str,
        with_map: bool,
    },
    Count {
        image: &'a str,
        with_map: bool,
    },
}

impl<'a> Invocation<'a> {
    /// The name of the image that it is about; the empty one where it is about none.
    pub fn image(self) -> &'a str
        ensures { result.now ≡ image_name (command_of self.entry) }
    {
        match self {
            Invocation::Format { image, layout: _ } => image,
            Invocation::Show {
                image,
                with_map: _,
                in_parallel: _,
            } => image,
            Invocation::Drain { image, class: _ } => image,
            Invocation::Gen { plan: _ } => "",
            Invocation::Run { image, options: _ } => image,
            Invocation::Rebuild {
                image,
                budget: _,
                seed: _,
            } => image,
            Invocation::Replay { image, seed: _ } => image,
            Invocation::Conservative { image, with_map: _ } => image,
            Invocation::Count { image, with_map: _ } => image,
        }
    }
}

// What the matches ask for, of words that clap took as those of the command: each argument that has
// to be there is, and each number lies in its bounds.
pub fn read_format<'a>(matches: &ArgMatches<'a>) -> Invocation<'a>
    requires { (words : List (List ℕ)) × IsTaken format_app words
        × IsMatchedBy format_app words matches.now }
    ensures { (words : List (List ℕ)) → IsTaken format_app words
        → IsMatchedBy format_app words matches.now → Asks words (command_of result) }
{
    let image = text_of(matches, "IMAGE");
    let layout = Geometry::new(number_of(matches, "S"));
    Invocation::Format { image, layout }
}

pub fn read_show<'a>(matches: &ArgMatches<'a>) -> Invocation<'a>
    requires { (words : List (List ℕ)) × IsTaken show_app words
        × IsMatchedBy show_app words matches.now }
    ensures { (words : List (List ℕ)) → IsTaken show_app words
        → IsMatchedBy show_app words matches.now → Asks words (command_of result) }
{
    let image = text_of(matches, "IMAGE");
    let with_map = has_flag(matches, "map");
    let in_parallel = has_flag(matches, "par");
    Invocation::Show {
        image,
        with_map,
        in_parallel,
    }
}

pub fn read_drain<'a>(matches: &ArgMatches<'a>) -> Invocation<'a>
    requires { (words : List (List ℕ)) × IsTaken drain_app words
        × IsMatchedBy drain_app words matches.now }
    ensures { (words : List (List ℕ)) → IsTaken drain_app words
        → IsMatchedBy drain_app words matches.now → Asks words (command_of result) }
{
    let image = text_of(matches, "IMAGE");
    let class = SizeClass::new(number_of(matches, "CLASS") as u8);
    Invocation::Drain { image, class }
}

pub fn read_gen<'a>(matches: &ArgMatches<'a>) -> Invocation<'a>
    requires { (words : List (List ℕ)) × IsTaken gen_app words
        × IsMatchedBy gen_app words matches.now }
    ensures { (words : List (List ℕ)) → IsTaken gen_app words
        → IsMatchedBy gen_app words matches.now → Asks words (command_of result) }
{
    let requests = number_of(matches, "N");
    let seed = number_of(matches, "SEED");
    let plan = TracePlan::new(requests, seed);
    Invocation::Gen { plan }
}

pub fn read_run<'a>(matches: &ArgMatches<'a>) -> Invocation<'a>
    requires { (words : List (List ℕ)) × IsTaken run_app words
        × IsMatchedBy run_app words matches.now }
    ensures { (words : List (List ℕ)) → IsTaken run_app words
        → IsMatchedBy run_app words matches.now → Asks words (command_of result) }
{
    let image = text_of(matches, "IMAGE");
    let workers = number_of(matches, "workers");
    let budget = number_or(matches, "stop", MOST_BUDGET);
    let seed = number_or(matches, "seed", 0);
    let sum = has_flag(matches, "sum");
    let map = has_flag(matches, "map");
    let options = RunOptions::new(workers, budget, seed).telling(sum, map);
    Invocation::Run { image, options }
}

pub fn read_rebuild<'a>(matches: &ArgMatches<'a>) -> Invocation<'a>
    requires { (words : List (List ℕ)) × IsTaken rebuild_app words
        × IsMatchedBy rebuild_app words matches.now }
    ensures { (words : List (List ℕ)) → IsTaken rebuild_app words
        → IsMatchedBy rebuild_app words matches.now → Asks words (command_of result) }
{
    let image = text_of(matches, "IMAGE");
    let budget = number_or(matches, "stop", MOST_BUDGET);
    let seed = number_or(matches, "seed", 0);
    Invocation::Rebuild {
        image,
        budget,
        seed,
    }
}

pub fn read_replay<'a>(matches: &ArgMatches<'a>) -> Invocation<'a>
    requires { (words : List (List ℕ)) × IsTaken replay_app words
        × IsMatchedBy replay_app words matches.now }
    ensures { (words : List (List ℕ)) → IsTaken replay_app words
        → IsMatchedBy replay_app words matches.now → Asks words (command_of result) }
{
    let image = text_of(matches, "IMAGE");
    let seed = number_or(matches, "seed", 0);
    Invocation::Replay { image, seed }
}

pub fn read_conservative<'a>(matches: &ArgMatches<'a>) -> Invocation<'a>
    requires { (words : List (List ℕ)) × IsTaken conservative_app words
        × IsMatchedBy conservative_app words matches.now }
    ensures { (words : List (List ℕ)) → IsTaken conservative_app words
        → IsMatchedBy conservative_app words matches.now → Asks words (command_of result) }
{
    let image = text_of(matches, "IMAGE");
    let with_map = has_flag(matches, "map");
    Invocation::Conservative { image, with_map }
}

pub fn read_count<'a>(matches: &ArgMatches<'a>) -> Invocation<'a>
    requires { (words : List (List ℕ)) × IsTaken count_app words
        × IsMatchedBy count_app words matches.now }
    ensures { (words : List (List ℕ)) → IsTaken count_app words
        → IsMatchedBy count_app words matches.now → Asks words (command_of result) }
{
    let image = text_of(matches, "IMAGE");
    let with_map = has_flag(matches, "map");
    Invocation::Count { image, with_map }
}
