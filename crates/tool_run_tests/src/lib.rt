//! Tests of the tool's runs: traces worked off over stores, inputs and outputs in memory, stopped
//! at each step, and with each call of the outside failing; schedules replayed; and images with
//! words that no run leaves. The crate is nothing but these, so that a change of the tool's texts
//! or of its other commands leaves them alone.
#![tactic(auto)]

#[cfg(test)]
mod bad_traces;
#[cfg(test)]
mod believed;
#[cfg(test)]
mod conservative;
#[cfg(test)]
mod contended;
#[cfg(test)]
mod count_faults;
#[cfg(test)]
mod counting;
#[cfg(test)]
mod damage;
#[cfg(test)]
mod faults;
#[cfg(test)]
mod filled;
#[cfg(test)]
mod gate_draws;
#[cfg(test)]
mod gates;
#[cfg(test)]
mod harness;
#[cfg(test)]
mod images;
#[cfg(test)]
mod meeting;
#[cfg(test)]
mod moving;
#[cfg(test)]
mod moving_full;
#[cfg(test)]
mod moving_order;
#[cfg(test)]
mod moving_stops;
#[cfg(test)]
mod parallel;
#[cfg(test)]
mod rebuilds;
#[cfg(test)]
mod replays;
#[cfg(test)]
mod rows;
#[cfg(test)]
mod seeds;
#[cfg(test)]
mod session;
#[cfg(test)]
mod shared_stops;
#[cfg(test)]
mod shows;
#[cfg(test)]
mod stops;
#[cfg(test)]
mod turn;
#[cfg(test)]
mod versions;
#[cfg(test)]
mod words;
#[cfg(test)]
mod workers;
