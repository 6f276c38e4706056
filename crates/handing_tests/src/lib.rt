//! Tests of blocks that go from seat to seat of one heap: round a ring of seats, with a stop at each
//! ticket, and through queues between threads.
#![tactic(auto)]

#[cfg(test)]
mod closing;
#[cfg(test)]
mod ends;
#[cfg(test)]
mod fixtures;
#[cfg(test)]
mod goods;
#[cfg(test)]
mod hand;
#[cfg(test)]
mod marks;
#[cfg(test)]
mod queue;
#[cfg(test)]
mod ring;
#[cfg(test)]
mod rings;
#[cfg(test)]
mod rounds;
#[cfg(test)]
mod stopping;
#[cfg(test)]
mod threading;
