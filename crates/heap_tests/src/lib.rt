//! Tests of the heap for one thread, and of the core of the shared heap, both over recovered images:
//! what a heap gives, where it stops and what is left of it; and schedules of events, with the
//! answer of each and what a crash leaves after them. The crate is nothing but these, so that a
//! change of the program leaves them alone.
#![tactic(auto)]

#[cfg(test)]
mod accepts;
#[cfg(test)]
mod blocks;
#[cfg(test)]
mod cores;
#[cfg(test)]
mod crashes;
#[cfg(test)]
mod drains;
#[cfg(test)]
mod exchanges;
#[cfg(test)]
mod fixtures;
#[cfg(test)]
mod guards;
#[cfg(test)]
mod offers;
#[cfg(test)]
mod own_words;
#[cfg(test)]
mod pieces;
#[cfg(test)]
mod recorded;
#[cfg(test)]
mod rows;
#[cfg(test)]
mod schedules;
#[cfg(test)]
mod script;
#[cfg(test)]
mod seat_stops;
#[cfg(test)]
mod shifts;
#[cfg(test)]
mod stopped;
#[cfg(test)]
mod stops;
