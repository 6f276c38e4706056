//! Tests of queues of parcels: in one thread, and between threads. The crate is nothing but these,
//! so that a change of them costs no proof of the queue.
#![tactic(auto)]

#[cfg(test)]
mod alone;
#[cfg(test)]
mod early;
#[cfg(test)]
mod exchange;
#[cfg(test)]
mod letters;
#[cfg(test)]
mod owner;
#[cfg(test)]
mod threads;
