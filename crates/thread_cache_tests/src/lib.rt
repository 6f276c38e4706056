//! Tests of a seat that allocates by caches: what it gives and refuses, beside another seat of the
//! same heap, and what is left where it stops.
#![tactic(auto)]

#[cfg(test)]
mod apart;
#[cfg(test)]
mod beside_core;
#[cfg(test)]
mod core_scenes;
#[cfg(test)]
mod dice;
#[cfg(test)]
mod fences;
#[cfg(test)]
mod fixtures;
#[cfg(test)]
mod flushing;
#[cfg(test)]
mod holders;
#[cfg(test)]
mod meeting;
#[cfg(test)]
mod neighbours;
#[cfg(test)]
mod order;
#[cfg(test)]
mod own_words;
#[cfg(test)]
mod pairs;
#[cfg(test)]
mod popping;
#[cfg(test)]
mod rolling;
#[cfg(test)]
mod rooted;
#[cfg(test)]
mod scenes;
#[cfg(test)]
mod scripts;
#[cfg(test)]
mod stopping;
#[cfg(test)]
mod threading;
#[cfg(test)]
mod together;
#[cfg(test)]
mod walking;
