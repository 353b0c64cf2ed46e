//! What the lines of `vectors` can't show: stores, listeners, files, and commits at random. A crate of tests alone.
#![tactic(auto)]

#[cfg(test)]
mod cells;
#[cfg(test)]
mod disk;
#[cfg(test)]
mod formats;
#[cfg(test)]
mod guard;
#[cfg(test)]
mod replica;
#[cfg(test)]
mod store;
