//! What no clause of `dsd_station` says and no run of the program shows: calls that a signal interrupts, and a file station
//! without its files. It stands in a crate of its own, as a crate with tests is proved twice.
#![tactic(auto)]

#[cfg(test)]
mod ends;
#[cfg(test)]
mod stations;
