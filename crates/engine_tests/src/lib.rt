//! Tests of the library's public calls: what no clause says, and no script reaches.
#![tactic(auto)]

#[cfg(test)]
mod adapters;
#[cfg(test)]
mod allocating;
#[cfg(test)]
mod chance;
#[cfg(test)]
mod edits;
#[cfg(test)]
mod example;
#[cfg(test)]
mod faults;
#[cfg(test)]
mod full;
#[cfg(test)]
mod lines;
#[cfg(test)]
mod places;
#[cfg(test)]
mod rows;
#[cfg(test)]
mod running;
#[cfg(test)]
mod second_look_up;
#[cfg(test)]
mod tabled;
#[cfg(test)]
mod tables;
#[cfg(test)]
mod traits;
#[cfg(test)]
mod trials;
#[cfg(test)]
mod turnstile;
#[cfg(test)]
mod written_lines;
