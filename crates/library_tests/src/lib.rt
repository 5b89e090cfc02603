//! Tests of the libraries below the commands: what no clause says, and that each call can succeed.
#![tactic(auto)]

#[cfg(test)]
mod dispatcher_rounds;
#[cfg(test)]
mod documents;
#[cfg(test)]
mod event_lines;
#[cfg(test)]
mod faults;
#[cfg(test)]
mod flat_code;
#[cfg(test)]
mod interrupt_sources;
#[cfg(test)]
mod names;
#[cfg(test)]
mod preemption_stack;
#[cfg(test)]
mod reading_and_showing;
#[cfg(test)]
mod recorders;
#[cfg(test)]
mod runs;
#[cfg(test)]
mod series;
#[cfg(test)]
mod sources_and_sinks;
#[cfg(test)]
mod steps;
#[cfg(test)]
mod task_language;
