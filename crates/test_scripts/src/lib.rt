//! Tests of scripts, of where a thread stands in its script, and of the text of traces.
#![tactic(auto)]

#[cfg(test)]
mod bad_texts;
#[cfg(test)]
mod machines;
#[cfg(test)]
mod texts;
#[cfg(test)]
mod traces;
