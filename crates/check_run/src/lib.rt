//! What no clause shows of a whole run: the text that scripts come to, the report of a race, faults of the source and the sink, and
//! limits.
#![tactic(auto)]

#[cfg(test)]
mod gates;
#[cfg(test)]
mod races;
#[cfg(test)]
mod reader;
#[cfg(test)]
mod shell;
#[cfg(test)]
mod spoilt;
