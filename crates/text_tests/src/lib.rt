//! Tests on whole texts: what the parsers read and where they refuse, what is printed, and which rule of typing is broken
//! first. Each test is a table of rows, which one small function goes over.
#![tactic(auto)]

#[cfg(test)]
mod adjoints;
#[cfg(test)]
mod parsed;
#[cfg(test)]
mod parsed_limits;
#[cfg(test)]
mod parsed_statements;
#[cfg(test)]
mod parsed_units;
#[cfg(test)]
mod printed;
#[cfg(test)]
mod rows;
#[cfg(test)]
mod typed;
#[cfg(test)]
mod typed_bodies;
#[cfg(test)]
mod typed_programs;
#[cfg(test)]
mod typed_units;
