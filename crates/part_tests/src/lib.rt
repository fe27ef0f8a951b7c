//! Tests of the parts' public functions: each once with ample memory, with values that come from outside. They stand in
//! a crate of their own, so that each part is proved once.
#![tactic(auto)]

#[cfg(test)]
mod conditions;
#[cfg(test)]
mod data;
#[cfg(test)]
mod directives;
#[cfg(test)]
mod expressions;
#[cfg(test)]
mod lexer;
#[cfg(test)]
mod puts;
#[cfg(test)]
mod shown;
#[cfg(test)]
mod texts;
#[cfg(test)]
mod trees;
