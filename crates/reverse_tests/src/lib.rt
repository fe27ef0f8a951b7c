//! Tests of adjoints: the text of a program's adjoint, as it was reckoned by another way.
#![tactic(auto)]

#[cfg(test)]
mod clauses;
#[cfg(test)]
mod gathers;
#[cfg(test)]
mod nested;
#[cfg(test)]
mod parallel;
#[cfg(test)]
mod places;
#[cfg(test)]
mod statements;
#[cfg(test)]
mod straight;
#[cfg(test)]
mod strides;
#[cfg(test)]
mod told;
