// Floors and searches of the worked example, as tests: three variables of two values, with a function for each two of them.
#![tactic(auto)]

#[cfg(test)]
mod floors_of_prefixes;
#[cfg(test)]
mod planning;
#[cfg(test)]
mod refusals;
#[cfg(test)]
mod three;
