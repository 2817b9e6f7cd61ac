// Worked examples and edges of the refusals, as tests.
#![tactic(auto)]

#[cfg(test)]
mod amending;
#[cfg(test)]
mod cells;
#[cfg(test)]
mod entering;
#[cfg(test)]
mod kinds;
#[cfg(test)]
mod loading;
#[cfg(test)]
mod opening;
#[cfg(test)]
mod support;
#[cfg(test)]
mod texts;
#[cfg(test)]
mod worked;
