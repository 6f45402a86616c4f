// Examples of what the libraries do, as tests.
#![tactic(auto)]

#[cfg(test)]
mod fields;
#[cfg(test)]
mod lists;
#[cfg(test)]
mod policies;
