// Examples of what boards, journals, settling, rotations, digits and plans do, as tests.
#![tactic(auto)]

#[cfg(test)]
mod boards;
#[cfg(test)]
mod given;
#[cfg(test)]
mod journals;
#[cfg(test)]
mod placements;
#[cfg(test)]
mod printed;
