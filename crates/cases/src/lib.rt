// Worked examples and edges of the library, run as tests.

#![tactic(auto)]

#[cfg(test)]
mod peels;
mod pile;
#[cfg(test)]
mod sample;
#[cfg(test)]
mod sets;
#[cfg(test)]
mod stated;
#[cfg(test)]
mod tables_made;
#[cfg(test)]
mod views_seen;
#[cfg(test)]
mod weights_made;
