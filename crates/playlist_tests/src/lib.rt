//! Tests of playlists' values, of devices, of the store of pods, of reading and writing playlists and of whole runs: what
//! neither a clause says nor the built program shows.
#![tactic(auto)]

#[cfg(test)]
mod beginnings;
pub mod made;
#[cfg(test)]
mod meaning;
#[cfg(test)]
mod moving_devices;
#[cfg(test)]
mod reading;
#[cfg(test)]
mod runs;
#[cfg(test)]
mod stores;
#[cfg(test)]
mod writing;
