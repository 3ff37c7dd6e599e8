//! Tests of positions, plays, ranks, fractions, least plays, the layout of records and the builder
//! of the board file, each by its public functions. They stand in a crate of their own since the
//! gate proves a crate a second time for its tests; those of whole files are in `file_tests`. It
//! rests on the crates from `home_board` up to `retrograde`; nothing stands on it, and it has no
//! function but its tests and their helpers.
#![tactic(auto)]

#[cfg(test)]
mod board_building;
#[cfg(test)]
mod boards;
#[cfg(test)]
mod fractions;
#[cfg(test)]
mod headers;
#[cfg(test)]
mod least;
#[cfg(test)]
mod plain;
#[cfg(test)]
mod plays;
#[cfg(test)]
mod positions;
#[cfg(test)]
mod ranks;
#[cfg(test)]
mod records;
