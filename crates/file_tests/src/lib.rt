//! Tests of whole files: what the builder writes, what the checker says, and what is answered, in
//! memory and by pages. They stand in a crate of their own since the gate proves a crate a second
//! time for its tests. It rests on all crates from `ranking` up to `epc_query`; nothing stands on
//! it, and it has no function but its tests and their helpers.
#![tactic(auto)]

#[cfg(test)]
mod answering;
#[cfg(test)]
mod building;
#[cfg(test)]
mod changing;
#[cfg(test)]
mod checking;
#[cfg(test)]
mod given;
#[cfg(test)]
mod paging;
#[cfg(test)]
mod reading;
#[cfg(test)]
mod upgrading;
#[cfg(test)]
mod writing;
