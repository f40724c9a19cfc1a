//! Cases of the sets of replicas: which replicas are sound, how the ledger finds and decides changes, how a phase goes on,
//! what a copy needs turn by turn, and which pieces of two blocks differ; and of a transaction, for each job, what it needs
//! first, and at each turn what it needs next, taken by hand from the rules of a set. The library is empty.
#![tactic(auto)]

// afr_changelog
#[cfg(test)]
mod changelog;
// self_heal
#[cfg(test)]
mod copies;
#[cfg(test)]
mod copy_cases;
// lane_scan
#[cfg(test)]
mod lanes;
// afr_ledger
#[cfg(test)]
mod ledger;
// afr_phases
#[cfg(test)]
mod phases;
// afr_transaction
#[cfg(test)]
mod changes;
#[cfg(test)]
mod five_replicas;
#[cfg(test)]
mod heals;
#[cfg(test)]
mod jobs;
#[cfg(test)]
mod losses;
#[cfg(test)]
mod one_replica;
#[cfg(test)]
mod played;
#[cfg(test)]
mod settlings;
#[cfg(test)]
mod summary;
#[cfg(test)]
mod three_replicas;
#[cfg(test)]
mod turns;
#[cfg(test)]
mod two_cells;
