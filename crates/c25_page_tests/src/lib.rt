//! Tests of data pages: small programs worked out by hand, each with the table that is right for it, and with faults
//! planted in that table.
#![tactic(auto)]

#[cfg(test)]
mod building;
#[cfg(test)]
mod found;
#[cfg(test)]
mod interrupts;
#[cfg(test)]
mod routines;
#[cfg(test)]
mod stacked;
#[cfg(test)]
mod stores;
