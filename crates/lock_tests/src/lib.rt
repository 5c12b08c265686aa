//! Tests of the lock with threads: what no contract says of it, that nothing is lost or sent twice, and what reaches a
//! transport; and each setter of a copy of a scope.
#![tactic(auto)]

#[cfg(test)]
mod calling;
#[cfg(test)]
mod crowd;
#[cfg(test)]
mod deliveries;
#[cfg(test)]
mod dropping;
#[cfg(test)]
mod ends;
#[cfg(test)]
mod gate;
#[cfg(test)]
mod guards;
#[cfg(test)]
mod labels;
#[cfg(test)]
mod losses;
#[cfg(test)]
mod queues;
#[cfg(test)]
mod quiet;
#[cfg(test)]
mod sending;
#[cfg(test)]
mod setters;
#[cfg(test)]
mod threads;
#[cfg(test)]
mod workshop;
