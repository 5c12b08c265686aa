//! Tests of transports that wait for a lock: what no contract says of them. That nothing is lost between threads, what
//! reaches the inner transport of a queue, what a flush answers, and that a pump passes on what waits.
#![tactic(auto)]

#[cfg(test)]
mod answers;
#[cfg(test)]
mod counting;
#[cfg(test)]
mod flushing;
#[cfg(test)]
mod pumping;
#[cfg(test)]
mod workshop;
#[cfg(test)]
mod writing;
