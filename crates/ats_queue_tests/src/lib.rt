//! Tests of queues, ports, agendas and their heaps. There is nothing else here, so that the crates
//! below are proved without tests.
#![tactic(auto)]

#[cfg(test)]
mod events;
#[cfg(test)]
mod heaps;
#[cfg(test)]
mod ports;
#[cfg(test)]
mod queues;
