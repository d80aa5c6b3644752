//! Tests of links, the reader of heads, sessions, editions, events and workers, through the
//! public calls of their libraries.
#![tactic(auto)]

#[cfg(test)]
mod editions;
#[cfg(test)]
mod events;
#[cfg(test)]
mod heads;
#[cfg(test)]
mod links;
#[cfg(test)]
mod sessions;
#[cfg(test)]
mod turns;
#[cfg(test)]
mod workers;
