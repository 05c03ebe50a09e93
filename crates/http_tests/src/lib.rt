//! Tests of the ends of the outside and of HTTP over them, where memory is ample: files and sockets, replies, heads, bodies, sessions, workers.
//! They stand in one crate on top, so that none of those crates is proved twice.
#![tactic(auto)]

#[cfg(test)]
mod bodies;
#[cfg(test)]
mod ends;
#[cfg(test)]
mod heads;
#[cfg(test)]
mod replies;
#[cfg(test)]
mod sessions;
#[cfg(test)]
mod workers;
