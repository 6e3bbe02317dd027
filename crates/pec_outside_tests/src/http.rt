//! One request over any desk, at a desk and over a connection of the tests' own.
mod connections;
mod desk;
mod serving;
mod submissions;
mod wire;
