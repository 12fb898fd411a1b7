//! Frames of real clients, and records spelled by hand as zookeeper.jute has them.

mod connect;
mod lists;
mod refusals;
mod spelled;
