//! Frames of real clients, and messages worked by hand, read and written back; where messages are
//! refused, and which requests are.

mod back;
mod frames;
mod judged;
mod refusals;
mod replies;
mod requests;
