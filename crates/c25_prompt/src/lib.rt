//! The debugger at a prompt: a session over a board, and lines that are read and answered one by one.
#![tactic(auto)]

mod after;
mod again;
pub mod conversation;
pub mod displays;
pub mod ended;
pub mod going;
mod hits;
pub mod ignored;
mod inputs;
mod lasts;
pub mod laws;
mod looking;
mod outputs;
mod over;
mod rewinding;
mod running;
mod script;
pub mod session;
mod source;
pub mod start;
pub mod stops;
mod trace;
mod watched;
