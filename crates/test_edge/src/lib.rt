//! Streams of requests over a gateway and its disk: what is answered, how they end, and in what pieces they come and
//! go. Nothing but tests stands here.
//!
//! - `shared`: streams that several tests begin with, and gateways over a disk in memory;
//! - `pieces`: readers and writers that give and take a few bytes at a time, and fail;
//! - `sending`: frames that are written in one piece or in parts;
//! - `streams`: streams of a few frames;
//! - `each_call`: each read, write and call of the disk failing in turn;
//! - `each_cut`: frames that are cut at each byte, and headers with one byte set to each value;
//! - `many_flows`: so many flows that the edge looks ahead;
//! - `turns`: what was asked is answered before more is read, and a file that has grown is made anew;
//! - `worked`: events and their answers, worked by hand or by another program.
#![tactic(auto)]

#[cfg(test)]
mod each_call;
#[cfg(test)]
mod each_cut;
#[cfg(test)]
mod many_flows;
#[cfg(test)]
mod pieces;
#[cfg(test)]
mod sending;
#[cfg(test)]
mod shared;
#[cfg(test)]
mod streams;
#[cfg(test)]
mod turns;
#[cfg(test)]
mod worked;
