//! Tests of what neither a command nor a clause shows: of what helper programs write (`helpers`), of the world in memory and a
//! pipe (`outside`), of farms, processes and the rewriter (`parts`), of the adapters over the system (`adapters`), of the desk
//! with what is asked of it behind locks (`desk`), and of the top call (`server`).
//!
//! It has no public call.
#![tactic(auto)]

#[cfg(test)]
mod adapters;
#[cfg(test)]
mod desk;
#[cfg(test)]
mod helpers;
#[cfg(test)]
mod outside;
#[cfg(test)]
mod parts;
#[cfg(test)]
mod server;
