//! Cases of tokens, URIs and their equality, of messages and of their parts, of the tables that a request is looked up in, of
//! what a server makes of one request and decides about it, and of the configuration: one module for each room under test;
//! outside vectors, printed text, what no clause says, limits where a table is really filled, and each call once that no run of
//! the whole server makes. What the worked examples of those rooms or a stored run say isn't tried again. A case answers whether
//! it holds, and each of its functions owns one value at most: a proof costs by its paths, each with every value that is still
//! to be dropped on it.
#![tactic(auto)]

mod audit;
mod auth;
mod best;
mod bytes;
mod cases;
mod config;
mod config_texts;
mod dialogs;
mod digest;
mod edit;
mod equality;
mod header;
mod hops;
mod locations;
mod message;
mod nonces;
mod onward;
mod reply;
mod text;
mod uri;

pub use cases::tell_all;
