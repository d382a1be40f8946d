//! A name table with a cache of its answers, that lines of text change and ask: the memory of a name service cache.
#![tactic(auto)]

pub mod cache;
pub mod line;
pub mod ncd;
pub mod table;
pub mod text;
