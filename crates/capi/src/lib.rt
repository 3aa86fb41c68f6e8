// The calls for C and C++, as include/trazzughes.h declares them: numbers as themselves, a table as its pointer and its length.
#![tactic(auto)]

pub mod build;
pub mod endpoints;
pub mod graph;
pub mod stage;
