// Lists of calls, run on one nonce book and one engine, and the law that every run keeps.
#![tactic(auto)]

pub mod both;
pub mod list;
pub mod run;
pub mod script;
mod stage;
mod steps;
