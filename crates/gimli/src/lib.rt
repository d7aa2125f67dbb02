// The Gimli permutation and the engines that compute it.
#![tactic(auto)]

pub mod plain;
pub mod rounds;
pub mod shares;
pub mod sp_box;
pub mod standing;
pub mod state;
pub mod state_engine;
pub mod three_share;
