//! A session: live traces of an original that come and go, and files that are emitted for them, in which only blocks with new keys are
//! compiled again.
#![tactic(auto)]

mod compiled;
mod emission;
mod graphs;
mod kept;
mod keys;
mod laid;
mod law;
mod session;

pub use law::sessions_hold;
pub use session::Session;

#[cfg(test)]
mod tests;
