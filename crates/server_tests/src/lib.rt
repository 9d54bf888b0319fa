//! Tests of the server through its public calls. They are a crate of their own, so that the server
//! isn't proved once more with them.
#![tactic(auto)]

#[cfg(test)]
mod tests;
