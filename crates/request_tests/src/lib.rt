//! Tests of refusals in detail, of how many bytes are a request, of replies on connections that are kept, and of whether a request
//! is strict, by public calls alone. Each file says what its rows' words mean.
#![tactic(auto)]

#[cfg(test)]
mod replies;
#[cfg(test)]
mod sizes;
#[cfg(test)]
mod statuses;
#[cfg(test)]
mod strictness;
