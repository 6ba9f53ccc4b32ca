//! Tests of `bd_wide_rank`, `bd_wide_copy` and `bd_wide_query`. The expected orders, bytes and codes are worked by hand, or by exact
//! fractions.
#![tactic(auto)]

#[cfg(test)]
mod coded;
#[cfg(test)]
mod copy;
#[cfg(test)]
mod examples;
#[cfg(test)]
mod rank;
#[cfg(test)]
mod read;
#[cfg(test)]
mod split;
