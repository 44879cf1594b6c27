//! The calls that a host in C makes: the static library. include/marehour.h describes them. None of them has a
//! `requires`, so each holds its contract whatever is handed over.

#![tactic(auto)]

pub mod calls;
pub mod daily_call;
pub mod day_call;
pub mod forecast_call;
pub mod promises;
pub mod speed;
pub mod tries;
