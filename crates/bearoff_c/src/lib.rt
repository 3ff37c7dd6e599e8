//! Files of any version for C and for what calls C: functions over bytes that the caller keeps,
//! with no memory of their own and no state. It has what C sees, the exports, the statuses and the
//! buffers; what a file answers is `epc_query`'s. Files are made by `retrograde` and `certificate`,
//! which checks them too, and `race_model` says what each answer is. No crate stands above it: a
//! program in C may use that an answer with the status 0 is what the definitions say, for as long
//! as the bytes and the struct are as `bearoff_open` left them. Where the bytes are changed no call
//! reads beside them.
#![tactic(auto)]

mod calls;
mod kept;
mod numbers;
mod questions;
mod statuses;
