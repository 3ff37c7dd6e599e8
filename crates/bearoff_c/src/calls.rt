//! The functions that C calls, by subject.

pub(crate) mod choices;
pub(crate) mod distributions;
pub(crate) mod files;
pub(crate) mod library;
pub(crate) mod lines;
pub(crate) mod means;
pub(crate) mod notations;
pub(crate) mod opening;
pub(crate) mod plays;
pub(crate) mod positions;
pub(crate) mod ranks;
pub(crate) mod status_texts;
pub(crate) mod tables;
