// What C, Rust and Python call: numbers, and each slice as a pointer and then a length.
#![tactic(auto)]

mod allowances;
mod bracket_texts;
mod insertions;
mod named_moments;
mod sessions;
mod splits;
mod summaries;
mod watches;
