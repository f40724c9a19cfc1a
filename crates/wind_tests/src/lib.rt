//! Cases of how winds go: the words that decide how they end, the links that carry messages, and the sample trees under
//! the driver. The library is empty.
#![tactic(auto)]

// brick_link
#[cfg(test)]
mod links;
// frame_driver, by frame_trees
#[cfg(test)]
mod trees;
// wind_words
#[cfg(test)]
mod words;
