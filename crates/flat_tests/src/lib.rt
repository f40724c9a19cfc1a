//! Tests of the calls on the flat file system: for each call its answers and its errors in order.
//!
//! A case is a script and the answers to it. The lines of a script are separated by `;`, the words of a line by one
//! space: a call as in a script of the program (`create FD PATH MODE`), or `@ SESSION`, which all lines after it are of.
//! Data, values and components of paths are written as they are, or as `N*C` for N bytes C.
#![tactic(auto)]

#[cfg(test)]
mod descriptors;
#[cfg(test)]
mod names;
#[cfg(test)]
mod objects;
#[cfg(test)]
mod reader;
#[cfg(test)]
mod removed;
