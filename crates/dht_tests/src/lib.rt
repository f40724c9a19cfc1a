//! Tests of distribute: hashes and layouts (`layouts`), searches for a name (`searches`), and the fops over sets: what
//! each asks of the sets, job by job, and how it is answered.
//!
//! A row of a fop is a line: the number of sets and the fop, and then its turns with `;` between them. A turn has the
//! set that is asked, its job and what it gives, or `hold`, the directory and `ok`. The last turn has the answer and its
//! place, which is `-` where there is none.
//!
//! ```text
//!   2 unlink / foo: 1 names foo:s0; 0 names foo:file; 0 drop.1[1e,1/foo] 3; 1 link- ok; ok 3
//! ```
//!
//! `3/2` is three sets where the first graph had two. `/`, `d` and `e` are directories with the gfids 1, 8 and 9; `f0`,
//! `f1` and `f2` are a file with the gfid 2 on the set of that number. Over two sets the name `fo` belongs to set 0 and
//! `foo` to set 1; over three `new`, `fo` and `old` belong to sets 0, 1 and 2.
//!
//! A job or an answer is a word, behind which all that it carries may stand in brackets: cells as a gfid with the letter
//! of the aspect, `fd` with the number of a descriptor, `dir` where the cells are a directory's, a directory and a name
//! with `/` between them. A change with an effect ends with its part of the call; a change of a link has no effect. The
//! name `foo:file:3` is a file with the gfid 3, where none is given 2, and `foo:s0` is a link to set 0. A read has the
//! place behind `@`, or else 7 and the number of the set.
#![tactic(auto)]

#[cfg(test)]
mod answers;
#[cfg(test)]
mod dropped_names;
#[cfg(test)]
mod fops;
#[cfg(test)]
mod in_order;
#[cfg(test)]
mod jobs;
#[cfg(test)]
mod layouts;
#[cfg(test)]
mod lookups;
#[cfg(test)]
mod new_names;
#[cfg(test)]
mod objects;
#[cfg(test)]
mod play;
#[cfg(test)]
mod renames;
#[cfg(test)]
mod replies;
#[cfg(test)]
mod searches;
#[cfg(test)]
mod text;
