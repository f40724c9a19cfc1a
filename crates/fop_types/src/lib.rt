//! The types that every layer shares: gfids and cells, contents and rows, calls and fops, the jobs of a set, answers,
//! and the messages between the mount and its bricks.
//!
//! Its definitions are what a reader has to believe first:
//!
//! ```text
//!   Limits, Bounds       which values there are
//!   Names, FileBytes     what a name put in, a write or a truncate makes of a list
//!   StoreOps             what a store op makes of the contents of a set's cells
//!   Files, Flat          the flat file system: each operation's answer, and the files after it
//!   Calls                what a call looks up and does, its answers at once, descriptors
//!   History, Replies     a legal history, and replies that are the flat file system's at their places
//!   Jobs                 what a job of a set must meet, and which reply answers it
//! ```
//!
//! A public list is a [`Seq`], and bytes that are shared are a [`Data`]. Contracts see both as a plain list, so a value of
//! these types is plain data in every contract above.
#![tactic(auto)]

mod answers;
mod call_parts;
mod calls;
mod causes;
mod cells;
mod contents;
mod copies;
mod copy_jobs;
mod data;
mod flat;
mod fops;
mod history;
mod items;
mod jobs;
mod lists;
mod messages;
mod op_copies;
mod request_copies;
mod store_ops;

pub use answers::{Answer, AppError, FopAnswer, IoError, SplitRow};
pub use calls::{Call, Path};
pub use causes::SkipCause;
pub use cells::{Aspect, Cell, Gfid, Kind};
pub use contents::{Attr, Content, Item, Mask, Row, Span};
pub use copy_jobs::{CopyDone, CopyJob, CopyRecord, Out};
pub use data::Data;
pub use flat::{FlatAnswer, FlatObject, FlatOp};
pub use fops::{Fop, Object, OpenFd};
pub use history::Entry;
pub use items::{find_item, insert_item, insert_new_item, place_of_item};
pub use jobs::{Job, SetPlan, SetReply};
pub use lists::Seq;
pub use messages::{BrickRep, BrickReq, DoneArm, Input, OutKind, Output, Proc};
pub use store_ops::StoreOp;
