//! Tables of cases for the texts: what volfiles, scripts and plans give, and where and why they are refused. Beside
//! them, what a report prints, and what the ends of the program read and write.
#![tactic(auto)]

#[cfg(test)]
mod end_tests;
#[cfg(test)]
mod plan_tests;
#[cfg(test)]
mod report_tests;
#[cfg(test)]
mod script_tests;
#[cfg(test)]
mod volfile_tests;
