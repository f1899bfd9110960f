// Words read from bytes, and a lent space of bytes written from left to right. Nothing here knows of stores or calls,
// and no function asks anything of its caller.
#![tactic(auto)]

pub mod reading;
pub mod writing;
