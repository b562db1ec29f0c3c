//! Tests of scripts and of drills: lines, commands, replies, and what a drill is made of.

mod drills;
mod replies;
mod scripts;
