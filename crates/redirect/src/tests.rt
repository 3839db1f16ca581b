//! What is next, words and moved sectors, by hand from the rules of docs/monitor.md and docs/drive.md.

mod decisions;
mod moves;
mod pieces;
