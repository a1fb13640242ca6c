// Sheets: answers as lines in lent bytes. Answers are in `protocol`; `player` fills a sheet from a tape.
#![tactic(auto)]

mod line;
mod sheet;

pub use sheet::{MOST_LINE, MOST_NUMBER, write_line, write_number};
