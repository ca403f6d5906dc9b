//! The lines of a scenario text, each by itself: its form with the operands, or what is wrong with it.
#![tactic(auto)]

mod cutting;
mod line;
mod lines;
mod operand;
mod operands;
mod process_lines;
mod say;
mod setting;
mod whole_text;
mod word_kind;

pub use cutting::cut;
pub use line::{Saying, TextLine};
pub use lines::Lines;
pub use operand::Operand;
pub use process_lines::ProcessLines;
pub use setting::Setting;
pub use whole_text::WholeText;
pub use word_kind::WordKind;
