//! The words of a line: the form that they begin, and what each is by itself, a number, a name or a parameter; and tables of
//! what has a name.
#![tactic(auto)]

mod beginning;
mod letter;
mod mark;
mod name;
mod names;
mod number;
mod parameter;
mod words;

pub use beginning::{begins, operands, sort_begun};
pub use mark::up_to;
pub use name::is_name;
pub use names::Names;
pub use number::{decimal_within, literal, literal_within, looks_numeric};
pub use parameter::{is_parameter, parameter_class, parameter_name};
pub use words::Words;
