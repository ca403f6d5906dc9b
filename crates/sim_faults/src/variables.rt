//! The variables of a process.
ghost use Rattle.std.specs.Prelude.{◌≡◌, ◌≤◌, IfOk, OnOk, length};
ghost use Rattle.sim_language.specs.Named.{with_all};
ghost use Rattle.sim_language.specs.Statements.{variable};
ghost use Rattle.sim_types.specs.Limits.{most_bytes};
ghost use Rattle.sim_language.specs.Variables.{deep_behind, ends_process, given_by, variable_number, variables_of};

use crate::given::Given;
use sim_language::Form;
use sim_lines::{Lines, Operand, Saying, TextLine};
use sim_types::Class;
use sim_words::Names;
use std::alloc::{AllocError, Global};

/// The parameters of a process and what the lines below give up to its end, each once, in order.
pub fn variables_of<'t>(
    alloc: Global,
    params: &[Operand<'t>],
    below: &Lines<'t, '_>,
) -> Result<Names<'t, Class>, AllocError>
    requires few { length below.now ≤ most_bytes }
    ensures { IfOk result (λ variables. variables ≡ variables_of params.now below.now) }
{
    let mut variables = Names::new(alloc);
    add_given(&mut variables, params)?;
    let mut left = below.again();
    let mut line = TextLine::new(alloc);
    let mut deep = 0;
    while left.next(&mut line)? {
        if let Saying::Says(form) = line.saying() {
            if ends_process(deep, form) {
                break;
            }
            add_given(&mut variables, line.operands())?;
            deep = deep_behind(deep, form);
        }
    }
    Ok(variables)
}

/// Adds what a line gives.
fn add_given<'t>(variables: &mut Names<'t, Class>, slots: &[Operand<'t>]) -> Result<(), AllocError>
    ensures { OnOk result (variables.new ≡ with_all variables.old (given_by slots.now)) }
{
    for slot in slots {
        if let Some(given) = Given::by(slot) {
            variables.add(given.name(), given.class())?;
        }
    }
    Ok(())
}

/// Whether the line ends the process, where so many blocks are open.
fn ends_process(deep: u32, form: Form) -> bool
    ensures { result ≡ ends_process deep form }
{
    form.is_process() || deep == 0 && form.is_end()
}

/// How many blocks are open behind the line.
fn deep_behind(deep: u32, form: Form) -> u32
    requires { deep ≤ most_bytes }
    ensures { result ≡ deep_behind deep form }
{
    if form.opens_block() {
        deep + 1
    } else if form.is_end() {
        deep.saturating_sub(1)
    } else {
        deep
    }
}

/// The number of a variable, counted from 1, since `val` has the number 0.
pub fn variable_number(variables: &Names<'_, Class>, word: &[u8]) -> usize
    ensures { result ≡ variable_number variables.now word.now }
{
    match variables.index_of(word) {
        Some(index) => {
            prove!(index < variables.len());
            index + 1
        }
        None => 1,
    }
}

/// The same, where it is one of 64.
pub fn variable(variables: &Names<'_, Class>, word: &[u8]) -> u8
    ensures { result ≡ variable variables.now word.now }
{
    let number = variable_number(variables, word);
    if number < 64 { number as u8 } else { 0 }
}
