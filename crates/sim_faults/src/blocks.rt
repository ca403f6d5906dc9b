//! The blocks that are open.
ghost use Rattle.std.specs.Prelude.{◌≡◌, ◌&&◌, None, Some, OnErr, OnOk, is_some, length, option_copied, option_map, slice_get, unwrap_or, [], ◌∷◌};
ghost use Rattle.std.specs.List.{list_any};
ghost use Rattle.sim_language.specs.Blocks.{blocks_behind, closed, first_word, split_first};
ghost use Rattle.sim_language.specs.OrderFaults.{awaits_catch, awaits_else, is_loop};
ghost use Rattle.sim_language.specs.Places.{is_with};
ghost use Rattle.sim_language.specs.Lines.{same};
ghost use Rattle.sim_language.specs.Numbers.{literal};
ghost use Rattle.sim_language.specs.Statements.{end_of};
ghost use Rattle.sim_faults.specs.InnerBlocks.{with_block};

use sim_language::Form;
use sim_lines::Operand;
use sim_types::Stmt;
use std::alloc::{AllocError, Global};
use std::marker::Model;

/// A `with`, `loop`, `repeat`, `if` or `try` that is open.
#[derive(Drop)]
struct Block<'t> {
    form: Form,
    /// The variable of a `with`.
    variable: &'t [u8],
    /// Whether its `else` or `catch` stood.
    split: bool,
    /// The place of its first statement inside.
    inside: u32,
}

impl<'t> Model for Block<'t> {
    ghost use Rattle.sim_language.specs.Blocks.{Block};

    ghost Value = { Block };

    ghost view = { λ a.
        record { form = a.form; variable = a.variable.now; split = a.split; inside = a.inside } };
}

impl<'t> Block<'t> {
    fn is_loop(&self) -> bool
        ensures { result ≡ is_loop self.now }
    {
        matches!(self.form, Form::Loop | Form::Repeat)
    }

    /// Whether it is a `with` of this variable.
    fn is_with_of(&self, variable: &[u8]) -> bool
        ensures { result ≡ (is_with self.now && same variable.now self.now.variable) }
    {
        matches!(self.form, Form::With) && variable == self.variable
    }

    /// Whether it is an `if` without `else`.
    fn awaits_else(&self) -> bool
        ensures { result ≡ awaits_else (self.now ∷ []) }
    {
        matches!(self.form, Form::If) && !self.split
    }

    /// Whether it is a `try` without `catch`.
    fn awaits_catch(&self) -> bool
        ensures { result ≡ awaits_catch (self.now ∷ []) }
    {
        matches!(self.form, Form::Try) && !self.split
    }

    /// The statement that its `end` is.
    fn end(&self) -> Stmt
        ensures { result ≡ end_of (self.now ∷ []) }
    {
        match self.form {
            Form::With => Stmt::EndWith,
            Form::Loop => Stmt::EndLoop { first: self.inside },
            Form::Repeat => Stmt::EndRepeat { first: self.inside },
            _ => Stmt::EndPlain,
        }
    }
}

/// The open blocks of the process that a line stands in, if it stands in one.
#[derive(Drop)]
pub struct Blocks<'t> {
    in_process: bool,
    /// The innermost is the last. Outside of processes none is open.
    stack: Vec<Block<'t>>,
}

impl<'t> Model for Blocks<'t> {
    ghost use Rattle.std.specs.Prelude.{◌≡◌, List, [], None, Option, Some, cond, false, reverse};
    ghost use Rattle.sim_language.specs.Blocks.{Block};

    ghost Value = { Option (List Block) };

    ghost view = { λ a. cond a.in_process (Some (reverse a.stack.items)) None };

    ghost invariant = { λ a. a.in_process ≡ false → a.stack.items ≡ [] };
}

impl<'t> Blocks<'t> {
    /// Outside of processes. It takes no memory.
    pub fn new(alloc: Global) -> Blocks<'t>
        ensures { result ≡ None }
    {
        Blocks {
            in_process: false,
            stack: Vec::new(alloc),
        }
    }

    pub fn in_process(&self) -> bool
        ensures { result ≡ is_some self.now }
    {
        self.in_process
    }

    /// How many blocks are open.
    pub fn len(&self) -> usize
        ensures { result ≡ length (unwrap_or self.now []) }
    {
        self.stack.len()
    }

    /// The innermost block.
    fn innermost(&self) -> Option<&Block<'t>>
        ensures { option_copied result ≡ slice_get (unwrap_or self.now []) 0 }
    {
        self.stack.last()
    }

    /// Whether the innermost block is an `if` without `else`.
    pub fn awaits_else(&self) -> bool
        ensures { result ≡ awaits_else (unwrap_or self.now []) }
    {
        match self.innermost() {
            Some(block) => block.awaits_else(),
            None => false,
        }
    }

    /// Whether the innermost block is a `try` without `catch`.
    pub fn awaits_catch(&self) -> bool
        ensures { result ≡ awaits_catch (unwrap_or self.now []) }
    {
        match self.innermost() {
            Some(block) => block.awaits_catch(),
            None => false,
        }
    }

    /// Whether a loop or a repeat is open.
    pub fn has_loop(&self) -> bool
        ensures { result ≡ list_any is_loop (unwrap_or self.now []) }
    {
        self.stack.iter().rev().any(|block| block.is_loop())
    }

    /// Whether a `with` of this variable is open.
    pub fn has_with(&self, variable: &[u8]) -> bool
        ensures { result
            ≡ list_any (λ b. is_with b && same variable.now b.variable) (unwrap_or self.now []) }
    {
        self.stack
            .iter()
            .rev()
            .any(|block| block.is_with_of(variable))
    }

    /// The statement that an `end` is here.
    pub fn end(&self) -> Stmt
        ensures { result ≡ end_of (unwrap_or self.now []) }
    {
        match self.innermost() {
            Some(block) => block.end(),
            None => Stmt::EndProcess,
        }
    }

    /// Goes on behind a line of this form, where `inside` is the place of the next statement.
    pub fn pass(&mut self, inside: u32, form: Form, slots: &[Operand<'t>]) -> Result<(), AllocError>
        ensures err { OnErr result (self.new ≡ self.old) }
        ensures ok { OnOk result (self.new ≡ blocks_behind inside form slots.now self.old) }
    {
        match form {
            Form::Process => self.begin(),
            Form::End => self.close(),
            Form::Else | Form::Catch => self.split(),
            _ if form.opens_block() => self.enter(inside, form, first_word(slots))?,
            _ => (),
        }
        Ok(())
    }

    /// Goes on in a process, where no block is open.
    fn begin(&mut self)
        ensures { self.new ≡ Some [] }
    {
        self.in_process = true;
        self.stack.clear();
    }

    /// Goes on behind the innermost block, or outside of the process.
    fn close(&mut self)
        ensures { self.new ≡ closed self.old }
    {
        if self.stack.pop().is_none() {
            self.in_process = false;
        }
    }

    /// Goes on behind the `else` or the `catch` of the innermost block.
    fn split(&mut self)
        ensures { self.new ≡ option_map split_first self.old }
    {
        if let Some(block) = self.stack.last_mut() {
            block.split = true;
        }
    }

    /// Goes on in a block of this form, if in a process.
    fn enter(&mut self, inside: u32, form: Form, variable: &'t [u8]) -> Result<(), AllocError>
        ensures err { OnErr result (self.new ≡ self.old) }
        ensures ok { OnOk result (self.new ≡ with_block form variable.now inside self.old) }
    {
        if self.in_process {
            self.stack.push(Block {
                form,
                variable,
                split: false,
                inside,
            })?;
        }
        Ok(())
    }
}

/// The first operand of a line, where it has one.
pub fn first_word<'t>(slots: &[Operand<'t>]) -> &'t [u8]
    ensures { result.now ≡ first_word slots.now }
{
    match slots {
        [] => &[],
        [slot, ..] => slot.word(),
    }
}

/// Returns the number of the first operand, where the line has one and it is a literal of 64 bits.
pub fn first_literal(slots: &[Operand<'_>]) -> Option<i64>
    ensures literal { result ≡ literal (first_word slots.now) }
{
    slots.first()?.literal()
}
