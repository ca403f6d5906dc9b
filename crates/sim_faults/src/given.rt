//! The variable that an operand gives.
ghost use Rattle.std.specs.Prelude.{◌≡◌};
ghost use Rattle.sim_language.specs.Variables.{given_by_slot};

use sim_language::Role;
use sim_lines::Operand;
use sim_types::Class;
use sim_words::{parameter_class, parameter_name};
use std::marker::Model;

/// A variable that a line gives, or a parameter of a process.
#[derive(Drop)]
pub struct Given<'t> {
    name: &'t [u8],
    class: Class,
}

impl<'t> Model for Given<'t> {
    ghost use Rattle.sim_types.specs.declared.setup.Class.{Class};
    ghost use Rattle.sim_language.specs.Named.{Named};

    ghost Value = { Named Class };

    ghost view = { λ a. record { name = a.name.now; value = a.class } };
}

impl<'t> Given<'t> {
    /// What the operand gives, if it gives something.
    pub fn by(slot: &Operand<'t>) -> Option<Given<'t>>
        ensures { result ≡ given_by_slot slot.now }
    {
        match slot.role() {
            Role::Gives(class) => Some(Given {
                name: slot.word(),
                class,
            }),
            Role::Parameter => Some(Given {
                name: parameter_name(slot.word()),
                class: parameter_class(slot.word()),
            }),
            _ => None,
        }
    }

    pub fn name(&self) -> &'t [u8]
        ensures { result.now ≡ self.now.name }
    {
        self.name
    }

    pub fn class(&self) -> Class
        ensures { result ≡ self.now.value }
    {
        self.class
    }
}
