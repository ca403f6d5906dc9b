//! An operand of a line.
ghost use Rattle.std.specs.Prelude.{◌≡◌};
ghost use Rattle.sim_language.specs.Numbers.{literal, literal_within};
ghost use Rattle.sim_language.specs.Sayings.{is_bad_name, is_bad_number, is_me, is_now_or_val};
ghost use Rattle.sim_language.specs.Shapes.{Operand, capacity, slot_of};
ghost use Rattle.sim_lines.specs.WordKinds.{kind_of};

use crate::word_kind::WordKind;
use sim_language::{Role, Version};
use sim_words::{is_name, is_parameter, looks_numeric};
use std::marker::Model;

/// An operand: a word of a line, and what it is there for.
#[derive(Drop)]
pub struct Operand<'t> {
    role: Role,
    word: &'t [u8],
    /// What the word is by itself. It is found once, when the operand is made.
    kind: WordKind,
}

impl<'t> Model for Operand<'t> {
    ghost use Rattle.std.specs.Prelude.{◌≡◌};
    ghost use Rattle.sim_language.specs.Shapes.{Operand};
    ghost use Rattle.sim_lines.specs.WordKinds.{kind_of};

    ghost Value = { Operand };

    ghost view = { λ a. record { role = a.role; word = a.word.now } };

    ghost invariant = { λ a. a.kind ≡ kind_of a.word.now };
}

impl<'t> Operand<'t> {
    /// A word in a place with this role; where a number is wanted, a word that begins as one does is a literal.
    #[inline(always)]
    pub fn of(role: Role, word: &'t [u8]) -> Operand<'t>
        ensures { result ≡ slot_of role word.now }
    {
        let role = match role {
            Role::Value if looks_numeric(word) => Role::Within(i64::MIN, i64::MAX),
            role => role,
        };
        let kind = WordKind::of(word);
        Operand { role, word, kind }
    }

    /// What the word is there for.
    pub fn role(&self) -> Role
        ensures { result ≡ self.now.role }
    {
        self.role
    }

    pub fn word(&self) -> &'t [u8]
        ensures { result.now ≡ self.now.word }
    {
        self.word
    }

    /// Returns what the word is by itself.
    pub fn kind(&self) -> WordKind
        ensures kind { result ≡ kind_of self.now.word }
    {
        self.kind
    }

    /// Returns the number, where the word is a literal of 64 bits.
    pub fn literal(&self) -> Option<i64>
        ensures literal { result ≡ literal self.now.word }
    {
        match self.kind {
            WordKind::Number(number) => Some(number),
            _ => None,
        }
    }

    /// Returns the number, where the word is a literal from `low` to `high`.
    #[tactic(auto, using(crate::proofs::NarrowLiterals::narrowed))]
    fn literal_within(&self, low: i64, high: i64) -> Option<i64>
        ensures literal { result ≡ literal_within low high self.now.word }
    {
        let number = self.literal()?;
        if low <= number && number <= high {
            Some(number)
        } else {
            None
        }
    }

    /// Returns the capacity that the word gives: `inf` for the greatest, or a literal from 1 to it.
    pub fn capacity(&self, most: i64) -> Option<i64>
        ensures capacity { result ≡ capacity most self.now.word }
    {
        match self.kind {
            WordKind::Infinite => Some(most),
            _ => self.literal_within(1, most),
        }
    }

    /// Tests whether the word is `now` or `val`.
    pub fn is_now_or_val(&self) -> bool
        ensures tests { result ≡ is_now_or_val self.now.word }
    {
        matches!(self.kind, WordKind::Now | WordKind::Val)
    }

    /// Tests whether the word is `me`.
    pub fn is_me(&self) -> bool
        ensures tests { result ≡ is_me self.now.word }
    {
        matches!(self.kind, WordKind::Me)
    }

    /// Whether a number is wanted, and the word is none in the range.
    pub fn is_bad_number(&self) -> bool
        ensures { result ≡ is_bad_number self.now }
    {
        match self.role {
            Role::Within(low, high) => self.literal_within(low, high).is_none(),
            Role::Capacity(most) => self.capacity(most).is_none(),
            _ => false,
        }
    }

    /// Whether a name is wanted, and the word is none in a text of this version.
    pub fn is_bad_name(&self, version: Version) -> bool
        ensures { result ≡ is_bad_name version self.now }
    {
        match self.role {
            Role::Declares | Role::Gives(_) | Role::Names(_) | Role::EventAhead(_) => {
                !is_name(version, self.word)
            }
            Role::Parameter => !is_parameter(version, self.word),
            Role::Value => !(self.is_now_or_val() || is_name(version, self.word)),
            Role::Refers(reference) => {
                !(reference.takes_me() && self.is_me() || is_name(version, self.word))
            }
            Role::Within(..) | Role::Capacity(_) | Role::Free => false,
        }
    }
}
