//! The words of a line, one after the other.
ghost use Rattle.std.specs.Prelude.{◌≡◌, [], ◌∷◌, MatchOption, not, position};
ghost use Rattle.sim_language.specs.Forms.{after_first, after_made};
ghost use Rattle.sim_language.specs.Lines.{is_blank, is_empty, words};

use std::marker::Model;

/// The words that are left of a cut line.
#[derive(Drop)]
pub struct Words<'t> {
    /// The first of them; none where no word is left.
    first: Option<&'t [u8]>,
    /// The part of the line that has the others.
    rest: &'t [u8],
}

impl<'t> Model for Words<'t> {
    ghost use Rattle.std.specs.Prelude.{◌≡◌, List, ℕ, [], None, ◌++◌, option_copied, option_to_list};
    ghost use Rattle.sim_language.specs.Lines.{words};

    ghost Value = { List (List ℕ) };

    ghost view = { λ a. option_to_list (option_copied a.first) ++ words a.rest.now };

    ghost invariant = { λ a. option_copied a.first ≡ None → words a.rest.now ≡ [] };
}

impl<'t> Words<'t> {
    /// The words of a cut line.
    pub fn new(line: &'t [u8]) -> Words<'t>
        ensures { result ≡ words line.now }
    {
        match first_word(line) {
            Some((first, rest)) => Words {
                first: Some(first),
                rest,
            },
            None => Words {
                first: None,
                rest: &[],
            },
        }
    }

    /// The same words once more.
    pub fn again(&self) -> Words<'t>
        ensures { result ≡ self.now }
    {
        Words {
            first: self.first,
            rest: self.rest,
        }
    }

    /// Whether none is left.
    pub fn is_empty(&self) -> bool
        ensures { result ≡ is_empty self.now }
    {
        self.first.is_none()
    }

    /// The first of them.
    pub fn first(&self) -> Option<&'t [u8]>
        ensures { MatchOption result
            (self.now ≡ [])
            (λ word. self.now ≡ word.now ∷ after_first self.now) }
    {
        self.first
    }

    /// The words behind the first.
    pub fn behind_first(&self) -> Words<'t>
        ensures { result ≡ after_first self.now }
    {
        Words::new(self.rest)
    }

    /// The next word.
    pub fn next(&mut self) -> Option<&'t [u8]>
        ensures { MatchOption result
            ((self.old ≡ []) × (self.new ≡ []))
            (λ word. self.old ≡ word.now ∷ self.new) }
    {
        let word = self.first?;
        *self = Words::new(self.rest);
        Some(word)
    }

    /// The words without the second and the third, where there are three.
    pub fn after_made(&self) -> Words<'t>
        ensures { result ≡ after_made self.now }
    {
        match self.first_and_fourth() {
            Some((made, rest)) => Words {
                first: Some(made),
                rest,
            },
            None => self.again(),
        }
    }

    /// The first word, and the part of the line from the fourth on, where there are three.
    fn first_and_fourth(&self) -> Option<(&'t [u8], &'t [u8])>
        ensures { MatchOption result
            (after_made self.now ≡ self.now)
            (λ parts. after_made self.now ≡ parts.0.now ∷ words parts.1.now) }
    {
        let first = self.first?;
        let (_, behind_second) = first_word(self.rest)?;
        let (_, behind_third) = first_word(behind_second)?;
        Some((first, behind_third))
    }
}

/// The first word and what stands behind it, or nothing where there is none.
fn first_word(line: &[u8]) -> Option<(&[u8], &[u8])>
    ensures { MatchOption result
        (words line.now ≡ [])
        (λ parts. words line.now ≡ parts.0.now ∷ words parts.1.now) }
{
    let start = first_of_word(line)?;
    let word = &line[start..];
    match first_blank(word) {
        Some(end) => Some((&word[..end], &word[end + 1..])),
        None => Some((word, &word[word.len()..])),
    }
}

fn first_of_word(line: &[u8]) -> Option<usize>
    ensures { result ≡ position (λ c. not (is_blank c)) line.now }
{
    line.iter().position(|byte| !is_blank(*byte))
}

fn first_blank(line: &[u8]) -> Option<usize>
    ensures { result ≡ position is_blank line.now }
{
    line.iter().position(|byte| is_blank(*byte))
}

fn is_blank(byte: u8) -> bool
    ensures { result ≡ is_blank byte }
{
    byte == b' ' || byte == b'\t'
}
