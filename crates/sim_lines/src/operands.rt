//! What the words of a line are there for.
ghost use Rattle.std.specs.Prelude.{◌≡◌, ◌++◌, [], IfOk, OnOk, Some, None, cond, map};
ghost use Rattle.sim_language.specs.Sayings.{context_of};
ghost use Rattle.sim_language.specs.Shapes.{fit, opening, side_by_side, slot_of, spawn_argument, start_argument};
ghost use Rattle.sim_lines.specs.OneWord.{at_item, behind_all};

use crate::operand::Operand;
use crate::setting::Setting;
use sim_language::{Item, Role};
use sim_types::{Class, MOST_LEVEL};
use sim_words::Words;
use std::alloc::AllocError;

/// Fills the slots by the words, where they have this shape; else answers false.
pub fn fit<'t>(
    slots: &mut Vec<Operand<'t>>,
    setting: &Setting<'_, '_>,
    shape: &[Item],
    words: &Words<'t>,
) -> Result<bool, AllocError>
    requires { slots.old.items ≡ [] }
    ensures { IfOk result (λ fits.
        fit (context_of setting.now) [] shape.now words.now
        ≡ cond fits (Some slots.new.items) None) }
{
    let heads = setting.whole().heads();
    let mut words = words.again();
    let mut last: &'t [u8] = &[];
    for item in shape {
        match *item {
            Item::MayEnd => {
                if words.is_empty() {
                    return Ok(true);
                }
            }
            Item::Each(role) => {
                fill(slots, role, words)?;
                return Ok(true);
            }
            Item::SpawnArguments => {
                fill_spawn(slots, heads.parameters(last), words)?;
                return Ok(true);
            }
            Item::StartArguments => {
                fill_start(slots, heads.parameters(last), words)?;
                return Ok(true);
            }
            single => {
                let Some(word) = words.next() else {
                    return Ok(false);
                };
                if !take_word(slots, setting, last, single, word)? {
                    return Ok(false);
                }
                last = word;
            }
        }
    }
    Ok(words.is_empty())
}

/// Takes a word for a part of a shape that takes one, where it fits; else answers false.
fn take_word<'t>(
    slots: &mut Vec<Operand<'t>>,
    setting: &Setting<'_, '_>,
    last: &[u8],
    item: Item,
    word: &'t [u8],
) -> Result<bool, AllocError>
    ensures { IfOk result (λ fits.
        behind_all slots.old.items (at_item (context_of setting.now) last.now item word.now)
        ≡ cond fits (Some slots.new.items) None) }
{
    let role = match item {
        Item::Exactly(fixed) => return Ok(word == fixed.word()),
        Item::OneOf(choice) if choice.has(word) => Role::Free,
        Item::A(role) => role,
        Item::Opening => opening(last),
        Item::EventName => Role::EventAhead(setting.whole().ahead(word)),
        Item::NextPoster => {
            let number = i64::from(setting.posters());
            Role::Within(number, number)
        }
        _ => return Ok(false),
    };
    slots.push(Operand::of(role, word))?;
    Ok(true)
}

/// What an opening is there for, behind the word that gives the capacity.
fn opening(capacity_word: &[u8]) -> Role
    ensures { result ≡ opening capacity_word.now }
{
    let most = Operand::of(Role::Capacity(MOST_LEVEL), capacity_word).capacity(MOST_LEVEL);
    Role::Within(0, most.unwrap_or(i64::MAX))
}

/// All further words, each there for the same.
fn fill<'t>(
    slots: &mut Vec<Operand<'t>>,
    role: Role,
    mut words: Words<'t>,
) -> Result<(), AllocError>
    ensures { OnOk result (slots.new.items ≡ slots.old.items ++ map (slot_of role) words.entry) }
{
    while let Some(word) = words.next() {
        slots.push(Operand::of(role, word))?;
    }
    Ok(())
}

/// All further words, as arguments that `spawn` gives for parameters of these classes.
fn fill_spawn<'t>(
    slots: &mut Vec<Operand<'t>>,
    classes: &[Class],
    mut words: Words<'t>,
) -> Result<(), AllocError>
    ensures { OnOk result
        (slots.new.items
        ≡ slots.old.items ++ side_by_side (map spawn_argument classes.now) words.entry) }
{
    for class in classes {
        let Some(word) = words.next() else {
            return Ok(());
        };
        slots.push(Operand::of(Role::of_spawn_argument(*class), word))?;
    }
    fill(slots, Role::Free, words)
}

/// All further words, as arguments that `start` gives for parameters of these classes.
fn fill_start<'t>(
    slots: &mut Vec<Operand<'t>>,
    classes: &[Class],
    mut words: Words<'t>,
) -> Result<(), AllocError>
    ensures { OnOk result
        (slots.new.items
        ≡ slots.old.items ++ side_by_side (map start_argument classes.now) words.entry) }
{
    for class in classes {
        let Some(word) = words.next() else {
            return Ok(());
        };
        slots.push(Operand::of(Role::of_start_argument(*class), word))?;
    }
    fill(slots, Role::Free, words)
}
