// Entries that are asked for by a name.
ghost use Rattle.std.specs.Prelude.{◌≡◌, ◌<◌, ◌∷◌, ◌++◌, ℕ, List, [], IfOk, OnOk, cond, length, get_or, option_map};
ghost use Rattle.std.specs.Str.{bytes_eq};
ghost use Rattle.info_contexts.specs.NamedEntries.{is_asked, numbers_of_name};

use std::alloc::{AllocError, Global};

/// A list of entries that have names.
pub trait EntryNames {
    /// The names, in the order of the list.
    ghost names: { Self → List (List ℕ) };

    /// Whether that is the name of the entry of that number, from 0 on.
    fn is_named(&self, alloc: Global, number: u32, name: &[u8]) -> Result<bool, AllocError>
        requires { number < length (names self.now) }
        ensures { IfOk result (λ same. same ≡ bytes_eq (get_or (names self.now) number []) name.now) };
}

/// The numbers of those of so many entries that have the name, or of all where none is given.
#[tactic(auto, unfolding(crate::specs::NamedEntries::numbers_of_name), using(crate::proofs::NamedEntries::asked_more))]
pub fn numbers_of_name<E: EntryNames>(
    alloc: Global,
    entries: &E,
    count: u32,
    name: Option<&[u8]>,
) -> Result<Vec<u32>, AllocError>
    requires { count ≡ length (E.names entries.now) }
    ensures { IfOk result (λ numbers. numbers.items ≡ numbers_of_name (option_map (λ name. name.now) name.entry) (E.names entries.now)) }
{
    let mut numbers = Vec::new(alloc);
    for number in 0..count {
        let asked = is_asked(alloc, entries, number, name)?;
        push_if(&mut numbers, asked, number)?;
    }
    Ok(numbers)
}

// Appends a number, if it is asked for.
fn push_if(numbers: &mut Vec<u32>, asked: bool, number: u32) -> Result<(), AllocError>
    ensures { OnOk result (numbers.new.items ≡ numbers.old.items ++ cond asked (number ∷ []) []) }
{
    if asked {
        numbers.push(number)?;
    }
    Ok(())
}

// Whether the entry of that number is asked for.
fn is_asked<E: EntryNames>(
    alloc: Global,
    entries: &E,
    number: u32,
    name: Option<&[u8]>,
) -> Result<bool, AllocError>
    requires { number < length (E.names entries.now) }
    ensures { IfOk result (λ asked. asked ≡ is_asked (option_map (λ name. name.now) name.entry) (get_or (E.names entries.now) number [])) }
{
    match name {
        Some(name) => entries.is_named(alloc, number, name),
        None => Ok(true),
    }
}
