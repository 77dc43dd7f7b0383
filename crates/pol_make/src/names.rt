// Names of symbols.
ghost use Rattle.std.specs.Prelude.{◌≡◌, ◌++◌, IfOk, decimal};
ghost use Rattle.pol_make.specs.MadeSymbols.{type_name, attribute_name, category_name};

use pol_cursor::{ByteList, OwnedList};
use pol_texts::push_decimal;
use std::alloc::{AllocError, Global};

/// A name.
pub fn name(alloc: Global, text: &[u8]) -> Result<ByteList, AllocError>
    ensures { IfOk result (λ name. name ≡ text.now) }
{
    let mut name = Vec::new(alloc);
    name.extend_from_slice(text)?;
    Ok(OwnedList::from_vec(name))
}

/// The name of the type of that number.
pub fn type_name(alloc: Global, number: u32) -> Result<ByteList, AllocError>
    ensures { IfOk result (λ name. name ≡ type_name number) }
{
    let mut name = numbered(alloc, b"t", number)?;
    name.extend_from_slice(b"_t")?;
    Ok(OwnedList::from_vec(name))
}

/// The name of the attribute of that number.
pub fn attribute_name(alloc: Global, number: u32) -> Result<ByteList, AllocError>
    ensures { IfOk result (λ name. name ≡ attribute_name number) }
{
    Ok(OwnedList::from_vec(numbered(alloc, b"a", number)?))
}

/// The name of the category of that number.
pub fn category_name(alloc: Global, number: u32) -> Result<ByteList, AllocError>
    ensures { IfOk result (λ name. name ≡ category_name number) }
{
    Ok(OwnedList::from_vec(numbered(alloc, b"c", number)?))
}

// A word and a number behind it.
fn numbered(alloc: Global, word: &[u8], number: u32) -> Result<Vec<u8>, AllocError>
    ensures { IfOk result (λ name. name.items ≡ word.now ++ decimal number) }
{
    let mut name = Vec::new(alloc);
    name.extend_from_slice(word)?;
    push_decimal(&mut name, u64::from(number))?;
    Ok(name)
}
