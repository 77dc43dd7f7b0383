// What the text of a value is: a number within a range, a list, or a list of states.
ghost use Rattle.std.specs.Prelude.{◌≡◌, ◌≤◌, IfSome, option_map, true};
ghost use Rattle.std.specs.Char.{is_ascii_digit};
ghost use Rattle.std.specs.List.{list_all};
ghost use Rattle.std.specs.Str.Parse.{digits_value};
ghost use Rattle.se_words.specs.Values.{is_comma_list, is_number, is_state, is_state_list, name_before, number_within};

/// The number that the text is, if it has 1 to 18 decimal digits and is one from the least to the most.
#[tactic(auto, unfolding(crate::specs::Values::number_within))]
pub fn number_within(least: u64, most: u64, text: &str) -> Option<u64>
    ensures number { result ≡ number_within least most text.now }
    ensures least { IfSome result (λ number. least ≤ number) }
    ensures most { IfSome result (λ number. number ≤ most) }
{
    if !is_number(text) {
        return None;
    }
    let number = value_of_digits(text);
    if least <= number && number <= most {
        Some(number)
    } else {
        None
    }
}

// The number of 1 to 18 decimal digits.
fn value_of_digits(digits: &str) -> u64
    requires { is_number digits.now ≡ true }
    ensures { result ≡ digits_value 10 digits.now }
{
    match digits.parse::<u64>() {
        Ok(number) => number,
        Err(_) => unreachable!(),
    }
}

// Whether the text has 1 to 18 bytes, all decimal digits.
fn is_number(text: &str) -> bool
    ensures { result ≡ is_number text.now }
{
    !text.is_empty() && text.len() <= 18 && are_digits(text.as_bytes())
}

// Whether all bytes are decimal digits.
fn are_digits(bytes: &[u8]) -> bool
    ensures { result ≡ list_all is_ascii_digit bytes.now }
{
    bytes.iter().all(|byte| byte.is_ascii_digit())
}

// Whether no element of the list that is parted by commas is empty.
#[tactic(auto, unfolding(crate::specs::Values::is_comma_list))]
pub fn is_comma_list(text: &str) -> bool
    ensures { result ≡ is_comma_list text.now }
{
    text.as_bytes()
        .split(|byte| *byte == b',')
        .all(|element| !element.is_empty())
}

// Whether each element of the list that is parted by commas is a state.
#[tactic(auto, unfolding(crate::specs::Values::is_state_list))]
pub fn is_state_list(text: &str) -> bool
    ensures { result ≡ is_state_list text.now }
{
    text.split(',').all(is_state)
}

// Whether the text is a boolean's name with `=on` or `=off` behind it.
fn is_state(text: &str) -> bool
    ensures { result ≡ is_state text.now }
{
    name_before(text, "=on").is_some() || name_before(text, "=off").is_some()
}

// What stands before the ending, if that is there, and something before it.
#[tactic(auto, unfolding(crate::specs::Values::name_before))]
pub fn name_before<'w>(text: &'w str, ending: &str) -> Option<&'w str>
    ensures { option_map (λ name. name.now) result ≡ name_before ending.now text.now }
{
    let name = text.strip_suffix(ending)?;
    if name.is_empty() { None } else { Some(name) }
}
