// Three fields of a line.
ghost use Rattle.std.specs.Prelude.{◌≡◌, option_map};
ghost use Rattle.text_rows.specs.TextLines.{fields_in};
ghost use Rattle.perm_map.specs.Inner.MapReading.{Three, three_of};

use text_rows::first_field;

/// Three fields, where a line has no others.
#[derive(Clone, Copy)]
pub struct ThreeFields<'a> {
    pub first: &'a [u8],
    pub second: &'a [u8],
    pub third: &'a [u8],
}

/// The fields of a text that has three.
pub fn three_fields(text: &[u8]) -> Option<ThreeFields<'_>>
    ensures { option_map (λ f. record { first = f.first.now; second = f.second.now; third = f.third.now }) result ≡ three_of (fields_in text.now) }
{
    let Some((first, rest)) = first_field(text) else {
        return None;
    };
    let Some((second, rest)) = first_field(rest) else {
        return None;
    };
    let Some((third, rest)) = first_field(rest) else {
        return None;
    };
    match first_field(rest) {
        None => Some(ThreeFields {
            first,
            second,
            third,
        }),
        Some(_) => None,
    }
}
