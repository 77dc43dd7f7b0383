// The rows of a table of options.
ghost use Rattle.std.specs.Prelude.{◌≡◌, ◌||◌, bytes_eq, codes, option_map, nat_eq};
ghost use Rattle.std.specs.List.{starts_with};
ghost use Rattle.se_words.specs.Options.{is_short, kind_view, naming, row_view, spelling_of, spelling_view, switch, valued};

/// What the value of an option has to be.
#[derive(Clone, Copy, Debug)]
pub enum ValueKind {
    /// Any text.
    Text,
    /// A number of 1 to 18 decimal digits.
    Number { least: u64, most: u64 },
    /// A list that is parted by commas, without an empty element.
    CommaList,
    /// Such a list, but any text where the option of that name is given.
    CommaListUnless(&'static str),
    /// A list of states of booleans, `NAME=on` or `NAME=off`, that is parted by commas.
    States,
}

/// What an option takes.
#[derive(Clone, Copy, Debug)]
pub enum Takes {
    Nothing,
    /// A name that may be left out.
    OptionalName,
    Value(ValueKind),
}

/// A row of a table of options.
#[derive(Clone, Copy, Debug)]
pub struct OptionRow {
    /// The short form, if there is one besides the name.
    pub short: Option<&'static str>,
    /// The long form, with its dashes, or the short one of an option that has no other.
    pub name: &'static str,
    pub takes: Takes,
}

/// How a word spells an option.
#[derive(Clone, Copy, Debug)]
pub enum Spelling<'w> {
    Other,
    Alone,
    /// Joined to that value.
    Joined(&'w str),
}

/// An option that takes nothing.
pub fn switch(short: Option<&'static str>, name: &'static str) -> OptionRow
    ensures { row_view result ≡ switch (option_map (λ short. short.now) short.entry) name.now }
{
    OptionRow {
        short,
        name,
        takes: Takes::Nothing,
    }
}

/// An option that may take a name.
pub fn naming(short: Option<&'static str>, name: &'static str) -> OptionRow
    ensures { row_view result ≡ naming (option_map (λ short. short.now) short.entry) name.now }
{
    OptionRow {
        short,
        name,
        takes: Takes::OptionalName,
    }
}

/// An option that takes a value.
pub fn valued(short: Option<&'static str>, name: &'static str, kind: ValueKind) -> OptionRow
    ensures { row_view result ≡ valued (option_map (λ short. short.now) short.entry) name.now (kind_view kind) }
{
    OptionRow {
        short,
        name,
        takes: Takes::Value(kind),
    }
}

impl OptionRow {
    // How the text spells the option.
    #[tactic(auto, unfolding(crate::specs::Options::spelling_of))]
    pub fn spelling<'w>(&self, text: &'w str) -> Spelling<'w>
        ensures { spelling_view result ≡ spelling_of (row_view self.now) text.now }
    {
        if self.is_alone(text) {
            return Spelling::Alone;
        }
        if !self.is_long() {
            return Spelling::Other;
        }
        match text.split_once('=') {
            Some((front, value)) => {
                if front == self.name {
                    Spelling::Joined(value)
                } else {
                    Spelling::Other
                }
            }
            None => Spelling::Other,
        }
    }

    // Whether the text is the option alone.
    fn is_alone(&self, text: &str) -> bool
        ensures { result ≡ (is_short (option_map (λ short. short.now) self.now.short) text.now || bytes_eq text.now self.now.name.now) }
    {
        let is_short = match self.short {
            Some(short) => text == short,
            None => false,
        };
        is_short || text == self.name
    }

    // Whether the name is a long form.
    fn is_long(&self) -> bool
        ensures { result ≡ starts_with nat_eq self.now.name.now (codes "--") }
    {
        self.name.as_bytes().starts_with(b"--")
    }
}
