//! What a command line gives to the names of its command.

ghost use Rattle.std.specs.Prelude.{◌≡◌, map, option_map};
ghost use Rattle.ap_words.specs.Values.{given, has, value_of};

/// The text that a name has.
#[derive(Clone, Copy, Debug)]
pub struct Value<'a> {
    pub name: &'static str,
    pub text: &'a str,
}

/// Gives the first text of a name.
pub fn given<'a>(name: &str, values: &[Value<'a>]) -> Option<&'a str>
    ensures { option_map (λ text. text.now) result ≡ given name.now (map value_of values.now) }
{
    for value in values {
        if value.name == name {
            return Some(value.text);
        }
    }
    None
}

/// Tells whether a name has a text.
pub fn has(name: &str, values: &[Value]) -> bool
    ensures { result ≡ has name.now (map value_of values.now) }
{
    given(name, values).is_some()
}
