//! The table of words: the commands, with their places and options. A new option is one word here.

ghost use Rattle.std.specs.Prelude.{◌≡◌, map, option_map};
ghost use Rattle.ap_words.specs.Table.{words_of};
ghost use Rattle.ap_words.specs.Known.{words_in};

/// The names of a command's places, in their order, and of its options.
#[derive(Clone, Copy)]
pub struct Words {
    pub places: &'static [&'static str],
    pub options: &'static [&'static str],
}

pub const RUN: Words = Words {
    places: &["FILE"],
    options: &["workers", "budget", "answers", "annotator"],
};

pub const SHOW: Words = Words {
    places: &["FILE"],
    options: &["entry", "annotator"],
};

pub const CODE: Words = Words {
    places: &["FILE"],
    options: &[],
};

pub const LOAD: Words = Words {
    places: &["SEED", "SIZE"],
    options: &["workers"],
};

/// Gives the words of the command of a name.
pub fn words_of(command: &str) -> Option<Words>
    ensures { option_map words_in result ≡ words_of command.now }
{
    if command == "run" {
        Some(RUN)
    } else if command == "show" {
        Some(SHOW)
    } else if command == "code" {
        Some(CODE)
    } else if command == "load" {
        Some(LOAD)
    } else {
        None
    }
}
