//! The words of a command, parted into at most three positional words and at most one option.
ghost use Rattle.std.specs.Prelude.{◌≡◌, ℕ, List, [], ◌∷◌, if◌then◌else◌, Option, Some, None};
ghost use Rattle.std.specs.Option.{option_map};
ghost use Rattle.command_words.specs.declared.parts.Place.TheVariants as place;
ghost use Rattle.command_words.specs.Options as spec;
ghost use Rattle.command_words.specs.Spoken.{texts, kind_view, setting_view, parts_view, few_with, few_from};

use crate::options::{Kind, Setting, Word, begins_with_dash, word_of};
use arrayvec::ArrayVec;

/// Positional words in their order, and the option.
#[derive(Drop)]
pub(crate) struct Parts<'a> {
    pub(crate) positional: ArrayVec<&'a str, 3>,
    pub(crate) setting: Option<Setting<'a>>,
}

impl<'a> Parts<'a> {
    // False where there are three.
    fn add_positional(&mut self, word: &'a str) -> bool
        ensures { (later : Option spec.Parts)
            → few_with self.old (option_map (spec.with_positional word.now) later)
            ≡ (if result then few_with self.new later else None) }
    {
        if self.positional.is_full() {
            return false;
        }
        self.positional.push(word);
        true
    }

    // False where there is one: no option comes twice, and each excludes the others.
    fn add_setting(&mut self, setting: Setting<'a>) -> bool
        ensures { (later : Option spec.Parts)
            → few_with self.old (option_map (spec.with_setting (setting_view setting.entry)) later)
            ≡ (if result then few_with self.new later else None) }
    {
        if self.setting.is_some() {
            return false;
        }
        self.setting = Some(setting);
        true
    }
}

// Where the next word stands.
#[derive(Clone, Copy)]
enum Place {
    Free,
    // Behind an option that waits for its value.
    Awaits(Kind),
    // Behind `--`.
    Marked,
}

// The parts found so far, and where the next word stands.
#[derive(Drop)]
struct Found<'a> {
    parts: Parts<'a>,
    place: Place,
}

impl<'a> Found<'a> {
    // Looks at a word that is no value. False where the words are no command's, whatever follows.
    #[tactic(auto, unfolding(crate::specs::Options::parted))]
    fn look_at_free(&mut self, word: &'a str) -> bool
        requires { self.old.place ≡ place.Free }
        ensures { (rest : List (List ℕ))
            → few_with self.old.parts (spec.parted (word.now ∷ rest) None)
            ≡ (if result then few_from self.new rest else None) }
    {
        match word_of(word) {
            Word::Marker => {
                self.place = Place::Marked;
                true
            }
            Word::Positional => self.parts.add_positional(word),
            Word::Whole(setting) => self.parts.add_setting(setting),
            Word::Awaits(kind) => {
                self.place = Place::Awaits(kind);
                true
            }
            Word::Unknown => false,
        }
    }

    // Looks at the value of an option.
    #[tactic(auto, unfolding(crate::specs::Options::parted))]
    fn look_at_value(&mut self, kind: Kind, word: &'a str) -> bool
        ensures { (rest : List (List ℕ))
            → few_with self.old.parts (spec.parted (word.now ∷ rest) (Some (kind_view kind)))
            ≡ (if result then few_from self.new rest else None) }
    {
        if begins_with_dash(word) {
            return false;
        }
        self.place = Place::Free;
        self.parts.add_setting(Setting::With(kind, word))
    }

    // Looks at one word more. False where the words are no command's, whatever follows.
    fn look_at(&mut self, word: &'a str) -> bool
        ensures { (rest : List (List ℕ)) → few_from self.old (word.now ∷ rest)
            ≡ (if result then few_from self.new rest else None) }
    {
        match self.place {
            Place::Free => self.look_at_free(word),
            Place::Awaits(kind) => self.look_at_value(kind, word),
            Place::Marked => self.parts.add_positional(word),
        }
    }

    // The parts, where no option waits for its value.
    #[tactic(auto, unfolding(crate::specs::Options::parted))]
    fn end(self) -> Option<Parts<'a>>
        ensures { spec.few (option_map parts_view result) ≡ few_from self.entry [] }
    {
        match self.place {
            Place::Awaits(_) => None,
            _ => Some(self.parts),
        }
    }
}

/// The parts of the words, where they are few.
pub(crate) fn parted<'a>(words: &[&'a str]) -> Option<Parts<'a>>
    ensures { spec.few (option_map parts_view result)
        ≡ spec.few (spec.parted (texts words.now) None) }
{
    let mut found = Found {
        parts: Parts {
            positional: ArrayVec::new(),
            setting: None,
        },
        place: Place::Free,
    };
    for word in words {
        if !found.look_at(word) {
            return None;
        }
    }
    found.end()
}
