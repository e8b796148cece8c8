//! Numbers that are drawn, and texts in which they stand.
ghost use Rattle.std.specs.Prelude.{◌≤◌};

use ses_io::NoMemory;
use std::alloc::Global;

/// Numbers from a seed, by the step of Knuth's MMIX; its upper bits are drawn.
#[derive(Drop)]
pub(crate) struct Draw {
    seed: u64,
}

impl Draw {
    /// Of a seed.
    pub(crate) fn new(seed: u64) -> Draw {
        Draw { seed }
    }

    /// A number below this one; 0 below 0.
    pub(crate) fn below(&mut self, bound: u64) -> u64
        ensures { result ≤ bound }
    {
        self.seed = self
            .seed
            .wrapping_mul(6_364_136_223_846_793_005)
            .wrapping_add(1_442_695_040_888_963_407);
        let drawn = self.seed >> 33;
        drawn.checked_rem(bound).unwrap_or(0)
    }

    /// Whether one of so many chances is met.
    pub(crate) fn one_in(&mut self, chances: u64) -> bool {
        self.below(chances) == 0
    }

    /// One of these texts.
    pub(crate) fn one_of(&mut self, texts: &[&'static str]) -> &'static str {
        let place = self.below(texts.len() as u64) as usize;
        match texts.get(place) {
            Some(text) => text,
            None => "",
        }
    }

    // What stands for a letter of a form, where it stands for something that is drawn.
    fn drawn_for(&mut self, letter: u8) -> Option<u64> {
        match letter {
            b'#' => Some(self.below(40)),
            b'*' => Some(1 + self.below(20)),
            b'^' => Some(self.below(131_072)),
            b'@' => Some(self.below(3)),
            _ => None,
        }
    }

    // The word that stands for a letter.
    fn word_for(&mut self, letter: u8) -> Option<&'static str> {
        match letter {
            b'%' => Some(self.one_of(&["on", "off"])),
            b'?' => Some(self.one_of(&["true", "false"])),
            _ => None,
        }
    }

    /// Writes a form, in which `#` is a number below 40, `*` one of 1 to 20, `^` a gain, `@` a number below 3, `%` on or off, `?` true or
    /// false, and `$` this place.
    pub(crate) fn fill(
        &mut self,
        alloc: Global,
        out: &mut Vec<u8>,
        form: &str,
        place: u64,
    ) -> Result<(), NoMemory> {
        for letter in form.as_bytes() {
            let number = match letter {
                b'$' => Some(place),
                _ => self.drawn_for(*letter),
            };
            match (number, self.word_for(*letter)) {
                (Some(number), _) => {
                    out.extend_from_slice(format!(in alloc; "{number}")?.as_bytes())?;
                }
                (None, Some(word)) => out.extend_from_slice(word.as_bytes())?,
                (None, None) => out.extend_from_slice(&[*letter])?,
            }
        }
        Ok(())
    }
}
