//! The words of the command line.
ghost use Rattle.std.specs.Prelude.{◌≡◌, IfSome};
ghost use Rattle.std.specs.List.{list_all};
ghost use Rattle.std.specs.Char.{is_ascii_digit};
ghost use Rattle.query_program.specs.Words.{name_of, number_of, told_once, told_by, asked_by, options_of, IsInRange};

use text_spec::TextList;

/// What the words of the command line ask for.
#[derive(Clone, Copy, Debug, PartialEq, Eq)]
pub struct Told {
    /// How many workers take the jobs of a batch, 1 to 8.
    pub workers: u32,
    /// The input that is to be made, where one is: else it is read.
    pub made: Option<Made>,
}

/// An input to be made.
#[derive(Clone, Copy, Debug, PartialEq, Eq)]
pub struct Made {
    /// The number that it is made from.
    pub number: u32,
    /// Its lines, 1 to 1,000.
    pub lines: u32,
}

/// An option of the command line.
#[derive(Clone, Copy)]
pub(crate) enum Name {
    Workers,
    Make,
    Lines,
}

/// The numbers of the options that were read.
#[derive(Clone, Copy)]
pub(crate) struct Found {
    pub workers: Option<u32>,
    pub make: Option<u32>,
    pub lines: Option<u32>,
}

/// What the words ask for, or `None` where they are not of the form. Time linear in the words' bytes; it takes no memory.
///
/// The options stand in any order, each at most once, as the words `--x` and `v` or as the word `--x=v`, where `v` is of ASCII digits,
/// one or more. `--workers` is 1 to 8, and 1 where it isn't there. `--make`, 0 to 4,294,967,295, and `--lines`, 1 to 1,000, stand
/// together or not at all.
pub fn read_words(words: &TextList) -> Option<Told>
    ensures told { result ≡ options_of words.now }
    ensures ranges { IfSome result IsInRange }
{
    let mut found = Found {
        workers: None,
        make: None,
        lines: None,
    };
    let mut at = 0;
    while at < words.len() {
        let word = words.get(at);
        match word.split_once('=') {
            Some((name, value)) => {
                found = found.with(name, value)?;
                at += 1;
            }
            None => {
                if words.len() - at == 1 {
                    return None;
                }
                found = found.with(word, words.get(at + 1))?;
                at += 2;
            }
        }
    }
    found.asked()
}

/// The option of a name.
fn name_of(text: &str) -> Option<Name>
    ensures { result ≡ name_of text.now }
{
    if text == "--workers" {
        Some(Name::Workers)
    } else if text == "--make" {
        Some(Name::Make)
    } else if text == "--lines" {
        Some(Name::Lines)
    } else {
        None
    }
}

/// Whether each byte is an ASCII digit.
fn all_digits(text: &[u8]) -> bool
    ensures { result ≡ list_all is_ascii_digit text.now }
{
    text.iter().all(|b| b.is_ascii_digit())
}

/// The number that digits write, below 2^32.
fn number_of(text: &str) -> Option<u32>
    ensures { result ≡ number_of text.now }
{
    if !all_digits(text.as_bytes()) {
        return None;
    }
    text.parse::<u32>().ok()
}

impl Found {
    #[tactic(auto, unfolding(crate::specs::Words::told_by))]
    /// With one option more, which is of the form and wasn't there.
    fn with(self, name: &str, value: &str) -> Option<Found>
        ensures { result ≡ told_by self name.now value.now }
    {
        let name = name_of(name)?;
        let number = number_of(value)?;
        self.with_number(name, number)
    }

    /// With the number of one option more, which the option takes and which wasn't there.
    fn with_number(self, name: Name, number: u32) -> Option<Found>
        ensures { result ≡ told_once self name number }
    {
        match name {
            Name::Workers if self.workers.is_none() && 1 <= number && number <= 8 => Some(Found {
                workers: Some(number),
                ..self
            }),
            Name::Make if self.make.is_none() => Some(Found {
                make: Some(number),
                ..self
            }),
            Name::Lines if self.lines.is_none() && 1 <= number && number <= 1_000 => Some(Found {
                lines: Some(number),
                ..self
            }),
            _ => None,
        }
    }

    /// What is asked for by all of the options.
    fn asked(self) -> Option<Told>
        ensures { result ≡ asked_by self }
    {
        let workers = self.workers.unwrap_or(1);
        match (self.make, self.lines) {
            (None, None) => Some(Told {
                workers,
                made: None,
            }),
            (Some(number), Some(lines)) => Some(Told {
                workers,
                made: Some(Made { number, lines }),
            }),
            _ => None,
        }
    }
}
