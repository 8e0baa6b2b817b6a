//! What isn't understood in the words of a command line.
//!
//! It is looked for only where gx_play has understood nothing, word by word from the first on, and then in what the
//! words say together.
use crate::options::{CommandOption, Listed, OPTION_COUNT, WORK, Wanted, options};
use crate::reasons::WordsReason;
use crate::shown::Shown;

/// What the words have said so far.
#[derive(Clone, Copy)]
struct Reading<'a> {
    story: Option<&'a str>,
    job: &'a str,
    /// Which options stood, by their places in the list.
    stood: [bool; OPTION_COUNT],
    /// The option whose value is the next word.
    waiting: Option<&'static CommandOption>,
    /// No word is an option any more.
    only_stories: bool,
}

/// Why the words aren't understood; the first is the program's name.
pub fn misread<'a>(words: &[&'a str]) -> WordsReason<'a> {
    let mut reading = Reading {
        story: None,
        job: "play",
        stood: [false; OPTION_COUNT],
        waiting: None,
        only_stories: false,
    };
    for word in words.iter().skip(1) {
        if let Err(reason) = reading.take(word) {
            return reason;
        }
    }
    reading.whole()
}

/// Whether a word looks like an option.
fn is_option(word: &str) -> bool {
    word.len() > 1 && word.starts_with('-')
}

/// The option of a name, and its place in the list.
fn find_option(name: &str) -> Option<(usize, &'static CommandOption)> {
    options()
        .iter()
        .enumerate()
        .find(|(_, option)| option.0 == name)
}

impl<'a> Reading<'a> {
    /// Takes the next word.
    fn take(&mut self, word: &'a str) -> Result<(), WordsReason<'a>> {
        match self.waiting.take() {
            Some(option) if is_option(word) => Err(without_value(option)),
            Some(option) => self.take_value(option, word),
            None if self.only_stories || !is_option(word) => self.take_story(word),
            None if word == "--" => {
                self.only_stories = true;
                Ok(())
            }
            None => self.take_option(word),
        }
    }

    fn take_story(&mut self, word: &'a str) -> Result<(), WordsReason<'a>> {
        if self.story.is_some() {
            return Err(WordsReason::SecondStory(Shown(word)));
        }
        self.story = Some(word);
        Ok(())
    }

    /// Takes `--NAME` or `--NAME=VALUE`.
    fn take_option(&mut self, word: &'a str) -> Result<(), WordsReason<'a>> {
        let unknown = WordsReason::UnknownOption(Shown(word), Listed);
        let spelled = word.strip_prefix("--").ok_or(unknown)?;
        let (name, value) = match spelled.split_once('=') {
            Some((name, value)) => (name, Some(value)),
            None => (spelled, None),
        };
        let (place, option) = find_option(name).ok_or(unknown)?;
        if let Some(stood) = self.stood.get_mut(place) {
            if *stood {
                return Err(WordsReason::Twice(Shown(name)));
            }
            *stood = true;
        }
        match (option.1, value) {
            (Some(_), Some(value)) => self.take_value(option, value),
            (Some(_), None) => {
                self.waiting = Some(option);
                Ok(())
            }
            (None, Some(_)) => Err(WordsReason::WithValue(Shown(name))),
            (None, None) => Ok(()),
        }
    }

    fn take_value(
        &mut self,
        option: &'static CommandOption,
        value: &'a str,
    ) -> Result<(), WordsReason<'a>> {
        let (name, Some(wanted)) = *option else {
            return Ok(());
        };
        if !wanted.is_met(value) {
            return Err(WordsReason::BadValue(Shown(name), wanted, Shown(value)));
        }
        if wanted == Wanted::Job {
            self.job = value;
        }
        Ok(())
    }

    /// What isn't understood of words that are well one by one.
    fn whole(&self) -> WordsReason<'a> {
        if let Some(option) = self.waiting {
            return without_value(option);
        }
        let Some(story) = self.story else {
            return WordsReason::NoStory;
        };
        if self.job == "work" && !WORK.is_met(story) {
            return WordsReason::BadWork(WORK, Shown(story));
        }
        if self.has("screen") {
            let other = ["plain", "wrap", "echo"]
                .into_iter()
                .find(|it| self.has(it));
            return match other {
                Some(name) => WordsReason::NotWithScreen(Shown(name)),
                None => WordsReason::NoScreen,
            };
        }
        WordsReason::Together
    }

    /// Whether this option stood.
    fn has(&self, name: &str) -> bool {
        match find_option(name) {
            Some((place, _)) => self.stood.get(place) == Some(&true),
            None => false,
        }
    }
}

/// An option has no value behind it.
fn without_value<'a>(option: &'static CommandOption) -> WordsReason<'a> {
    match *option {
        (name, Some(wanted)) => WordsReason::NoValue(Shown(name), wanted),
        (_, None) => WordsReason::Together,
    }
}
