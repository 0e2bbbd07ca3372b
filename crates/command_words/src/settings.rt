// The settings of a server, which options say before the names.
ghost use Rattle.std.specs.Prelude.{◌≡◌, MatchOption, Some, None};
ghost use Rattle.command_words.specs.Settings.{setting_of, joined_of, value_of, said_of};
ghost use Rattle.command_words.specs.Settings.{with_value};
ghost use Rattle.command_words.specs.Settings.{said_with, settings_by, settings_of};

use crate::Settings;
use crate::word::short_number_of;
use tuple_values::Text;

// One of the settings that options may say.
#[derive(Clone, Copy)]
enum Setting {
    Port,
    Workers,
    Runners,
}

// The values that options have said.
#[derive(Clone, Copy)]
struct Said {
    port: Option<u16>,
    workers: Option<u16>,
    runners: Option<u16>,
}

impl Said {
    fn value(self, setting: Setting) -> Option<u16>
        ensures { result ≡ said_of self setting }
    {
        match setting {
            Setting::Port => self.port,
            Setting::Workers => self.workers,
            Setting::Runners => self.runners,
        }
    }

    fn with_value(self, setting: Setting, value: u16) -> Said
        ensures { result ≡ with_value self setting value }
    {
        match setting {
            Setting::Port => Said {
                port: Some(value),
                ..self
            },
            Setting::Workers => Said {
                workers: Some(value),
                ..self
            },
            Setting::Runners => Said {
                runners: Some(value),
                ..self
            },
        }
    }

    // What is said with one setting more, which may be said once.
    fn with(self, setting: Setting, digits: &str) -> Option<Said>
        ensures { result ≡ said_with self setting digits.now }
    {
        if self.value(setting).is_some() {
            return None;
        }
        let value = value_of(setting, digits)?;
        Some(self.with_value(setting, value))
    }

    fn settings(self) -> Settings
        ensures { result ≡ settings_by self }
    {
        Settings {
            port: self.port.unwrap_or(8983),
            workers: self.workers.unwrap_or(4),
            runners: self.runners.unwrap_or(1),
        }
    }
}

// The setting that an option's word is for.
fn setting_of(word: &str) -> Option<Setting>
    ensures { result ≡ setting_of word.now }
{
    match word {
        "--port" => Some(Setting::Port),
        "--workers" => Some(Setting::Workers),
        "--runners" => Some(Setting::Runners),
        _ => None,
    }
}

// The setting of an option's word, and its value behind the first equals sign.
fn joined_of(word: &str) -> Option<(Setting, &str)>
    ensures { MatchOption result (joined_of word.now ≡ None)
        (λ joined. joined_of word.now ≡ Some (joined.0, joined.1.now)) }
{
    let (name, digits) = word.split_once('=')?;
    let setting = setting_of(name)?;
    Some((setting, digits))
}

// The value that digits give a setting, where it may have that.
fn value_of(setting: Setting, digits: &str) -> Option<u16>
    ensures { result ≡ value_of setting digits.now }
{
    match setting {
        Setting::Port => short_number_of(digits, 0, 65535),
        Setting::Workers => short_number_of(digits, 1, 16),
        Setting::Runners => short_number_of(digits, 1, 4),
    }
}

/// The settings that the options at the front of words say, and the words behind these.
pub fn settings_of(words: &[Text]) -> Option<(Settings, &[Text])>
    ensures { MatchOption result (settings_of words.now ≡ None)
        (λ read. settings_of words.now ≡ Some (read.0, read.1.now)) }
{
    let mut said = Said {
        port: None,
        workers: None,
        runners: None,
    };
    let mut rest = words;
    while let Some((word, behind)) = rest.split_first() {
        if let Some((setting, digits)) = joined_of(word.as_str()) {
            said = said.with(setting, digits)?;
            rest = behind;
            continue;
        }
        let Some(setting) = setting_of(word.as_str()) else {
            break;
        };
        let (digits, behind) = behind.split_first()?;
        said = said.with(setting, digits.as_str())?;
        rest = behind;
    }
    Some((said.settings(), rest))
}
