//! The program's words.
#![tactic(auto)]

ghost use Rattle.std.specs.Prelude.{◌≡◌, Some, map, option_map, string_bytes};
ghost use Rattle.attr_list.specs.Numbers.{decimal_of};
ghost use Rattle.command_line.specs.Arguments.{asked, asked_by, count_said, live_said, port_said, vod_said};
ghost use Rattle.std.specs.Option.{option_copied};

use attr_list::read_decimal;

/// What the program is asked to do.
#[derive(Clone, Copy)]
pub enum Command<'a> {
    /// One playlist from standard input to standard output.
    Vod {
        /// The URL of the playlist, to which its references are joined.
        base: &'a str,
        /// The path of the decision file, if breaks are to be filled.
        decisions: Option<&'a str>,
    },
    /// Live channels, served on the loopback address.
    Live {
        /// The port, from 1.
        port: u16,
        /// How many connections are served.
        count: u32,
    },
}

// `vod` with these words after it.
fn vod_command_with<'a>(
    verb: &str,
    base: &'a str,
    decisions: Option<&'a str>,
) -> Option<Command<'a>>
    ensures { option_map asked result ≡ vod_said verb.now base.now (option_copied decisions.entry) }
{
    if verb == "vod" {
        Some(Command::Vod { base, decisions })
    } else {
        None
    }
}

fn port_of_command_word(word: &str) -> Option<u16>
    ensures { result ≡ port_said (decimal_of word.now) }
{
    let Ok(number) = read_decimal(word) else {
        return None;
    };
    if number == 0 || number > 65_535 {
        return None;
    }
    Some(number as u16)
}

fn count_of_command_word(word: &str) -> Option<u32>
    ensures { result ≡ count_said (decimal_of word.now) }
{
    let Ok(number) = read_decimal(word) else {
        return None;
    };
    if number > 4_294_967_295 {
        return None;
    }
    Some(number as u32)
}

// `live` with these words after it.
fn live_command_with<'a>(port: &str, count: &str) -> Option<Command<'a>>
    ensures { option_map asked result ≡ live_said port.now count.now }
{
    let port = port_of_command_word(port)?;
    let count = count_of_command_word(count)?;
    Some(Command::Live { port, count })
}

/// What `words` ask for, which are the program's without its name. `None` if they are none of its commands: the
/// caller prints the usage. Takes no memory.
///
/// ```text
/// vod BASE               a run over one playlist, without a decision file
/// vod BASE DECISIONS     a run over one playlist
/// live PORT COUNT        a server on the loopback address, for COUNT connections
/// ```
pub fn read_command(words: &[String]) -> Option<Command<'_>>
    ensures { option_map asked result ≡ asked_by (map string_bytes words.now) }
{
    match words {
        [verb, base] => vod_command_with(verb.as_str(), base.as_str(), None),
        [verb, first, second] => {
            if verb.as_str() == "live" {
                live_command_with(first.as_str(), second.as_str())
            } else {
                vod_command_with(verb.as_str(), first.as_str(), Some(second.as_str()))
            }
        }
        _ => None,
    }
}
